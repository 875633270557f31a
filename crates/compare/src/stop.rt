// Why a comparison ended before its last address.
ghost use Rattle.std.specs.Prelude.{Some};
ghost use Rattle.compare.specs.Lines.{side_text};

use std::fmt;
use store::look_refusal::LookRefusal;

#[derive(Clone, Copy, Debug, PartialEq, Eq)]
pub enum Side {
    Old,
    New,
}

impl fmt::Display for Side {
    ghost output = { λ s. Some (side_text s) };

    fn fmt<W: fmt::Write>(&self, f: &mut fmt::Formatter<W>) -> fmt::Result {
        f.write_str(match self {
            Side::Old => "OLD",
            Side::New => "NEW",
        })
    }
}

// That side's look at the address was refused.
#[derive(Clone, Copy, Debug, PartialEq, Eq)]
pub struct Stop {
    pub address: u16,
    pub side: Side,
    pub refusal: LookRefusal,
}
