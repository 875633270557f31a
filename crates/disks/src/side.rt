// The sides of a pair.
ghost use Rattle.std.specs.Prelude.{◌≡◌};
ghost use Rattle.disks.specs.Values.{side_number};

#[derive(Clone, Copy, Debug, PartialEq, Eq)]
pub enum Side {
    Zero,
    One,
}

impl Side {
    // The number by which the text of a trail names the side, and so a method and no `From`.
    pub fn number(self) -> u8
        ensures { result ≡ side_number self }
    {
        match self {
            Side::Zero => 0,
            Side::One => 1,
        }
    }
}
