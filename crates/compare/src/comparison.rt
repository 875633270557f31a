// Each address of two plans, looked up in both.
ghost use Rattle.std.specs.Prelude.{◌≡◌, IfErr, IfOk, Some};
ghost use Rattle.store.specs.Looks.{Looks};
ghost use Rattle.compare.specs.Differences.{ListsExactly};
ghost use Rattle.compare.specs.Outcomes.{outcome, turn_outcome, looked_at};
ghost use Rattle.compare.specs.Lines.{only_text};
ghost use Rattle.compare.specs.Compares.{shared, lone, LooksMeant, ComparesAt, Compares, CompareMeans};

use crate::difference::{Difference, first_difference};
use crate::room::Room;
use crate::stop::{Side, Stop};
use disks::block::{BLOCK_BYTES, Block};
use disks::reader::Reader;
use std::cmp::Ordering;
use std::fmt;
use store::look::{FIRST_HOME, look, plan_size};

// The addresses that the longer plan alone has.
#[derive(Clone, Copy, Debug, PartialEq, Eq)]
pub struct Only {
    pub side: Side,
    pub first: u16,
    pub last: u16,
}

impl fmt::Display for Only {
    ghost output = { λ o. Some (only_text o) };

    fn fmt<W: fmt::Write>(&self, f: &mut fmt::Formatter<W>) -> fmt::Result {
        let Only { side, first, last } = *self;
        write!(f, "{first}-{last} only in {side}")
    }
}

#[derive(Drop)]
pub struct Comparison {
    // How many addresses both plans have.
    pub compared: u16,
    // In ascending order of the addresses.
    pub differences: Vec<Difference>,
    pub only: Option<Only>,
}

// Looks up each address that both plans have, in the old store and then in the new one.
// The two stay parameters of their own: a struct of both would be made here and taken apart in compare_at alone.
pub fn compare<A: Reader, B: Reader>(
    room: Room,
    old: &mut A,
    new: &mut B,
) -> Result<Comparison, Stop>
    ensures steps { Compares (Looks A.Reader) (Looks B.Reader) (shared (A.Reader.view old.old).size (B.Reader.view new.old).size) old.old new.old (outcome result) old.new new.new }
    ensures means { CompareMeans A.Reader B.Reader old.old new.old (outcome result) old.new new.new }
    ensures lists { ListsExactly }
    ensures counts { IfOk result (λ c. (c.compared ≡ shared (A.Reader.view old.old).size (B.Reader.view new.old).size) × (c.only ≡ lone (A.Reader.view old.old).size (B.Reader.view new.old).size)) }
{
    let old_size = old.size();
    let new_size = new.size();
    let compared = shared_addresses(old_size, new_size);
    let mut differences = room.list;
    for address in 0..compared {
        if let Some(difference) = compare_at(old, new, address)? {
            differences.push_reserved(difference);
        }
    }
    Ok(Comparison {
        compared,
        differences,
        only: lone_addresses(old_size, new_size),
    })
}

fn compare_at<A: Reader, B: Reader>(
    old: &mut A,
    new: &mut B,
    address: u16,
) -> Result<Option<Difference>, Stop>
    ensures { ComparesAt (LooksMeant A.Reader) (LooksMeant B.Reader) address old.old new.old (turn_outcome result) old.new new.new }
{
    let mut old_block = [0u8; BLOCK_BYTES];
    let mut new_block = [0u8; BLOCK_BYTES];
    look_at(old, Side::Old, address, &mut old_block)?;
    look_at(new, Side::New, address, &mut new_block)?;
    Ok(first_difference(address, &old_block, &new_block))
}

fn look_at<R: Reader>(
    reader: &mut R,
    side: Side,
    address: u16,
    place: &mut Block,
) -> Result<(), Stop>
    ensures looks { LooksMeant R.Reader reader.old address (looked_at result place.new) reader.new }
    ensures stop { IfErr result (λ s. (s.address ≡ address) × (s.side ≡ side)) }
{
    look(reader, address, place).map_err(|refusal| Stop {
        address,
        side,
        refusal,
    })
}

// At least one, so that what is no store is met by a look.
fn shared_addresses(old_size: u16, new_size: u16) -> u16
    ensures { result ≡ shared old_size new_size }
{
    plan_size(old_size.min(new_size)).unwrap_or(1)
}

fn lone_addresses(old_size: u16, new_size: u16) -> Option<Only>
    ensures { result ≡ lone old_size new_size }
{
    let side = match old_size.cmp(&new_size) {
        Ordering::Greater => Side::Old,
        Ordering::Less => Side::New,
        Ordering::Equal => return None,
    };
    Some(Only {
        side,
        first: old_size.min(new_size).saturating_sub(FIRST_HOME),
        last: old_size.max(new_size).saturating_sub(FIRST_HOME + 1),
    })
}
