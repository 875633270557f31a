// The first restart of piles of height 2, with each of their bottom disks cut or killed at each of its calls.
use crate::calls::{buffered, plain};
use crate::pairs::{High, Low, join, low};
use bench_disks::plain::Plain;
use disks::cause::{Call, Cause};
use disks::disk::Disk;
use disks::refusal::Refusal;
use disks::side::Side;
use pair::pair::Pair;
use std::alloc::Global;
use std::process::Abort;
use std::test::Fail;

// A pair as side 1, so that it is what is copied onto.
type Wide = Pair<Plain, Low>;

// A bottom disk by its place from the left, the number of its calls before the event, and the call that meets it.
type Event = (u8, u32, Call);

const HIGH_EVENTS: [Event; 13] = [
    (0, 0, Call::Restart),
    (0, 1, Call::Read(0)),
    (0, 2, Call::Read(1)),
    (0, 3, Call::Read(0)),
    (0, 4, Call::Read(1)),
    (1, 0, Call::Restart),
    (1, 1, Call::Write(0)),
    (1, 2, Call::Write(1)),
    (1, 3, Call::Barrier),
    (2, 0, Call::Restart),
    (2, 1, Call::Write(0)),
    (2, 2, Call::Write(1)),
    (2, 3, Call::Barrier),
];

const WIDE_EVENTS: [Event; 16] = [
    (0, 0, Call::Restart),
    (0, 1, Call::Read(0)),
    (0, 2, Call::Read(1)),
    (1, 0, Call::Restart),
    (1, 1, Call::Read(0)),
    (1, 2, Call::Read(1)),
    (1, 3, Call::Write(0)),
    (1, 4, Call::Write(1)),
    (1, 5, Call::Barrier),
    (2, 0, Call::Restart),
    (2, 1, Call::Write(0)),
    (2, 2, Call::Write(1)),
    (2, 3, Call::Barrier),
    (2, 4, Call::Write(0)),
    (2, 5, Call::Write(1)),
    (2, 6, Call::Barrier),
];

// The schedules of the three bottom disks: one word for one of them.
fn schedules(bottom: u8, word: &[u32]) -> [&[u32]; 3] {
    match bottom {
        0 => [word, &[], &[]],
        1 => [&[], word, &[]],
        _ => [&[], &[], word],
    }
}

fn high(heap: Global, words: [&[u32]; 3]) -> Result<High, Fail> {
    let [words0, words1, words2] = words;
    join(low(heap, words0, words1)?, buffered(heap, 1024, words2)?)
}

fn wide(heap: Global, words: [&[u32]; 3]) -> Result<Wide, Fail> {
    let [words0, words1, words2] = words;
    join(plain(heap, 1024, words0)?, low(heap, words1, words2)?)
}

// A cut is the pile's answer, with this cause; a death is not.
fn check<D: Disk>(rt: &impl Abort, pile: &mut D, verb: u32, cause: Cause) {
    let answer = if verb == 0xC0000000 {
        Ok(())
    } else {
        Err(Refusal::Dark(cause))
    };
    assert_eq!(rt; pile.restart(), answer);
}

#[test]
fn restart_of_a_pile_over_a_pair(rt: HostRuntime) -> Result<(), Fail> {
    for (bottom, gap, call) in HIGH_EVENTS {
        for verb in [0x40000000u32, 0x80000000, 0xC0000000] {
            let mut pile = high(rt.alloc(), schedules(bottom, &[verb | gap]))?;
            let cause = match bottom {
                0 => Cause::from(call)
                    .under(Side::Zero.number())
                    .under(Side::Zero.number()),
                1 => Cause::from(call)
                    .under(Side::One.number())
                    .under(Side::Zero.number()),
                _ => Cause::from(call).under(Side::One.number()),
            };
            check(&rt, &mut pile, verb, cause);
        }
    }
    Ok(())
}

#[test]
fn restart_of_a_pile_beside_a_pair(rt: HostRuntime) -> Result<(), Fail> {
    for (bottom, gap, call) in WIDE_EVENTS {
        for verb in [0x40000000u32, 0x80000000, 0xC0000000] {
            let mut pile = wide(rt.alloc(), schedules(bottom, &[verb | gap]))?;
            let cause = match bottom {
                0 => Cause::from(call).under(Side::Zero.number()),
                1 => Cause::from(call)
                    .under(Side::Zero.number())
                    .under(Side::One.number()),
                _ => Cause::from(call)
                    .under(Side::One.number())
                    .under(Side::One.number()),
            };
            check(&rt, &mut pile, verb, cause);
        }
    }
    Ok(())
}
