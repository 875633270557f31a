// Pairs and piles of bench disks, through each cut and each death in a restart.
use crate::calls::{buffered, number_of, plain, play};
use bench_disks::buffered::Buffered;
use bench_disks::plain::Plain;
use disks::cause::{Call, Cause};
use disks::disk::Disk;
use disks::reader::Reader;
use disks::refusal::Refusal;
use disks::side::Side;
use disks::trail::Trail;
use pair::pair::Pair;
use std::alloc::Global;
use std::process::Abort;
use std::test::Fail;

pub type Low = Pair<Plain, Buffered>;

pub type High = Pair<Low, Buffered>;

pub fn join<A: Disk + Drop, B: Disk + Drop>(side0: A, side1: B) -> Result<Pair<A, B>, Fail> {
    Pair::new(side0, side1).map_err(|_| Fail::new("no pair"))
}

// Two blocks of zeros on each side.
pub fn low(heap: Global, words0: &[u32], words1: &[u32]) -> Result<Low, Fail> {
    join(plain(heap, 1024, words0)?, buffered(heap, 1024, words1)?)
}

// The answer of a pair whose side went dark at the call.
fn dark(call: Call, side: Side) -> Result<(), Refusal> {
    Err(Refusal::Dark(Cause::from(call).under(side.number())))
}

// Checks an answer by what it tells: its number, and the text of its cause.
fn check_told(
    rt: &impl Abort,
    heap: Global,
    answer: Result<(), Refusal>,
    number: u8,
    text: &str,
) -> Result<(), Fail> {
    assert_eq!(rt; number_of(answer), number);
    let told = match answer {
        Err(Refusal::Dark(cause)) => format!(in heap; "{cause}")?,
        Err(Refusal::Lost(cause)) => format!(in heap; "{cause}")?,
        _ => String::new(heap),
    };
    assert_eq!(rt; told.as_str(), text);
    Ok(())
}

// A side, the number of empty steps before its event, the call that meets it, and the text of the cause. The first restart takes three steps
// of side 0 and four of side 1, then come a write and a barrier, and the second restart meets the event.
const RESTART_STEPS: [(Side, u32, Call, &str); 7] = [
    (Side::Zero, 5, Call::Restart, "4 0 0"),
    (Side::Zero, 6, Call::Read(0), "1 0 0"),
    (Side::Zero, 7, Call::Read(1), "1 1 0"),
    (Side::One, 6, Call::Restart, "4 0 1"),
    (Side::One, 7, Call::Write(0), "2 0 1"),
    (Side::One, 8, Call::Write(1), "2 1 1"),
    (Side::One, 9, Call::Barrier, "3 0 1"),
];

fn with_event(rt: &impl Abort, heap: Global, side: Side, word: u32) -> Result<Low, Fail> {
    let mut pair = match side {
        Side::Zero => low(heap, &[word], &[])?,
        Side::One => low(heap, &[], &[word])?,
    };
    play(
        rt,
        &mut pair,
        &[
            (Call::Read(0), 0, 2),
            (Call::Restart, 0, 0),
            (Call::Write(0), 7, 0),
            (Call::Barrier, 0, 0),
        ],
    );
    Ok(pair)
}

#[test]
fn cuts_in_a_restart(rt: HostRuntime) -> Result<(), Fail> {
    for (side, gap, call, text) in RESTART_STEPS {
        for verb in [0x40000000u32, 0x80000000] {
            let mut pair = with_event(&rt, rt.alloc(), side, verb + gap)?;
            for answer in [pair.restart(), pair.barrier()] {
                assert_eq!(rt; answer, dark(call, side));
                check_told(&rt, rt.alloc(), answer, 2, text)?;
            }
            play(
                &rt,
                &mut pair,
                &[
                    (Call::Restart, 0, 0),
                    (Call::Read(0), 7, 0),
                    (Call::Read(1), 0, 0),
                ],
            );
        }
    }
    Ok(())
}

#[test]
fn deaths_in_a_restart(rt: HostRuntime) -> Result<(), Fail> {
    for (side, gap, _, _) in RESTART_STEPS {
        let mut pair = with_event(&rt, rt.alloc(), side, 0xC0000000 + gap)?;
        play(
            &rt,
            &mut pair,
            &[
                (Call::Restart, 0, 0),
                (Call::Read(0), 7, 0),
                (Call::Write(1), 8, 0),
                (Call::Barrier, 0, 0),
                (Call::Restart, 0, 0),
                (Call::Read(0), 7, 0),
                (Call::Read(1), 8, 0),
                (Call::Read(2), 0, 1),
            ],
        );
    }
    Ok(())
}

// Both sides die: the cause is that of side 1.
#[test]
fn both_sides_die(rt: HostRuntime) -> Result<(), Fail> {
    let mut pair = low(rt.alloc(), &[0xC0000003], &[0xC0000004])?;
    play(&rt, &mut pair, &[(Call::Restart, 0, 0)]);
    let lost = Err(Refusal::Lost(Cause::from(Call::Write(1)).under(Side::One.number())));
    for answer in [pair.write(1, &[7; 512]), pair.restart()] {
        assert_eq!(rt; answer, lost);
        check_told(&rt, rt.alloc(), answer, 3, "2 1 1")?;
    }
    play(
        &rt,
        &mut pair,
        &[
            (Call::Read(2), 0, 1),
            (Call::Read(1), 0, 3),
            (Call::Barrier, 0, 3),
        ],
    );
    Ok(())
}

// A trail of two sides, top first: side 0 of the pile, and side 1 of the pair there.
#[test]
fn trail_of_two_sides(rt: HostRuntime) -> Result<(), Fail> {
    let mut pile: High = join(
        low(rt.alloc(), &[], &[0x40000000])?,
        buffered(rt.alloc(), 1024, &[])?,
    )?;
    assert_eq!(rt; pile.height(), 2);
    let cause = Cause::from(Call::Restart)
        .under(Side::One.number())
        .under(Side::Zero.number());
    let answer = pile.restart();
    assert_eq!(rt; answer, Err(Refusal::Dark(cause)));
    check_told(&rt, rt.alloc(), answer, 2, "4 0 01")?;
    assert_eq!(rt; number_of(pile.restart()), 0);
    Ok(())
}

// The sides of a trail by name, top first: a ninth falls off, and a number that is no side's is taken for side 1.
#[test]
fn sides_of_trails(rt: HostRuntime) -> Result<(), Fail> {
    assert!(rt; Trail::EMPTY.sides().is_empty());
    let trail = Trail::EMPTY.under(Side::One.number());
    assert_eq!(rt; trail.sides(), [Side::One].as_slice());
    let trail = trail.under(Side::Zero.number());
    assert_eq!(rt; trail.sides(), [Side::Zero, Side::One].as_slice());
    let four = Trail::EMPTY.under(1).under(0).under(1).under(1);
    let nine = four.under(0).under(0).under(1).under(0).under(1);
    let (zero, one) = (Side::Zero, Side::One);
    assert_eq!(rt;
        nine.sides(),
        [one, zero, one, zero, zero, one, one, zero].as_slice()
    );
    let other = trail.under(7);
    assert_eq!(rt; other.sides(), [one, zero, one].as_slice());
    assert_eq!(rt; other.numbers(), [7, 0, 1].as_slice());
    Ok(())
}

// Restarts a disk until it is on; three times are enough for one event.
fn bring_up<D: Disk>(disk: &mut D) -> Result<(), Fail> {
    for _ in 0..3 {
        if disk.restart().is_ok() {
            return Ok(());
        }
    }
    Err(Fail::new("still not on"))
}

// Writes block 0, barrier and restart, each again after a cut; what was written is there at the end.
fn write_through<D: Disk>(rt: &impl Abort, disk: &mut D) -> Result<(), Fail> {
    bring_up(disk)?;
    if disk.write(0, &[7; 512]).is_err() {
        bring_up(disk)?;
        play(rt, disk, &[(Call::Write(0), 7, 0)]);
    }
    if disk.barrier().is_err() {
        bring_up(disk)?;
        play(rt, disk, &[(Call::Write(0), 7, 0), (Call::Barrier, 0, 0)]);
    }
    bring_up(disk)?;
    assert_eq!(rt; read_back(rt, disk, 0)?, 7);
    assert_eq!(rt; read_back(rt, disk, 1)?, 0);
    Ok(())
}

// The last byte of a block, read again if the first read meets the event.
fn read_back<D: Disk>(rt: &impl Abort, disk: &mut D, block: u16) -> Result<u8, Fail> {
    let mut place = [255; 512];
    if disk.read(block, &mut place).is_err() {
        bring_up(disk)?;
        assert_eq!(rt; number_of(disk.read(block, &mut place)), 0);
    }
    Ok(place[511])
}

// Each bottom disk of a pile of height 2, cut or killed at each of its first steps.
#[test]
fn pile_of_height_two(rt: HostRuntime) -> Result<(), Fail> {
    for verb in [0x40000000u32, 0x80000000, 0xC0000000] {
        for gap in 0..24 {
            let event: &[u32] = &[verb + gap];
            for [words0, words1, words2] in [
                [event, &[], &[]],
                [&[], event, &[]],
                [&[], &[], event],
            ] {
                let side0 = low(rt.alloc(), words0, words1)?;
                let side1 = buffered(rt.alloc(), 1024, words2)?;
                let mut pile: High = join(side0, side1)?;
                write_through(&rt, &mut pile)?;
            }
        }
    }
    Ok(())
}

#[test]
fn one_side_dead_at_the_making(rt: HostRuntime) -> Result<(), Fail> {
    let mut dead = plain(rt.alloc(), 512, &[0xC0000000])?;
    play(&rt, &mut dead, &[(Call::Barrier, 0, 3)]);
    let mut pair = join(dead, buffered(rt.alloc(), 512, &[])?)?;
    let answer = pair.barrier();
    assert_eq!(rt; answer, Err(Refusal::Dark(Cause::unjoined())));
    check_told(&rt, rt.alloc(), answer, 2, "0 0 -")?;
    play(
        &rt,
        &mut pair,
        &[
            (Call::Restart, 0, 0),
            (Call::Write(0), 5, 0),
            (Call::Read(0), 5, 0),
        ],
    );
    Ok(())
}

#[test]
fn sizes_of_pairs(rt: HostRuntime) -> Result<(), Fail> {
    let mut none = join(plain(rt.alloc(), 511, &[])?, buffered(rt.alloc(), 0, &[])?)?;
    play(
        &rt,
        &mut none,
        &[
            (Call::Restart, 0, 0),
            (Call::Read(0), 0, 1),
            (Call::Write(0), 0, 1),
            (Call::Barrier, 0, 0),
        ],
    );
    let mut one = join(
        plain(rt.alloc(), 512, &[])?,
        buffered(rt.alloc(), 1023, &[])?,
    )?;
    assert_eq!(rt; one.size(), 1);
    play(
        &rt,
        &mut one,
        &[
            (Call::Restart, 0, 0),
            (Call::Write(0), 3, 0),
            (Call::Read(0), 3, 0),
            (Call::Read(1), 0, 1),
        ],
    );
    match Pair::new(
        plain(rt.alloc(), 512, &[])?,
        buffered(rt.alloc(), 1024, &[])?,
    ) {
        Ok(_) => Err(Fail::new("a pair of unequal sizes")),
        Err(unpaired) => {
            assert_eq!(rt; unpaired.refusal.number(), 4);
            assert_eq!(rt; unpaired.side0.size(), 1);
            assert_eq!(rt; unpaired.side1.size(), 2);
            Ok(())
        }
    }
}
