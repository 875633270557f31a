// Comparisons of small stores, and the text of every refusal.
use crate::sample::filled;
use compare::comparison::Comparison;
use compare::images::compare_images;
use compare::report::{report, stop_line, unreadable_line};
use compare::room::Room;
use compare::stop::{Side, Stop};
use disks::cause::{Call, Cause};
use disks::refusal::Refusal;
use disks::side::Side as PairSide;
use std::alloc::Global;
use std::test::Fail;
use store::look_refusal::LookRefusal;

// The header of a store whose plan has N addresses, with nothing in the log.
fn header(n: u8) -> [u8; 4] {
    [0xB1, 0x0C, 0x10, n.saturating_sub(1)]
}

fn compared(heap: Global, old: &[u8], new: &[u8]) -> Result<Comparison, Fail> {
    let answer = compare_images(Room::new(heap)?, old, new).ok();
    Ok(answer.ok_or("refused")?)
}

#[test]
fn differences_are_told(rt: HostRuntime) -> Result<(), Fail> {
    let heap = rt.alloc();
    let old = filled(heap, &header(3), 36 * 512)?;
    let mut new = filled(heap, &header(3), 36 * 512)?;
    let same = compared(heap, &old, &new)?;
    assert_eq!(rt; report(heap, &same)?.as_str(), "3 compared, 0 differ\n");
    assert!(rt; new.len() == 36 * 512);
    new[33 * 512 + 511] = 1;
    new[35 * 512 + 7] = 255;
    new[35 * 512 + 8] = 1;
    let changed = compared(heap, &old, &new)?;
    assert_eq!(rt;
        report(heap, &changed)?.as_str(),
        "0 511 0 1\n2 7 0 255\n3 compared, 2 differ\n"
    );
    Ok(())
}

#[test]
fn longer_plans_are_told(rt: HostRuntime) -> Result<(), Fail> {
    let heap = rt.alloc();
    let short = filled(heap, &header(3), 36 * 512)?;
    let long = filled(heap, &header(5), 38 * 512)?;
    let longer = compared(heap, &short, &long)?;
    assert_eq!(rt;
        report(heap, &longer)?.as_str(),
        "3-4 only in NEW\n3 compared, 0 differ\n"
    );
    let shorter = compared(heap, &long, &short)?;
    assert_eq!(rt;
        report(heap, &shorter)?.as_str(),
        "3-4 only in OLD\n3 compared, 0 differ\n"
    );
    Ok(())
}

// A cause with a call and a side, which the lines leave out.
fn cause() -> Cause {
    Cause::from(Call::Write(5)).under(PairSide::One.number())
}

// Each refusal of a look, and its line for the store that `a b` names.
fn refusals() -> [(LookRefusal, &'static str); 6] {
    [
        (
            LookRefusal::Disk(Refusal::PastEnd),
            "plandiff: a b: 1: block at or past the size",
        ),
        (
            LookRefusal::Disk(Refusal::Dark(cause())),
            "plandiff: a b: 2: disk dark",
        ),
        (
            LookRefusal::Disk(Refusal::Lost(cause())),
            "plandiff: a b: 3: lost: disk dead",
        ),
        (
            LookRefusal::UnfitSize,
            "plandiff: a b: 6: size below 34 or above 4,129 blocks",
        ),
        (
            LookRefusal::NoHeader,
            "plandiff: a b: 7: header not well formed or N not size - 33",
        ),
        (
            LookRefusal::PastPlan,
            "plandiff: a b: 12: address at or past N",
        ),
    ]
}

#[test]
fn refusals_are_told(rt: HostRuntime) -> Result<(), Fail> {
    for (refusal, line) in refusals() {
        let old = Stop {
            address: 0,
            side: Side::Old,
            refusal,
        };
        assert_eq!(rt; stop_line(rt.alloc(), "a b", "c", &old)?.as_str(), line);
        let new = Stop {
            address: 3,
            side: Side::New,
            refusal,
        };
        assert_eq!(rt; stop_line(rt.alloc(), "c", "a b", &new)?.as_str(), line);
    }
    let line = unreadable_line(rt.alloc(), "a b", "gone")?;
    assert_eq!(rt; line.as_str(), "plandiff: a b: cannot be read: gone");
    Ok(())
}

// Every address of the longest plans differs: none is left out, and there is room for all.
#[test]
fn longest_plans(rt: HostRuntime) -> Result<(), Fail> {
    let heap = rt.alloc();
    let old = filled(heap, &[0xB1, 0x0C, 0x1F, 0xFF], 4129 * 512)?;
    let mut new = filled(heap, &[0xB1, 0x0C, 0x1F, 0xFF], 33 * 512)?;
    new.resize(4129 * 512, 1)?;
    let all = compared(heap, &old, &new)?;
    assert_eq!(rt; all.compared, 4096);
    assert_eq!(rt; all.differences.len(), 4096);
    let text = report(heap, &all)?;
    assert!(rt; text.as_str().starts_with("0 0 0 1\n1 0 0 1\n"));
    assert!(rt;
        text.as_str()
            .ends_with("\n4095 0 0 1\n4096 compared, 4096 differ\n")
    );
    Ok(())
}
