// Steps at the edges of a word's parts.
use super::{Schedule, Step, Verb};
use std::process::Abort;
use std::test::Fail;

// The next steps are `gap` empty ones, then this one.
fn check_word(rt: &impl Abort, schedule: &mut Schedule, step: Step, gap: u16) {
    for _ in 0..gap {
        assert_eq!(rt; schedule.next_step(), Step::EMPTY);
    }
    assert_eq!(rt; schedule.next_step(), step);
}

#[test]
fn no_words(rt: HostRuntime) {
    let mut schedule = Schedule::new(Vec::new(rt.alloc()));
    check_word(&rt, &mut schedule, Step::EMPTY, 2);
}

// One word after the other: each row is a word, and its verb, pick and gap.
#[test]
fn word_after_word(rt: HostRuntime) -> Result<(), Fail> {
    let rows: [(u32, Verb, u16, u16); 8] = [
        (0x00000000, Verb::Go, 0, 0),
        (0x40000000, Verb::CutBefore, 0, 0),
        (0x80004000, Verb::CutAfter, 1, 0),
        (0xc0000001, Verb::Kill, 0, 1),
        (0x3fffc000, Verb::Go, 65535, 0),
        (0x00003fff, Verb::Go, 0, 16383),
        (0xffffffff, Verb::Kill, 65535, 16383),
        (0x7fffc000, Verb::CutBefore, 65535, 0),
    ];
    let mut words = Vec::new(rt.alloc());
    for (word, _, _, _) in rows {
        words.push(word)?;
    }
    let mut schedule = Schedule::new(words);
    for (_, verb, pick, gap) in rows {
        check_word(&rt, &mut schedule, Step { verb, pick }, gap);
    }
    check_word(&rt, &mut schedule, Step::EMPTY, 2);
    Ok(())
}
