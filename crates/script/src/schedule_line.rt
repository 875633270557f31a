// A line of a schedule: its words, with one space between.
ghost use Rattle.std.specs.Prelude.{◌≡◌, ◌<◌, ◌≤◌, [], length, IfOk, vec_items, vec_len, vec_capacity};
ghost use Rattle.std.specs.Option.{option_map};
ghost use Rattle.script.specs.Words.{SchedulesApart, LineSays};

use crate::word::split_word;
use std::alloc::{AllocError, Global};

pub const WORDS_AT_MOST: usize = 64;

// The words of the line; none if the line is of no such form. Only the making of the list can find no memory.
#[tactic(auto, using(crate::proofs::Scheduling::schedules_apart))]
pub fn parse_schedule(heap: Global, line: &[u8]) -> Result<Option<Vec<u32>>, AllocError>
    ensures words { IfOk result (λ o. LineSays line.now (option_map vec_items o)) }
    ensures law { SchedulesApart }
{
    let words = Vec::with_capacity(heap, WORDS_AT_MOST)?;
    if line.is_empty() {
        return Ok(Some(words));
    }
    Ok(read_words(words, line))
}

#[tactic(auto, using(crate::proofs::Scheduling::no_more))]
fn read_words(mut words: Vec<u32>, line: &[u8]) -> Option<Vec<u32>>
    requires items { words.items ≡ [] }
    requires len { vec_len words ≡ 0 }
    requires room { 64 ≤ vec_capacity words }
    requires begins { 0 < length line.now }
    ensures { LineSays line.now (option_map vec_items result) }
{
    let mut rest = line;
    for _ in 0..WORDS_AT_MOST {
        let (word, after) = split_word(rest)?;
        words.push_reserved(word);
        if after.is_empty() {
            return Some(words);
        }
        rest = after.strip_prefix(b" ")?;
    }
    None
}
