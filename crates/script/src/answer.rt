// The line of a disk's answer.
ghost use Rattle.std.specs.Prelude.{◌≡◌, IfOk, string_bytes};
ghost use Rattle.disks.specs.Values.{answer_values, refusal_values};
ghost use Rattle.disks.specs.Meaning.{shown};
ghost use Rattle.script.specs.Answers.{refusal_line, read_line, call_line};

use disks::block::Block;
use disks::refusal::Refusal;
use std::alloc::{AllocError, Global};

// The line of a read; a done one tells the first byte of its place.
pub fn tell_read(
    heap: Global,
    answer: Result<(), Refusal>,
    place: &Block,
) -> Result<String, AllocError>
    ensures { IfOk result (λ s. string_bytes s ≡ read_line (shown answer place.now)) }
{
    match answer {
        Ok(()) => {
            // Not lent to `format!` in its place: then each read would copy its whole block for it.
            let first = place[0];
            format!(in heap; "0 {first}\n")
        }
        Err(refusal) => tell_refusal(heap, refusal),
    }
}

// The line of a write, a barrier or a restart. One function for both kinds would want the done part as a text of its own.
pub fn tell_call(heap: Global, answer: Result<(), Refusal>) -> Result<String, AllocError>
    ensures { IfOk result (λ s. string_bytes s ≡ call_line (answer_values answer)) }
{
    match answer {
        Ok(()) => String::from_str(heap, "0\n"),
        Err(refusal) => tell_refusal(heap, refusal),
    }
}

fn tell_refusal(heap: Global, refusal: Refusal) -> Result<String, AllocError>
    ensures { IfOk result (λ s. string_bytes s ≡ refusal_line (refusal_values refusal)) }
{
    match refusal {
        Refusal::PastEnd => String::from_str(heap, "1\n"),
        Refusal::Dark(cause) => format!(in heap; "2 {cause}\n"),
        Refusal::Lost(cause) => format!(in heap; "3 {cause}\n"),
    }
}
