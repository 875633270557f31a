// The input of diskrun: the disk's name, its schedule, and then one call a line.
ghost use Rattle.std.specs.Prelude.{◌≡◌, IfOk, string_bytes};
ghost use Rattle.bench_disks.specs.Calls.{new_bench};
ghost use Rattle.script.specs.Pieces.{lines};
ghost use Rattle.benchrun.specs.Output.{unknown as unknown_text, zeros as all_zeros, first_line, other_lines, RunsNew, RunsNewPair, Scheduled, ScheduledPair, Named, Prints};

use crate::kind::Kind;
use crate::stands::{BLOCKS, finish};
use bench::schedule::Schedule;
use bench_disks::buffered::Buffered;
use bench_disks::plain::Plain;
use disks::block::BLOCK_BYTES;
use drive::run::{Transcript, run};
use pair::pair::Pair;
use script::line::split_line;
use script::schedule_line::parse_schedule;
use std::alloc::{AllocError, Global};

pub const INPUT_AT_MOST: usize = 16384;

// What the program prints for an input.
pub fn run_input(heap: Global, input: &[u8]) -> Result<String, AllocError>
    ensures { IfOk result (λ s. Prints input.now (string_bytes s)) }
{
    if input.len() > INPUT_AT_MOST {
        return unknown(heap);
    }
    let (name, rest) = first_of(input);
    run_named(heap, name, rest)
}

fn unknown(heap: Global) -> Result<String, AllocError>
    ensures { IfOk result (λ s. string_bytes s ≡ unknown_text) }
{
    String::from_str(heap, "?\n")
}

// The first line and what follows it; both are empty if there is no line.
fn first_of(input: &[u8]) -> (&[u8], &[u8])
    ensures line { result.0.now ≡ first_line (lines input.now) }
    ensures rest { lines result.1.now ≡ other_lines (lines input.now) }
{
    split_line(input).unwrap_or((&[], &[]))
}

fn run_named(heap: Global, name: &[u8], rest: &[u8]) -> Result<String, AllocError>
    ensures { IfOk result (λ s. Named name.now (lines rest.now) (string_bytes s)) }
{
    match name {
        b"plain" => run_one::<Plain>(heap, rest),
        b"buffered" => run_one::<Buffered>(heap, rest),
        b"pair" => run_pair(heap, rest),
        _ => unknown(heap),
    }
}

fn run_one<D: Kind>(heap: Global, input: &[u8]) -> Result<String, AllocError>
    ensures { IfOk result (λ s. Scheduled D.effect (lines input.now) (string_bytes s)) }
{
    let (line, calls) = first_of(input);
    match parse_schedule(heap, line)? {
        Some(words) => run_on_one::<D>(heap, words, calls),
        None => unknown(heap),
    }
}

fn run_pair(heap: Global, input: &[u8]) -> Result<String, AllocError>
    ensures { IfOk result (λ s. ScheduledPair (lines input.now) (string_bytes s)) }
{
    let (line0, rest) = first_of(input);
    let (line1, calls) = first_of(rest);
    let side0 = parse_schedule(heap, line0)?;
    let side1 = parse_schedule(heap, line1)?;
    match (side0, side1) {
        (Some(words0), Some(words1)) => run_on_pair(heap, words0, words1, calls),
        _ => unknown(heap),
    }
}

fn run_on_one<D: Kind>(heap: Global, words: Vec<u32>, calls: &[u8]) -> Result<String, AllocError>
    ensures { IfOk result (λ s. RunsNew D.effect words.items (lines calls.now) (string_bytes s)) }
{
    let mut disk: D = new_disk(heap, words)?;
    let transcript = run(heap, &mut disk, calls)?;
    let memory = disk.into_memory();
    finish(heap, transcript, &memory)
}

// A pair gives its sides back to nobody, so that no line tells what stands.
fn run_on_pair(
    heap: Global,
    words0: Vec<u32>,
    words1: Vec<u32>,
    calls: &[u8],
) -> Result<String, AllocError>
    ensures { IfOk result (λ s. RunsNewPair words0.items words1.items (lines calls.now) (string_bytes s)) }
{
    let side0: Plain = new_disk(heap, words0)?;
    let side1: Buffered = new_disk(heap, words1)?;
    let Ok(mut pair) = Pair::new(side0, side1) else {
        unreachable!()
    };
    let Transcript { text, whole: _ } = run(heap, &mut pair, calls)?;
    Ok(text)
}

// A disk of zeros, with these words for a schedule.
fn new_disk<D: Kind>(heap: Global, words: Vec<u32>) -> Result<D, AllocError>
    ensures { IfOk result (λ d. D.bench d ≡ new_bench words.items all_zeros) }
{
    D::make(heap, zeros(heap)?, Schedule::new(words))
}

// The memory of a new disk.
#[tactic(auto, unfolding(crate::specs::Output::zeros))]
fn zeros(heap: Global) -> Result<Vec<u8>, AllocError>
    ensures { IfOk result (λ v. v.items ≡ all_zeros) }
{
    Vec::from_elem(heap, 0u8, BLOCKS * BLOCK_BYTES)
}
