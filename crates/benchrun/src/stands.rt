// The line that tells what stands in a memory.
ghost use Rattle.std.specs.Prelude.{◌≡◌, ◌++◌, IfOk, string_bytes};
ghost use Rattle.benchrun.specs.Output.{stands_line, ending};

use disks::block::BLOCK_BYTES;
use drive::run::Transcript;
use std::alloc::{AllocError, Global};

pub const BLOCKS: usize = 8;

// The first byte of each block; zero where the memory ends before it.
pub fn tell_standing(heap: Global, memory: &[u8]) -> Result<String, AllocError>
    ensures { IfOk result (λ s. string_bytes s ≡ stands_line memory.now) }
{
    let mut text = String::from_str(heap, "stands")?;
    for block in 0..BLOCKS {
        let first = memory.get(BLOCK_BYTES * block).copied().unwrap_or(0);
        write!(text, " {first}")?;
    }
    text.push_str("\n")?;
    Ok(text)
}

// Adds what stands to a run whose lines were all calls.
pub fn finish(heap: Global, transcript: Transcript, memory: &[u8]) -> Result<String, AllocError>
    ensures { IfOk result (λ s. string_bytes s ≡ string_bytes transcript.text ++ ending transcript.whole memory.now) }
{
    let Transcript { mut text, whole } = transcript;
    if whole {
        let line = tell_standing(heap, memory)?;
        text.push_str(line.as_str())?;
    }
    Ok(text)
}
