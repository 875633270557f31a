// Calls made on any disk, one line each, with the text that they print.
ghost use Rattle.std.specs.Prelude.{◌≡◌, IfOk, string_bytes};
ghost use Rattle.script.specs.Pieces.{lines};
ghost use Rattle.drive.specs.Runs.{Makes, Runs};

use crate::call::{DiskCall, parse_call};
use disks::block::BLOCK_BYTES;
use disks::disk::Disk;
use script::answer::{tell_call, tell_read};
use script::line::split_line;
use std::alloc::{AllocError, Global};

// What a run printed, and whether each of its lines was a call. There is a text either way, so that no Option or Result holds it.
#[derive(Debug, Drop)]
pub struct Transcript {
    pub text: String,
    pub whole: bool,
}

// Makes the calls of the script in order, up to the first line that is of no such form.
#[tactic(auto, using(crate::proofs::Running::onward_more, crate::proofs::Running::onward_ends))]
pub fn run<D: Disk>(heap: Global, disk: &mut D, script: &[u8]) -> Result<Transcript, AllocError>
    ensures { IfOk result (λ o. Runs D.Reader D.Disk.own (lines script.now) disk.old (string_bytes o.text) o.whole disk.new) }
{
    let mut text = String::new(heap);
    let mut rest = script;
    while let Some((line, after)) = split_line(rest) {
        rest = after;
        let Some(call) = parse_call(line) else {
            text.push_str("?\n")?;
            return Ok(Transcript { text, whole: false });
        };
        let told = make_call(heap, disk, call)?;
        text.push_str(told.as_str())?;
    }
    Ok(Transcript { text, whole: true })
}

// Makes one call; its line.
pub fn make_call<D: Disk>(heap: Global, disk: &mut D, call: DiskCall) -> Result<String, AllocError>
    ensures { IfOk result (λ s. Makes D.Reader D.Disk.own call disk.old (string_bytes s) disk.new) }
{
    match call {
        DiskCall::Read(block) => {
            let mut place = [0u8; BLOCK_BYTES];
            let answer = disk.read(block, &mut place);
            tell_read(heap, answer, &place)
        }
        DiskCall::Write(block, byte) => {
            let content = [byte; BLOCK_BYTES];
            tell_call(heap, disk.write(block, &content))
        }
        DiskCall::Barrier => tell_call(heap, disk.barrier()),
        DiskCall::Restart => tell_call(heap, disk.restart()),
    }
}
