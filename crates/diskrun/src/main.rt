// diskrun: makes the calls of a script, read from standard input, on a new bench disk.
#![tactic(auto)]

use benchrun::input::{INPUT_AT_MOST, run_input};
use std::alloc::AllocError;
use std::io::Read;
use std::process::ExitCode;
use thiserror::Error;

// Why there is no output: the line for standard error. It says nothing of the system's own reason, which only the system can word.
#[derive(Debug, Drop, Error)]
enum Failure {
    #[error("diskrun: standard input cannot be read")]
    Unreadable,
    #[error("diskrun: no memory")]
    NoMemory(#[from] AllocError),
    #[error("diskrun: cannot write to standard output")]
    Output,
}

// As in plandiff; a crate for these lines alone would be no plainer.
fn main(rt: HostRuntime) -> ExitCode {
    match run(&rt) {
        Ok(()) => ExitCode::SUCCESS,
        Err(failure) => {
            // The status says that it failed. What cannot be told on standard error cannot be told at all.
            let _ = rt.eprintln(failure);
            ExitCode::FAILURE
        }
    }
}

fn run(rt: &HostRuntime) -> Result<(), Failure> {
    let input = read_input(rt)?;
    let text = run_input(rt.alloc(), &input)?;
    rt.print(text).map_err(|_| Failure::Output)
}

// One byte past the longest input tells that there are too many.
fn read_input(rt: &HostRuntime) -> Result<Vec<u8>, Failure> {
    let mut input = Vec::new(rt.alloc());
    rt.stdin()
        .take(INPUT_AT_MOST as u64 + 1)
        .read_to_end(&mut input)
        .map_err(|_| Failure::Unreadable)?;
    Ok(input)
}
