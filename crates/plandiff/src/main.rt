// plandiff OLD NEW: compares the plans of two stores that stand in files.
#![tactic(auto)]

use compare::images::compare_images;
use compare::report::{report, stop_line, unreadable_line};
use compare::room::Room;
use std::alloc::AllocError;
use std::process::ExitCode;
use std::{env, fs, io};
use thiserror::Error;

// Why there is no comparison: the line for standard error. A file's name may be longer than what an anyhow::Error keeps.
#[derive(Debug, Drop, Error)]
enum Failure {
    #[error("plandiff: usage: plandiff OLD NEW")]
    Usage,
    #[error("plandiff: arguments cannot be read: {0}")]
    Arguments(io::Error),
    #[error("{0}")]
    File(String),
    #[error("plandiff: no memory")]
    NoMemory(#[from] AllocError),
    #[error("plandiff: cannot write to standard output")]
    Output,
}

// As in diskrun; a crate for these lines alone would be no plainer.
fn main(rt: HostRuntime) -> ExitCode {
    match run(&rt) {
        Ok(()) => ExitCode::SUCCESS,
        Err(failure) => {
            // The status says that it failed. What cannot be told on standard error cannot be told at all.
            let _ = rt.eprintln(failure);
            ExitCode::FAILURE
        }
    }
}

fn run(rt: &HostRuntime) -> Result<(), Failure> {
    let heap = rt.alloc();
    let room = Room::new(heap)?;
    let (old_file, new_file) = file_names(rt)?;
    let old = read_file(rt, old_file.as_str())?;
    let new = read_file(rt, new_file.as_str())?;
    let comparison = compare_images(room, &old, &new).try_map_err(|stop| {
        let line = stop_line(heap, old_file.as_str(), new_file.as_str(), &stop)?;
        Ok(Failure::File(line))
    })?;
    let text = report(heap, &comparison)?;
    rt.print(text).map_err(|_| Failure::Output)
}

fn file_names(rt: &HostRuntime) -> Result<(String, String), Failure> {
    let mut args = env::args(rt).map_err(Failure::Arguments)?.skip(1);
    match (args.next(), args.next(), args.next()) {
        (Some(old), Some(new), None) => Ok((old, new)),
        _ => Err(Failure::Usage),
    }
}

fn read_file(rt: &HostRuntime, file: &str) -> Result<Vec<u8>, Failure> {
    fs::read(rt, file).try_map_err(|e| {
        let reason = format!(in rt.alloc(); "{e}")?;
        let line = unreadable_line(rt.alloc(), file, reason.as_str())?;
        Ok(Failure::File(line))
    })
}
