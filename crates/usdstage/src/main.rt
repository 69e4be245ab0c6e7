//! Flattens a stage, `usdstage flatten ROOT`, or carries out the script of a session on it, `usdstage session ROOT`.
#![tactic(auto)]

mod output;
mod status;
mod tool;
mod words;

use io_edges::{FolderFiles, FreeGate, StdSink, StdSource};
use status::Status;
use std::alloc::AllocError;
use std::io::ErrorKind;
use std::process::ExitCode;
use std::{env, io};
use tool::run_tool;

/// The words behind the program's name; nothing where one of them is no text.
fn words_of(rt: &HostRuntime) -> Result<Option<Vec<String>>, AllocError> {
    let args = match env::args(rt) {
        Ok(args) => args,
        Err(e) => {
            return if e.kind() == ErrorKind::OutOfMemory {
                Err(AllocError)
            } else {
                Ok(None)
            };
        }
    };
    let mut words = Vec::new(rt.alloc());
    for word in args.skip(1) {
        words.push(word)?;
    }
    Ok(Some(words))
}

/// The run over the real files and streams.
fn run(rt: &HostRuntime) -> Result<Status, AllocError> {
    let Some(words) = words_of(rt)? else {
        return Ok(Status::Usage);
    };
    let mut files = FolderFiles::new(rt.clone()?);
    let mut script = StdSource::new(rt.stdin());
    let mut out = StdSink::new(io::writer(rt));
    Ok(run_tool(
        rt,
        rt.alloc(),
        &words,
        &mut files,
        &mut script,
        &mut out,
        &FreeGate,
    ))
}

fn main(rt: HostRuntime) -> ExitCode {
    let status = match run(&rt) {
        Ok(status) => status,
        Err(_) => Status::NoMemory,
    };
    let code = status.code();
    let line = status.line(rt.alloc());
    drop(status);
    match line {
        Ok(line) => {
            if !line.is_empty() {
                let _ = rt.eprintln(line);
            }
            ExitCode::from(code)
        }
        Err(_) => {
            // No memory is left for the line.
            let _ = rt.eprintln("usdstage: out of memory");
            ExitCode::from(Status::NoMemory.code())
        }
    }
}
