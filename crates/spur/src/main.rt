//! The program `spur`: replays a script of heap commands on an image.
//!
//! It hands the words of the command line, the files of the system and standard output to the top call of `replay`, and ends with its
//! status. What that call promises is proved; what a real file or standard output holds is the trusted edge.
#![tactic(auto)]

use replay::{Session, Status, run};
use spur_io::{RealFiles, RealOut};
use std::alloc::AllocError;
use std::process::ExitCode;
use std::{env, io};

#[cfg(test)]
mod tests;

/// The exit status of a run.
fn code(status: Status) -> u8 {
    match status {
        Status::Done => 0,
        Status::Usage => 2,
        Status::Refused => 3,
        Status::ReadFault => 4,
        Status::WriteFault => 5,
        Status::Memory => 6,
        Status::TooLong => 7,
    }
}

/// The words of the command line without the program's name. Where one of them is no UTF-8 there are none, which is a faulty command
/// line too.
fn words_of(rt: &HostRuntime) -> Result<Vec<String>, AllocError> {
    let mut words = Vec::new(rt.alloc());
    match env::args(rt) {
        Ok(args) => {
            for word in args.skip(1) {
                words.push(word)?;
            }
        }
        Err(error) => {
            if error.kind() == io::ErrorKind::OutOfMemory {
                return Err(AllocError);
            }
        }
    }
    Ok(words)
}

/// Runs the command line. What is left of the output is handed on before the program ends, and a failure there is a write fault too.
fn replayed(rt: &HostRuntime) -> Status {
    let alloc = rt.alloc();
    let Ok(words) = words_of(rt) else {
        return Status::Memory;
    };
    let Ok(system) = rt.clone() else {
        return Status::Memory;
    };
    let Ok(mut out) = RealOut::new(alloc, io::writer(rt)) else {
        return Status::Memory;
    };
    let mut files = RealFiles::new(alloc, system);
    let mut kept: Option<Session> = None;
    let status = run(alloc, &words, &mut files, &mut out, &mut kept);
    match out.finish() {
        Ok(()) => status,
        Err(_) => Status::WriteFault,
    }
}

fn main(rt: HostRuntime) -> ExitCode {
    ExitCode::from(code(replayed(&rt)))
}
