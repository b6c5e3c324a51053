//! wedge: runs a program that is split into compartments, each with the rights that it was given alone.
#![tactic(auto)]

use host_io::{NoPace, RealErr, RealFiles, RealOut};
use std::io::ErrorKind;
use std::process::ExitCode;
use std::{env, io, mem};
use wedge_cli::{out_of_memory, wedge};

/// Does what the words ask, with the files and the streams of the process.
fn main(rt: HostRuntime) -> ExitCode {
    let mut files = RealFiles::new(&rt, rt.alloc());
    let mut out = RealOut::new(rt.stdout());
    let mut err = RealErr::new(rt.stderr());
    let words = match words(&rt) {
        Ok(words) => words,
        // Words of which one is no UTF-8 are no command.
        Err(error) if error.kind() == ErrorKind::InvalidData => Vec::new(rt.alloc()),
        Err(_) => return ExitCode::from(out_of_memory(&mut err).status),
    };
    let ended = wedge(
        &rt,
        rt.alloc(),
        words.as_slice(),
        &mut files,
        &mut out,
        &mut err,
        &NoPace,
    );
    let status = ended.status;
    // The process ends here, so what its threads logged is not released entry by entry.
    mem::forget(ended);
    ExitCode::from(status)
}

/// The words of the command line after the program's name.
fn words(rt: &HostRuntime) -> io::Result<Vec<String>> {
    let mut words = Vec::new(rt.alloc());
    for word in env::args(rt)?.skip(1) {
        words.push(word)?;
    }
    Ok(words)
}
