//! The program: the real streams and files, handed to the tool.
#![tactic(auto)]

use outside_io::{FileStore, Sink, StdSink, StdSource};
use pyc_cli::{Status, tool};
use std::alloc::Global;
use std::process::ExitCode;
use std::{env, io};

/// The words of the command line, without the program's own name.
fn command_words(rt: HostRuntime, alloc: Global) -> io::Result<Vec<String>> {
    let mut words = Vec::new(alloc);
    for word in env::args(&rt)?.skip(1) {
        words.push(word)?;
    }
    Ok(words)
}

/// The words of a command line that can't be had as text: none, which asks for nothing, unless memory was missing.
fn status_without_words(rt: HostRuntime, alloc: Global, error: &io::Error) -> Status {
    if error.kind() == io::ErrorKind::OutOfMemory {
        StdSink::err(rt).put(b"memory\n");
        return Status::Memory;
    }
    status_of(rt, alloc, &[])
}

/// Does what the words ask for.
fn status_of(rt: HostRuntime, alloc: Global, words: &[String]) -> Status {
    let mut files = FileStore::new(rt);
    let mut input = StdSource::new(rt);
    let mut out = StdSink::out(rt);
    let mut err = StdSink::err(rt);
    tool(alloc, words, &mut files, &mut input, &mut out, &mut err)
}

fn main(rt: HostRuntime) -> ExitCode {
    let alloc = rt.alloc();
    let status = match command_words(rt, alloc) {
        Ok(words) => status_of(rt, alloc, &words),
        Err(error) => status_without_words(rt, alloc, &error),
    };
    ExitCode::from(status as u8)
}
