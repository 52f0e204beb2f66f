//! Adapters to the standard streams and to files. They count their faults, and tell nothing of what
//! they move: what lies behind them is the system's.
ghost use Rattle.std.specs.Prelude.{◌≡◌, ◌≤◌, length, None, IfOk};
ghost use Rattle.std.specs.Io.{ReadsAtMost, WritesAtMost};
ghost use Rattle.outside_io.specs.Views.{Fed, Sunk, Kept};

use crate::{Bytes, Got, Put, SetAnswer, Sink, Source, Store, Took};
use std::alloc::Global;
use std::fs::File;
use std::io::{self, ErrorKind, Read, Write};
use std::rt::{Stderr, Stdin, Stdout};

/// Reads once, and again where a signal interrupted it.
fn read_on<R: Read>(reader: &mut R, buf: &mut [u8]) -> io::Result<usize>
    ensures { ReadsAtMost result buf.new }
{
    for _ in 0..u64::MAX {
        match reader.read(buf) {
            Err(error) if error.kind() == ErrorKind::Interrupted => {}
            answer => return answer,
        }
    }
    Err(io::Error::from(ErrorKind::Interrupted))
}

/// Writes once, and again where a signal interrupted it.
fn write_on<W: Write>(writer: &mut W, piece: &[u8]) -> io::Result<usize>
    ensures { WritesAtMost result piece.now }
{
    for _ in 0..u64::MAX {
        match writer.write(piece) {
            Err(error) if error.kind() == ErrorKind::Interrupted => {}
            answer => return answer,
        }
    }
    Err(io::Error::from(ErrorKind::Interrupted))
}

/// Writes `piece` from the front on, up to the first fault, and says how many bytes were written.
fn write_front<W: Write>(writer: &mut W, piece: &[u8]) -> usize
    ensures { result ≤ length piece.now }
{
    let mut written = 0;
    while written < piece.len() {
        match write_on(writer, &piece[written..]) {
            Ok(0) | Err(_) => break,
            Ok(count) => written += count,
        }
    }
    written
}

/// The first `limit` bytes that `file` gives, or `Failed` or `Memory`.
fn read_front(alloc: Global, file: File, limit: usize) -> Got {
    let mut bytes: Bytes = Vec::new(alloc);
    match file.take(limit as u64).read_to_end(&mut bytes) {
        Ok(_) => Got::Bytes(bytes),
        Err(error) if error.kind() == ErrorKind::OutOfMemory => Got::Memory,
        Err(_) => Got::Failed,
    }
}

/// Standard input.
#[derive(Drop)]
pub struct StdSource {
    stream: Stdin,
    faults: u64,
}

impl StdSource {
    /// The standard input of this process.
    pub fn new(rt: HostRuntime) -> StdSource {
        StdSource {
            stream: rt.stdin(),
            faults: 0,
        }
    }
}

impl Source for StdSource {
    ghost fed = { λ s. record { left = None; faults = s.faults } };

    fn take(&mut self, buf: &mut [u8]) -> Took {
        match read_on(&mut self.stream, buf) {
            Ok(0) => Took::End,
            Ok(count) => Took::Bytes(count),
            Err(_) => {
                self.faults = self.faults.saturating_add(1);
                Took::Failed
            }
        }
    }
}

/// One of the two outputs of a process.
#[derive(Drop)]
enum Stream {
    Out(Stdout),
    Err(Stderr),
}

impl Stream {
    fn write_front(&mut self, piece: &[u8]) -> usize
        ensures { result ≤ length piece.now }
    {
        match self {
            Stream::Out(out) => write_front(out, piece),
            Stream::Err(err) => write_front(err, piece),
        }
    }
}

/// Standard output, or standard error.
#[derive(Drop)]
pub struct StdSink {
    stream: Stream,
    faults: u64,
}

impl StdSink {
    /// The standard output of this process.
    pub fn out(rt: HostRuntime) -> StdSink {
        StdSink {
            stream: Stream::Out(rt.stdout()),
            faults: 0,
        }
    }

    /// The standard error of this process.
    pub fn err(rt: HostRuntime) -> StdSink {
        StdSink {
            stream: Stream::Err(rt.stderr()),
            faults: 0,
        }
    }
}

impl Sink for StdSink {
    ghost sunk = { λ s. record { held = None; faults = s.faults; wants = 0 } };

    fn put(&mut self, piece: &[u8]) -> Put {
        let written = self.stream.write_front(piece);
        if written == 0 && !piece.is_empty() {
            self.faults = self.faults.saturating_add(1);
            return Put::Failed;
        }
        Put::Bytes(written)
    }
}

/// The files of the system, by their paths.
#[derive(Drop)]
pub struct FileStore {
    rt: HostRuntime,
    gets: u64,
    sets: u64,
}

impl FileStore {
    /// The files that this process can reach.
    pub fn new(rt: HostRuntime) -> FileStore {
        FileStore {
            rt,
            gets: 0,
            sets: 0,
        }
    }

    fn fetched(&self, name: &str, limit: usize) -> Got {
        match File::open(&self.rt, name) {
            Ok(file) => read_front(self.rt.alloc(), file, limit),
            Err(error) if error.kind() == ErrorKind::NotFound => Got::Absent,
            Err(_) => Got::Failed,
        }
    }

    fn stored(&self, name: &str, bytes: &[u8]) -> io::Result<()> {
        File::create(&self.rt, name)?.write_all(bytes)
    }
}

impl Store for FileStore {
    ghost kept = { λ s. record { names = None; gets = s.gets; sets = s.sets } };

    fn get(&mut self, name: &str, limit: usize) -> Got {
        match self.fetched(name, limit) {
            Got::Failed => {
                self.gets = self.gets.saturating_add(1);
                Got::Failed
            }
            got => got,
        }
    }

    fn set(&mut self, name: &str, bytes: &[u8]) -> SetAnswer {
        match self.stored(name, bytes) {
            Ok(()) => SetAnswer::Set,
            Err(_) => {
                self.sets = self.sets.saturating_add(1);
                SetAnswer::Failed
            }
        }
    }
}
