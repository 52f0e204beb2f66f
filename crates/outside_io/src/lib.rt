//! The outside of the compiler: a source of bytes, a sink of bytes and a store of named bytes, as
//! traits whose contracts say what moves and why a call fails; objects in memory that tell all of
//! it; and the adapters to the standard streams and to files, which tell nothing of content.
#![tactic(auto)]

ghost use Rattle.std.specs.Prelude.{◌≡◌, ◌<◌, length};
ghost use Rattle.outside_io.specs.Views.{Fed, Sunk, Kept};
ghost use Rattle.outside_io.specs.Causes.{HasCause};
ghost use Rattle.outside_io.specs.Moves.{Moves, Puts, is_failed_take, is_failed_put, is_memory_put};
ghost use Rattle.outside_io.specs.Names.{Gives, Sets, is_failed_get, is_failed_set};

mod adapters;
mod in_memory;
#[cfg(test)]
mod tests;

pub use adapters::{FileStore, StdSink, StdSource};
pub use in_memory::{MemSink, MemSource, MemStore};
use std::alloc::{AllocError, AllocFailed};

/// Some bytes.
pub type Bytes = Vec<u8>;

/// The numbers of some calls, counted from 1.
pub type Calls = Vec<u64>;

/// Want of memory: a call could not get what it needed to keep its answer.
#[derive(Clone, Copy, PartialEq, Eq, Debug, Drop)]
pub struct Memory;

impl From<AllocError> for Memory {
    fn from(_: AllocError) -> Memory {
        Memory
    }
}

impl<T: Drop> From<AllocFailed<T>> for Memory {
    fn from(_: AllocFailed<T>) -> Memory {
        Memory
    }
}

/// What a take of a source came to.
#[derive(Clone, Copy, PartialEq, Eq, Debug, Drop)]
pub enum Took {
    /// This many bytes were moved to the front of the buffer, at least 1.
    Bytes(usize),
    /// No byte is left.
    End,
    /// The source failed, and gave nothing.
    Failed,
}

/// What a put into a sink came to.
#[derive(Clone, Copy, PartialEq, Eq, Debug, Drop)]
pub enum Put {
    /// This many bytes of the piece's front were appended, at least 1 unless the piece is empty.
    Bytes(usize),
    /// The sink failed, and took nothing.
    Failed,
    /// The sink had no memory, and took nothing.
    Memory,
}

/// What a get of a name came to.
#[derive(Debug, Drop)]
pub enum Got {
    /// The first bytes of what the name holds, as many as were asked for at most.
    Bytes(Bytes),
    /// The name isn't there.
    Absent,
    /// The store failed.
    Failed,
    /// There was no memory for the bytes.
    Memory,
}

/// What a set of a name came to.
#[derive(Clone, Copy, PartialEq, Eq, Debug, Drop)]
pub enum SetAnswer {
    /// The name holds the bytes.
    Set,
    /// The store failed, and the name holds anything.
    Failed,
    /// There was no memory, and the name holds what it held.
    Memory,
}

/// Where bytes come from, in order.
pub trait Source {
    /// The bytes left, where the source tells them, and how often it has failed.
    ghost fed: { Self → Fed };

    /// Moves bytes from the front of what is left to the front of `buf`, which isn't empty.
    ///
    /// `Bytes(n)` has n from 1 to the buffer's length, and `End` comes only where no byte is left.
    /// `Failed` comes only where the count of faults rose in this call or stands at 2^64 - 1. After
    /// `End` and `Failed` the bytes left are as before.
    fn take(&mut self, buf: &mut [u8]) -> Took
        requires { 0 < length buf.old }
        ensures moves { Moves (fed self.old) (fed self.new) result buf.new }
        ensures cause { HasCause (fed self.old).faults (fed self.new).faults (is_failed_take result) };
}

/// Where bytes go, in order.
pub trait Sink {
    /// The bytes held, where the sink tells them, how often it has failed, and how often it had no
    /// memory.
    ghost sunk: { Self → Sunk };

    /// Appends a front of `piece`, at least one byte of it unless it is empty.
    ///
    /// `Failed` and `Memory` append nothing. `Failed` comes only where the count of faults rose in
    /// this call or stands at 2^64 - 1, and `Memory` only where the count of wants did.
    fn put(&mut self, piece: &[u8]) -> Put
        ensures puts { Puts (sunk self.old) (sunk self.new) result piece.now }
        ensures cause { HasCause (sunk self.old).faults (sunk self.new).faults (is_failed_put result) }
        ensures memory { HasCause (sunk self.old).wants (sunk self.new).wants (is_memory_put result) };
}

/// Bytes under names.
pub trait Store {
    /// What each name holds, where the store tells it, and how often a get and a set have failed.
    ghost kept: { Self → Kept };

    /// The first `limit` bytes of what `name` holds. No name changes.
    ///
    /// `Bytes` comes only where the name is there, and `Absent` only where it isn't. `Failed` comes
    /// only where the count of failed gets rose in this call or stands at 2^64 - 1.
    fn get(&mut self, name: &str, limit: usize) -> Got
        ensures gives { Gives (kept self.old).names result name.now limit }
        ensures names { (kept self.new).names ≡ (kept self.old).names }
        ensures cause { HasCause (kept self.old).gets (kept self.new).gets (is_failed_get result) }
        ensures sets { (kept self.new).sets ≡ (kept self.old).sets };

    /// Makes `name` hold `bytes`. Other names keep what they hold.
    ///
    /// After `Failed` the name holds anything, and after `Memory` what it held. `Failed` comes only
    /// where the count of failed sets rose in this call or stands at 2^64 - 1.
    fn set(&mut self, name: &str, bytes: &[u8]) -> SetAnswer
        ensures sets { Sets (kept self.old).names (kept self.new).names result name.now bytes.now }
        ensures cause { HasCause (kept self.old).sets (kept self.new).sets (is_failed_set result) }
        ensures gets { (kept self.new).gets ≡ (kept self.old).gets };
}
