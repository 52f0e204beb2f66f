//! A source, a sink and a store in memory, which tell everything and fail at listed calls.
ghost use Rattle.std.specs.Prelude.{◌≡◌, ◌++◌, ◌<◌, [], length, take, drop, min, List, ℕ, OnOk, OnErr, IfOk, option_copied, MatchOption};
ghost use Rattle.std.specs.Str.{bytes_eq};
ghost use Rattle.outside_io.specs.Views.{Fed, Sunk, Kept};
ghost use Rattle.outside_io.specs.Causes.{HasCause, one_more};
ghost use Rattle.outside_io.specs.Moves.{Moves, Puts, is_failed_take, is_failed_put, is_memory_put};
ghost use Rattle.outside_io.specs.Names.{Gives, Sets, is_failed_get, is_failed_set, Changes};
ghost use Rattle.outside_io.specs.Memory.{PlanTold, SourceTold, SinkTold, StoreTold, Takes, PutsPiece, GetsName, SetsName, Holds, found, later, fails_next, source_fed, sink_sunk, store_kept, IsFirst};

use crate::{Bytes, Calls, Got, Memory, Put, SetAnswer, Sink, Source, Store, Took};
use std::alloc::Global;
use std::marker::Model;

/// Which of the calls of an object fail.
#[derive(Drop)]
struct Plan {
    fails: Calls,
    calls: u64,
}

impl Model for Plan {
    ghost use Rattle.outside_io.specs.Memory.{PlanTold};

    ghost Value = { PlanTold };

    ghost view = { λ p. record { fails = p.fails.items; calls = p.calls } };
}

impl Plan {
    fn new(fails: Calls) -> Plan
        ensures { result ≡ record { fails = fails.items; calls = 0 } }
    {
        Plan { fails, calls: 0 }
    }

    /// Counts one more call, and says whether it fails.
    fn fails(&mut self) -> bool
        ensures fails { result ≡ fails_next self.old }
        ensures later { self.new ≡ later self.old }
    {
        self.calls = self.calls.saturating_add(1);
        self.fails.contains(&self.calls)
    }
}

/// A source in memory.
#[derive(Drop)]
pub struct MemSource {
    bytes: Bytes,
    taken: usize,
    chunk: usize,
    plan: Plan,
    faults: u64,
}

impl Model for MemSource {
    ghost use Rattle.std.specs.Prelude.{◌<◌, ◌≤◌, drop, vec_len};
    ghost use Rattle.outside_io.specs.Memory.{SourceTold};

    ghost Value = { SourceTold };

    ghost view = { λ s. record { left = drop s.taken s.bytes.items; chunk = s.chunk; plan = s.plan; faults = s.faults } };

    ghost invariant = { λ s. (s.taken ≤ vec_len s.bytes) × (0 < s.chunk) };
}

impl MemSource {
    /// A source of `bytes`, of which each take moves at most `chunk`, and of whose calls those
    /// numbered in `fails`, from 1, fail.
    pub fn new(bytes: Bytes, chunk: usize, fails: Calls) -> MemSource
        requires { 0 < chunk }
        ensures { result ≡ record { left = bytes.items; chunk = chunk; plan = record { fails = fails.items; calls = 0 }; faults = 0 } }
    {
        MemSource {
            bytes,
            taken: 0,
            chunk,
            plan: Plan::new(fails),
            faults: 0,
        }
    }
}

impl Source for MemSource {
    ghost fed = { source_fed };

    fn take(&mut self, buf: &mut [u8]) -> Took
        requires { 0 < length buf.old }
        ensures moves { Moves (source_fed self.old) (source_fed self.new) result buf.new }
        ensures cause { HasCause self.old.faults self.new.faults (is_failed_take result) }
        ensures exact { Takes self.old self.new result buf.old buf.new }
    {
        if self.plan.fails() {
            self.faults = self.faults.saturating_add(1);
            return Took::Failed;
        }
        let (_, left) = self.bytes.split_at(self.taken);
        if left.is_empty() {
            return Took::End;
        }
        let count = copy_front(left, buf, self.chunk);
        self.taken += count;
        Took::Bytes(count)
    }
}

/// Copies the front of `from` to the front of `to`, as much as there is and fits, and at most `most`
/// bytes.
fn copy_front(from: &[u8], to: &mut [u8], most: usize) -> usize
    ensures count { result ≡ min most (min (length to.old) (length from.now)) }
    ensures copied { to.new ≡ take result from.now ++ drop result to.old }
    ensures front { take result to.new ≡ take result from.now }
{
    let count = most.min(to.len().min(from.len()));
    to[..count].copy_from_slice(&from[..count]);
    count
}

/// A sink in memory.
#[derive(Drop)]
pub struct MemSink {
    held: Bytes,
    chunk: usize,
    plan: Plan,
    faults: u64,
    wants: u64,
}

impl Model for MemSink {
    ghost use Rattle.std.specs.Prelude.{◌<◌};
    ghost use Rattle.outside_io.specs.Memory.{SinkTold};

    ghost Value = { SinkTold };

    ghost view = { λ s. record { held = s.held.items; chunk = s.chunk; plan = s.plan; faults = s.faults; wants = s.wants } };

    ghost invariant = { λ s. 0 < s.chunk };
}

impl MemSink {
    /// An empty sink, of which each put takes at most `chunk` bytes, and of whose calls those
    /// numbered in `fails`, from 1, fail.
    pub fn new(alloc: Global, chunk: usize, fails: Calls) -> MemSink
        requires { 0 < chunk }
        ensures { result ≡ record { held = []; chunk = chunk; plan = record { fails = fails.items; calls = 0 }; faults = 0; wants = 0 } }
    {
        MemSink {
            held: Vec::new(alloc),
            chunk,
            plan: Plan::new(fails),
            faults: 0,
            wants: 0,
        }
    }

    /// The bytes held, in the order in which they were put.
    pub fn bytes(&self) -> &[u8]
        ensures { result.now ≡ self.now.held }
    {
        self.held.as_slice()
    }
}

impl Sink for MemSink {
    ghost sunk = { sink_sunk };

    fn put(&mut self, piece: &[u8]) -> Put
        ensures puts { Puts (sink_sunk self.old) (sink_sunk self.new) result piece.now }
        ensures cause { HasCause self.old.faults self.new.faults (is_failed_put result) }
        ensures memory { HasCause self.old.wants self.new.wants (is_memory_put result) }
        ensures exact { PutsPiece self.old self.new result piece.now }
    {
        if self.plan.fails() {
            self.faults = self.faults.saturating_add(1);
            return Put::Failed;
        }
        let count = self.chunk.min(piece.len());
        match self.held.extend_from_slice(&piece[..count]) {
            Ok(()) => Put::Bytes(count),
            Err(_) => {
                self.wants = self.wants.saturating_add(1);
                Put::Memory
            }
        }
    }
}

/// Some bytes under a name.
#[derive(Drop)]
struct Entry {
    name: String,
    bytes: Bytes,
}

impl Model for Entry {
    ghost use Rattle.std.specs.Prelude.{ℕ, List, string_bytes};

    ghost Value = { List ℕ × List ℕ };

    ghost view = { λ e. (string_bytes e.name, e.bytes.items) };
}

impl Entry {
    fn new(alloc: Global, name: &str, bytes: Bytes) -> Result<Entry, Memory>
        ensures { IfOk result (λ e. e ≡ (name.now, bytes.items)) }
    {
        Ok(Entry {
            name: String::from_str(alloc, name)?,
            bytes,
        })
    }

    fn is_named(&self, name: &str) -> bool
        ensures { result ≡ bytes_eq name.now self.now.0 }
    {
        name == self.name.as_str()
    }

    fn bytes(&self) -> &[u8]
        ensures { result.now ≡ self.now.1 }
    {
        self.bytes.as_slice()
    }

    fn hold(&mut self, bytes: Bytes)
        ensures { self.new ≡ (self.old.0, bytes.items) }
    {
        self.bytes = bytes;
    }
}

/// Where the first entry under `name` stands.
fn place(entries: &[Entry], name: &str) -> Option<usize>
    ensures { MatchOption result (found entries.now name.now ≡ None) (λ index. IsFirst entries.now name.now index) }
{
    for (index, entry) in entries.iter().enumerate() {
        if entry.is_named(name) {
            return Some(index);
        }
    }
    None
}

/// Makes `name` hold `bytes`: in its first entry, where there is one, else in a new one.
fn hold(alloc: Global, entries: &mut Vec<Entry>, name: &str, bytes: Bytes) -> Result<(), Memory>
    ensures held { OnOk result (Changes (found entries.old.items) (found entries.new.items) name.now (λ held. held ≡ Some bytes.items)) }
    ensures err { OnErr result (entries.new.items ≡ entries.old.items) }
{
    match place(entries, name) {
        Some(index) => {
            let entry = &mut entries[index];
            entry.hold(bytes);
            Ok(())
        }
        None => {
            let entry = Entry::new(alloc, name, bytes)?;
            entries.push(entry)?;
            Ok(())
        }
    }
}

/// A store in memory.
#[derive(Drop)]
pub struct MemStore {
    entries: Vec<Entry>,
    plan: Plan,
    gets: u64,
    sets: u64,
}

impl Model for MemStore {
    ghost use Rattle.outside_io.specs.Memory.{StoreTold};

    ghost Value = { StoreTold };

    ghost view = { λ s. record { entries = s.entries.items; plan = s.plan; gets = s.gets; sets = s.sets } };
}

impl MemStore {
    /// An empty store, of whose calls, gets and sets together, those numbered in `fails`, from 1,
    /// fail.
    pub fn new(alloc: Global, fails: Calls) -> MemStore
        ensures { result ≡ record { entries = []; plan = record { fails = fails.items; calls = 0 }; gets = 0; sets = 0 } }
    {
        MemStore {
            entries: Vec::new(alloc),
            plan: Plan::new(fails),
            gets: 0,
            sets: 0,
        }
    }

    /// Makes `name` hold `bytes`, apart from the calls that are counted. After an error nothing has
    /// changed.
    pub fn add(&mut self, name: &str, bytes: &[u8]) -> Result<(), Memory>
        ensures added { OnOk result (Holds self.old self.new name.now bytes.now × (self.new.plan ≡ self.old.plan)) }
        ensures err { OnErr result (self.new ≡ self.old) }
    {
        let alloc = *self.entries.allocator();
        match Vec::from_slice(alloc, bytes) {
            Ok(bytes) => hold(alloc, &mut self.entries, name, bytes),
            Err(_) => Err(Memory),
        }
    }

    /// What `name` holds; None exactly where the name isn't there.
    pub fn look(&self, name: &str) -> Option<&[u8]>
        ensures { option_copied result ≡ found self.now.entries name.now }
    {
        match place(&self.entries, name) {
            Some(index) => Some(self.entries[index].bytes()),
            None => None,
        }
    }
}

impl Store for MemStore {
    ghost kept = { store_kept };

    fn get(&mut self, name: &str, limit: usize) -> Got
        ensures gives { Gives (store_kept self.old).names result name.now limit }
        ensures names { (store_kept self.new).names ≡ (store_kept self.old).names }
        ensures cause { HasCause self.old.gets self.new.gets (is_failed_get result) }
        ensures sets { self.new.sets ≡ self.old.sets }
        ensures exact { GetsName self.old self.new result name.now limit }
    {
        if self.plan.fails() {
            self.gets = self.gets.saturating_add(1);
            return Got::Failed;
        }
        let Some(bytes) = self.look(name) else {
            return Got::Absent;
        };
        let front = &bytes[..limit.min(bytes.len())];
        match Vec::from_slice(*self.entries.allocator(), front) {
            Ok(bytes) => Got::Bytes(bytes),
            Err(_) => Got::Memory,
        }
    }

    fn set(&mut self, name: &str, bytes: &[u8]) -> SetAnswer
        ensures sets { Sets (store_kept self.old).names (store_kept self.new).names result name.now bytes.now }
        ensures cause { HasCause self.old.sets self.new.sets (is_failed_set result) }
        ensures gets { self.new.gets ≡ self.old.gets }
        ensures exact { SetsName self.old self.new result name.now bytes.now }
    {
        if self.plan.fails() {
            self.sets = self.sets.saturating_add(1);
            return SetAnswer::Failed;
        }
        match self.add(name, bytes) {
            Ok(()) => SetAnswer::Set,
            Err(Memory) => SetAnswer::Memory,
        }
    }
}
