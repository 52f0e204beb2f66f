//! A call of the tool, over objects in memory.
use outside_io::{Calls, MemSink, MemSource, MemStore};
use pyc_cli::{Status, tool};
use std::alloc::Global;
use std::test::Fail;

/// A call of the tool, and what it left.
#[derive(Drop)]
pub struct Leaves {
    pub status: Status,
    pub files: MemStore,
    pub input: MemSource,
    pub out: MemSink,
    pub err: MemSink,
}

/// The numbers of the calls of an object that fail: none, or one of them.
fn failing(alloc: Global, number: u64) -> Result<Calls, Fail> {
    let mut calls = Vec::new(alloc);
    if number > 0 {
        calls.push(number)?;
    }
    Ok(calls)
}

/// Calls the tool with these words, where the store holds this source at `in`, and this call of each object fails.
pub fn call(
    alloc: Global,
    words: &[&str],
    source: &[u8],
    input: &[u8],
    fails: [u64; 4],
) -> Result<Leaves, Fail> {
    let [file_call, input_call, out_call, err_call] = fails;
    let mut texts = Vec::new(alloc);
    for word in words {
        texts.push(String::from_str(alloc, word)?)?;
    }
    let mut files = MemStore::new(alloc, failing(alloc, file_call)?);
    files.add("in", source)?;
    let mut input = MemSource::new(input.to_vec(alloc)?, 4096, failing(alloc, input_call)?);
    let mut out = MemSink::new(alloc, 2, failing(alloc, out_call)?);
    let mut err = MemSink::new(alloc, 3, failing(alloc, err_call)?);
    let status = tool(alloc, &texts, &mut files, &mut input, &mut out, &mut err);
    Ok(Leaves {
        status,
        files,
        input,
        out,
        err,
    })
}

/// The words of a run.
pub const RUN: [&str; 3] = ["run", "in", "out"];

/// The words that show what a source expands to.
pub const EXPAND: [&str; 2] = ["expand", "in"];
