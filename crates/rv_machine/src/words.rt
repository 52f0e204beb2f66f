//! Words of 32 and of 64 bits, from bytes.
ghost use Rattle.std.specs.Prelude.{◌≡◌, ◌*◌, ◌%◌, ◌<◌, ◌≤◌, ◌^◌, IfOk, length, replicate};
ghost use Rattle.std.specs.Int.{w64, from_le_bytes};
ghost use Rattle.rv_isa.specs.Start.{words32, words64};

use std::alloc::{AllocError, Global};

/// The words of four bytes each, one after another.
#[tactic(auto, using(crate::proofs::WordsLaws::words32_more, crate::proofs::WordsLaws::words32_all, crate::proofs::WordsLaws::words32_length))]
pub(crate) fn words32(alloc: Global, bytes: &[u8]) -> Result<Vec<u32>, AllocError>
    requires { length bytes.now % 4 ≡ 0 }
    ensures words { IfOk result (λ words. words.items ≡ words32 bytes.now) }
    ensures len { IfOk result (λ words. 4 * length words.items ≡ length bytes.now) }
{
    let mut words = Vec::with_capacity(alloc, bytes.len() / 4)?;
    let mut rest = bytes;
    while rest.len() >= 4 {
        words.push(u32::from_le_bytes([rest[0], rest[1], rest[2], rest[3]]))?;
        rest = &rest[4..];
    }
    Ok(words)
}

/// The word in these eight bytes, the lowest of them first.
fn word64(bytes: &[u8]) -> u64
    requires { length bytes.now ≡ 8 }
    ensures { result ≡ from_le_bytes w64 bytes.now }
{
    u64::from_le_bytes([
        bytes[0], bytes[1], bytes[2], bytes[3], bytes[4], bytes[5], bytes[6], bytes[7],
    ])
}

/// The words of eight bytes each, one after another.
#[tactic(auto, using(crate::proofs::WordsLaws::words64_more, crate::proofs::WordsLaws::words64_all, crate::proofs::WordsLaws::words64_length))]
pub(crate) fn words64(alloc: Global, bytes: &[u8]) -> Result<Vec<u64>, AllocError>
    requires { length bytes.now % 8 ≡ 0 }
    ensures words { IfOk result (λ words. words.items ≡ words64 bytes.now) }
    ensures len { IfOk result (λ words. 8 * length words.items ≡ length bytes.now) }
{
    let mut words = Vec::with_capacity(alloc, bytes.len() / 8)?;
    let mut rest = bytes;
    while rest.len() >= 8 {
        let (word, others) = rest.split_at(8);
        words.push(word64(word))?;
        rest = others;
    }
    Ok(words)
}

/// Words that are 0, of which there are this many.
pub(crate) fn zeros(alloc: Global, count: usize) -> Result<Vec<u64>, AllocError>
    requires { count < 2 ^ 60 }
    ensures { IfOk result (λ words. words.items ≡ replicate count 0) }
{
    vec![in alloc; 0; count]
}
