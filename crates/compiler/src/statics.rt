// The first objects of an image: NIL, T and their names.
ghost use Rattle.std.specs.Prelude.{◌≡◌, IfOk};
ghost use Rattle.std.specs.List.{flat_map};
ghost use Rattle.std.specs.Int.{w64, to_le_bytes};
ghost use Rattle.compiler.specs.Parts.{symbol_words as words_of_symbol, statics_words as words_of_statics, statics_bytes as bytes_of_statics};

use object_model::{ObjKind, header};
use std::alloc::{AllocError, Global};

/// The word of NIL: a pointer to its cons, the first object.
const NIL: u64 = 0x2000_0003;
/// The word of T: a pointer to its symbol object.
const TRUTH: u64 = 0x2000_003F;
/// Pointers to the names of the two symbols.
const NIL_NAME: u64 = 0x2000_0067;

const TRUTH_NAME: u64 = 0x2000_007F;
/// The marker of a symbol without a function.
const NO_FUNCTION: u64 = 18;

/// A symbol object: its value, no function, its name and the kind of a plain symbol.
fn symbol_words(value: u64, name: u64) -> [u64; 5]
    ensures { result ≡ words_of_symbol value name }
{
    [header(ObjKind::Symbol, 4), value, NO_FUNCTION, name, 0]
}

/// The words of the first objects: the cons of NIL, the symbols NIL and T, and the two names.
fn statics_words() -> [u64; 17]
    ensures { result ≡ words_of_statics }
{
    let nil = symbol_words(NIL, NIL_NAME);
    let truth = symbol_words(TRUTH, TRUTH_NAME);
    let letters = u64::from(b'N') + (u64::from(b'I') << 32);
    [
        NIL,
        NIL,
        nil[0],
        nil[1],
        nil[2],
        nil[3],
        nil[4],
        truth[0],
        truth[1],
        truth[2],
        truth[3],
        truth[4],
        header(ObjKind::String, 3),
        letters,
        u64::from(b'L'),
        header(ObjKind::String, 1),
        u64::from(b'T'),
    ]
}

/// The bytes of words, one after another.
fn words_bytes(alloc: Global, words: &[u64]) -> Result<Vec<u8>, AllocError>
    ensures { IfOk result (λ v. v.items ≡ flat_map (λ w. to_le_bytes w64 w) words.now) }
{
    let mut bytes = Vec::new(alloc);
    for word in words {
        bytes.extend_from_slice(&word.to_le_bytes())?;
    }
    Ok(bytes)
}

/// The bytes of the first objects.
///
/// # Errors
///
/// Only for want of memory.
pub fn statics_bytes(alloc: Global) -> Result<Vec<u8>, AllocError>
    ensures { IfOk result (λ v. v.items ≡ bytes_of_statics) }
{
    words_bytes(alloc, &statics_words())
}
