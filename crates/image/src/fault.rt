//! Why bytes are no image.

ghost use Rattle.std.specs.Prelude.{◌≡◌};
ghost use Rattle.image.specs.declared.fault.ImageFault.TheVariants.{Memory};

use std::alloc::{AllocError, AllocFailed};

/// What is wrong with the bytes of an image.
#[derive(Clone, Copy, Debug, PartialEq, Eq)]
pub enum ImageKind {
    /// The first four bytes aren't `PYIM`.
    Magic,
    /// The version isn't 1.
    Version,
    /// The length of the code is no multiple of 4 from 4 to its limit.
    CodeLength,
    /// The length of the statics is no multiple of 8 up to its limit.
    StaticsLength,
    /// The length of the debug tables is above its limit.
    DebugLength,
    /// The entry is no address of an instruction of the code.
    Entry,
    /// A field isn't whole.
    Short,
    /// A row of the debug tables isn't whole or breaks a rule, or bytes are left behind them.
    Debug,
    /// Bytes stand behind the image.
    Trailing,
}

/// Why no image was read.
#[derive(Clone, Copy, Debug, PartialEq, Eq)]
pub enum ImageFault {
    /// The first fault of the bytes, and where it is, in bytes from the first.
    Bad { offset: u64, kind: ImageKind },
    /// Memory ran out.
    Memory,
}

impl From<AllocError> for ImageFault {
    ghost from_gives = { λ _ e. e ≡ Memory };

    fn from(_e: AllocError) -> ImageFault {
        ImageFault::Memory
    }
}

impl<T: Drop> From<AllocFailed<T>> for ImageFault {
    ghost from_gives = { λ _ e. e ≡ Memory };

    fn from(_e: AllocFailed<T>) -> ImageFault {
        ImageFault::Memory
    }
}
