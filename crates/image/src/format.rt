//! The numbers of the format.

/// The first four bytes, `PYIM`.
pub const MAGIC: u32 = 0x4D49_5950;

/// The version of the format.
pub const VERSION: u32 = 1;

/// The address of the first byte of the code.
pub const CODE_START: u64 = 65_536;

/// The most bytes of the code.
pub const CODE_LIMIT: u64 = 134_217_728;

/// The most bytes of the statics.
pub const STATICS_LIMIT: u64 = 67_108_864;

/// The most bytes of the debug section.
pub const DEBUG_LIMIT: u64 = 268_435_456;

/// The most bytes of a text.
pub const TEXT_LIMIT: usize = 1_048_576;

/// The number that stands for no text.
pub const NO_TEXT: u32 = 0xFFFF_FFFF;
