//! The image of a program.

ghost use Rattle.std.specs.Prelude.{◌≡◌};
ghost use Rattle.image.specs.Content.{IsImage, content};

use debug_info::Debug;

/// The image of a program: within the limits of the format, and by its rules.
#[derive(Debug, Drop)]
pub struct Image {
    /// The version of the format, which is 1.
    pub version: u32,
    /// The instructions, four bytes each: 4 to 134,217,728 bytes.
    pub code: Vec<u8>,
    /// The first objects, eight bytes a word: at most 67,108,864 bytes.
    pub statics: Vec<u8>,
    /// What is known of the source.
    pub debug: Debug,
    /// The address of the first instruction that runs; the code begins at 65,536.
    pub entry: u64,
    pub ghost first_version: { version ≡ 1 },
    pub ghost rules: { IsImage (content code.items statics.items debug entry) },
}
