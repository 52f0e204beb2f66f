//! The rows of the debug tables.

/// Where a site lies in its source.
#[derive(Clone, Copy, Debug, PartialEq, Eq)]
pub enum SitePlace {
    /// In the file that was compiled: the offset of the form's first byte, and how many bytes of
    /// the file are left behind the form's last.
    File { offset: u32, tail: u32 },
    /// In the prelude, in the form that the text with this number names.
    Prelude { text: u32 },
}

/// What is known of a place in the code.
#[derive(Clone, Copy, Debug, PartialEq, Eq)]
pub struct Site {
    pub place: SitePlace,
    /// The number of a text: the operation that is done there, or the type that is tested.
    pub text: Option<u32>,
}

/// A site: it holds from its address to that of the next one.
#[derive(Clone, Copy, Debug, PartialEq, Eq)]
pub struct SiteRow {
    /// The address of its first instruction.
    pub pc: u64,
    pub place: SitePlace,
    pub text: Option<u32>,
}

/// A function of the code: it holds from its start to that of the next one.
#[derive(Clone, Copy, Debug, PartialEq, Eq)]
pub struct FunRow {
    /// The address of its first instruction.
    pub start: u64,
    /// The number of its name among the texts.
    pub name: u32,
    /// The words of its frame on the control stack.
    pub words: u32,
}

/// What a location is, and what it holds.
#[derive(Clone, Copy, Debug, PartialEq, Eq)]
pub enum LocationClass {
    /// A register with a descriptor.
    DescriptorRegister,
    /// A register with a 64-bit integer.
    WordRegister,
    /// A register with a character.
    CharacterRegister,
    /// A slot of the control stack, with a descriptor.
    ControlSlot,
    /// A slot of the number stack with a 64-bit integer.
    WordSlot,
    /// A slot of the number stack with a character.
    CharacterSlot,
    /// None of these: a code from 6 on, which nobody reads.
    Other { code: u8 },
}

/// A register, or a slot of a frame.
#[derive(Clone, Copy, Debug, PartialEq, Eq)]
pub struct Location {
    pub class: LocationClass,
    /// The number of the register or the slot, below 2^24.
    pub number: u32,
}

/// A variable of the source, and where it is kept from one address to another.
#[derive(Clone, Copy, Debug, PartialEq, Eq)]
pub struct VarRow {
    pub from: u64,
    pub to: u64,
    /// The number of its name among the texts.
    pub name: u32,
    pub location: Location,
}
