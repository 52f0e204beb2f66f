//! The rules of the tables, as tests.

ghost use Rattle.std.specs.Prelude.{IsTrue, ◌↔◌, ◌≡◌, ℕ, ◌+◌, ◌-◌, ◌*◌, ◌<◌, ◌≤◌, None, SomeIff, length, string_bytes};
ghost use Rattle.std.specs.List.{flat_map, list_all};
ghost use Rattle.debug_info.specs.Spelling.{size_of, text_bytes};
ghost use Rattle.debug_info.specs.Tables.{IsTables, are_functions, are_sites, is_above as is_above_of, is_class, is_function, is_location, is_optional_text, is_place, is_site, is_text, is_variable};
ghost use Rattle.debug_info.specs.Texts.{bytes_of, tables_of};

use crate::rows::{FunRow, Location, LocationClass, SitePlace, SiteRow, VarRow};

/// The most bytes of a text.
pub const TEXT_LIMIT: usize = 1_048_576;

/// The most bytes of the spelling of the tables.
pub const SIZE_LIMIT: u64 = 268_435_456;

/// Bytes of a site, a function and a variable.
const SITE_SIZE: u64 = 24;

const FUNCTION_SIZE: u64 = 16;

const VARIABLE_SIZE: u64 = 24;

/// Whether an address may follow the one before it, where there is one: addresses rise strictly.
pub fn is_above(before: Option<u64>, address: u64) -> bool
    ensures { result ≡ is_above_of before address }
{
    match before {
        None => true,
        Some(before) => before < address,
    }
}

fn is_short_text(text: &String) -> bool
    ensures { result ≡ is_text (string_bytes text.now) }
{
    text.as_str().len() <= TEXT_LIMIT
}

pub fn are_texts(texts: &[String]) -> bool
    ensures { result ≡ list_all is_text (bytes_of texts.now) }
{
    for text in texts {
        if !is_short_text(text) {
            return false;
        }
    }
    true
}

fn is_place_within(place: SitePlace, texts: usize) -> bool
    ensures { result ≡ is_place texts place }
{
    match place {
        SitePlace::File { .. } => true,
        SitePlace::Prelude { text } => (text as usize) < texts,
    }
}

fn is_text_within(text: Option<u32>, texts: usize) -> bool
    ensures { result ≡ is_optional_text texts text }
{
    match text {
        None => true,
        Some(text) => (text as usize) < texts,
    }
}

impl SiteRow {
    /// Whether the row names texts of a table of so many alone.
    pub fn is_within(&self, texts: usize) -> bool
        ensures { result ≡ is_site texts self.now }
    {
        let SiteRow {
            pc: _pc,
            place,
            text,
        } = *self;
        is_place_within(place, texts) && is_text_within(text, texts)
    }
}

impl FunRow {
    /// Whether the row names a text of a table of so many.
    pub fn is_within(&self, texts: usize) -> bool
        ensures { result ≡ is_function texts self.now }
    {
        let FunRow {
            start: _start,
            name,
            words: _words,
        } = *self;
        (name as usize) < texts
    }
}

impl LocationClass {
    /// Whether a code without a name is none that has one.
    fn is_plain(self) -> bool
        ensures { result ≡ is_class self }
    {
        match self {
            LocationClass::Other { code } => code >= 6,
            _ => true,
        }
    }
}

impl Location {
    /// Whether the number fits its 24 bits, and a code without a name is none that has one.
    pub fn is_plain(&self) -> bool
        ensures { result ≡ is_location self.now }
    {
        self.class.is_plain() && self.number < 0x100_0000
    }
}

impl VarRow {
    /// Whether the row names a text of a table of so many, and its location is plain.
    pub fn is_within(&self, texts: usize) -> bool
        ensures { result ≡ is_variable texts self.now }
    {
        let VarRow {
            from: _from,
            to: _to,
            name,
            location,
        } = *self;
        (name as usize) < texts && location.is_plain()
    }
}

pub fn are_rising_sites(texts: usize, rows: &[SiteRow]) -> bool
    ensures { result ≡ are_sites texts None rows.now }
{
    let mut before = None;
    for row in rows {
        if !is_above(before, row.pc) || !row.is_within(texts) {
            return false;
        }
        before = Some(row.pc);
    }
    true
}

pub fn are_rising_functions(texts: usize, rows: &[FunRow]) -> bool
    ensures { result ≡ are_functions texts None rows.now }
{
    let mut before = None;
    for row in rows {
        if !is_above(before, row.start) || !row.is_within(texts) {
            return false;
        }
        before = Some(row.start);
    }
    true
}

pub fn are_variables(texts: usize, rows: &[VarRow]) -> bool
    ensures { result ≡ list_all (is_variable texts) rows.now }
{
    for row in rows {
        if !row.is_within(texts) {
            return false;
        }
    }
    true
}

// What is left of the room behind the table of the texts, where it fits.
fn room_behind_texts(room: u64, texts: &[String]) -> Option<u64>
    ensures { SomeIff result (4 + length (flat_map text_bytes (bytes_of texts.now)) ≤ room) (room - (4 + length (flat_map text_bytes (bytes_of texts.now)))) }
{
    let mut room = room.checked_sub(4)?;
    for text in texts {
        let size = text.len() as u64;
        room = room.checked_sub(4)?.checked_sub(size)?;
    }
    Some(room)
}

// What is left of the room behind a table of so many rows of so many bytes, where it fits.
fn room_behind(room: u64, count: usize, size: u64) -> Option<u64>
    requires { 0 < size }
    ensures { SomeIff result (4 + size * count ≤ room) (room - (4 + size * count)) }
{
    let room = room.checked_sub(4)?;
    let count = count as u64;
    if count > room / size {
        return None;
    }
    Some(room - size * count)
}

// Whether the tables, as they are written, have no more bytes than they may.
fn are_small(
    texts: &[String],
    sites: &[SiteRow],
    functions: &[FunRow],
    variables: &[VarRow],
) -> bool
    ensures { IsTrue result ↔ (size_of (bytes_of texts.now) sites.now functions.now variables.now ≤ 268435456) }
{
    let Some(room) = room_behind_texts(SIZE_LIMIT, texts) else {
        return false;
    };
    let Some(room) = room_behind(room, sites.len(), SITE_SIZE) else {
        return false;
    };
    let Some(room) = room_behind(room, functions.len(), FUNCTION_SIZE) else {
        return false;
    };
    room_behind(room, variables.len(), VARIABLE_SIZE).is_some()
}

/// Whether rows keep the rules of the tables.
pub fn are_tables(
    texts: &[String],
    sites: &[SiteRow],
    functions: &[FunRow],
    variables: &[VarRow],
) -> bool
    ensures { IsTrue result ↔ IsTables (tables_of texts.now sites.now functions.now variables.now) }
{
    let count = texts.len();
    if are_texts(texts)
        && are_rising_sites(count, sites)
        && are_rising_functions(count, functions)
        && are_variables(count, variables)
    {
        are_small(texts, sites, functions, variables)
    } else {
        false
    }
}
