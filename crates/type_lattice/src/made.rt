//! The sets of which those of types are made.

ghost use Rattle.std.specs.Prelude.{◌≡◌, ◌==◌, ◌<◌, true, not, ◌&&◌, ◌||◌, ℕ, ℤ, pos, IfOk, int_le, nat_le};
ghost use Rattle.std.specs.List.{list_all};
ghost use Rattle.lisp_base.specs.Lawful.{least_integer, greatest_integer, is_integer_value, is_character_value};
ghost use Rattle.type_lattice.specs.Borders.{is_within, is_started, is_not_ended, passes};
ghost use Rattle.type_lattice.specs.Values.{is_integer_border, is_character_border, is_symbol_border};
ghost use Rattle.type_lattice.specs.Members.{is_in};
ghost use Rattle.type_lattice.specs.Named.{HoldsWhere, is_between, is_letter_of, is_symbol_of, is_early, is_of};

use crate::kinds::Kinds;
use crate::ranges::Ranges;
use crate::ty::Ty;
use std::alloc::{AllocError, Global};

/// The least integer of the language.
pub(crate) const LEAST: i128 = -(1 << 63);

/// The greatest integer of the language.
pub(crate) const GREATEST: i128 = (1 << 63) - 1;

/// Where a range of integers starts: nowhere, where it has no integer of the language below it.
#[tactic(auto, unfolding(lisp_base::specs::Lawful::least_integer, lisp_base::specs::Lawful::greatest_integer))]
fn start_of(first: i128) -> Option<i128>
    requires { int_le first greatest_integer ≡ true }
    ensures set { (z : ℤ) → is_integer_value z ≡ true → is_started result z ≡ int_le first z }
    ensures border { passes is_integer_border result ≡ true }
{
    if first > LEAST { Some(first) } else { None }
}

/// Where a range of integers ends: nowhere, where it has no integer of the language above it.
#[tactic(auto, unfolding(lisp_base::specs::Lawful::least_integer, lisp_base::specs::Lawful::greatest_integer))]
fn end_of(last: i128) -> Option<i128>
    requires { int_le least_integer last ≡ true }
    ensures set { (z : ℤ) → is_integer_value z ≡ true → is_not_ended result z ≡ int_le z last }
    ensures border { passes is_integer_border result ≡ true }
{
    if last < GREATEST {
        Some(last + 1)
    } else {
        None
    }
}

/// The integers of the language from one number to another, both included.
#[tactic(auto, unfolding(lisp_base::specs::Lawful::least_integer, lisp_base::specs::Lawful::greatest_integer))]
fn integers(alloc: Global, first: i128, last: i128) -> Result<Ranges, AllocError>
    ensures set { IfOk result (λ r. (z : ℤ) → is_integer_value z ≡ true →
        is_within r.below r.borders.items z ≡ (int_le first z && int_le z last)) }
    ensures borders { IfOk result (λ r. list_all is_integer_border r.borders.items ≡ true) }
{
    if first > GREATEST || last < LEAST {
        return Ok(Ranges::nothing(alloc));
    }
    Ranges::between(alloc, start_of(first), end_of(last))
}

/// The symbol of a number alone.
pub(crate) fn one_symbol(alloc: Global, number: u32) -> Result<Ranges, AllocError>
    ensures set { IfOk result (λ r. (n : ℕ) → is_within r.below r.borders.items (pos n) ≡ (n == number)) }
    ensures borders { IfOk result (λ r. list_all is_symbol_border r.borders.items ≡ true) }
{
    let number = i128::from(number);
    let start = if number > 0 { Some(number) } else { None };
    Ranges::between(alloc, start, Some(number + 1))
}

/// The character after one, if there is one.
#[tactic(auto, unfolding(lisp_base::specs::Lawful::is_character_value))]
fn next_letter(letter: u32) -> Option<i128>
    requires { is_character_value letter ≡ true }
    ensures set { (c : ℕ) → is_character_value c ≡ true → is_not_ended result (pos c) ≡ nat_le c letter }
    ensures border { passes is_character_border result ≡ true }
{
    match letter {
        0xD7FF => Some(0xE000),
        0x10_FFFF => None,
        _ => Some(i128::from(letter) + 1),
    }
}

/// Where the range of a character starts: nowhere, where it has no character below it.
fn letter_start(letter: u32) -> Option<i128>
    requires { is_character_value letter ≡ true }
    ensures set { (c : ℕ) → is_started result (pos c) ≡ nat_le letter c }
    ensures border { passes is_character_border result ≡ true }
{
    if letter > 0 {
        Some(i128::from(letter))
    } else {
        None
    }
}

/// A character alone.
pub(crate) fn one_character(alloc: Global, letter: u32) -> Result<Ranges, AllocError>
    requires { is_character_value letter ≡ true }
    ensures set { IfOk result (λ r. (c : ℕ) → is_character_value c ≡ true →
        is_within r.below r.borders.items (pos c) ≡ (c == letter)) }
    ensures borders { IfOk result (λ r. list_all is_character_border r.borders.items ≡ true) }
{
    Ranges::between(alloc, letter_start(letter), next_letter(letter))
}

impl Ty {
    /// All values but objects of some kinds.
    pub(crate) fn all_but(alloc: Global, kinds: Kinds) -> Ty
        ensures { HoldsWhere result (λ v. not (is_of kinds v)) }
    {
        Ty {
            integers: Ranges::everything(alloc),
            characters: Ranges::everything(alloc),
            symbols: Ranges::everything(alloc),
            keywords: Ranges::everything(alloc),
            kinds: kinds.opposite(),
        }
    }

    /// The objects of some kinds, and the first symbols as far as a number.
    pub(crate) fn of_kinds(alloc: Global, kinds: Kinds) -> Ty
        ensures { HoldsWhere result (is_of kinds) }
    {
        Ty {
            integers: Ranges::nothing(alloc),
            characters: Ranges::nothing(alloc),
            symbols: Ranges::nothing(alloc),
            keywords: Ranges::nothing(alloc),
            kinds,
        }
    }

    /// The objects of some kinds, and the first so many symbols.
    pub(crate) fn of_kinds_and_first(
        alloc: Global,
        kinds: Kinds,
        count: u32,
    ) -> Result<Ty, AllocError>
        requires { 0 < count }
        ensures { IfOk result (λ t. HoldsWhere t (λ v. is_of kinds v || is_early count v)) }
    {
        let symbols = Ranges::between(alloc, None, Some(i128::from(count)))?;
        Ok(Ty {
            integers: Ranges::nothing(alloc),
            characters: Ranges::nothing(alloc),
            symbols,
            keywords: Ranges::nothing(alloc),
            kinds,
        })
    }

    /// The integers from one number to another, both included.
    pub(crate) fn of_integers(alloc: Global, first: i128, last: i128) -> Result<Ty, AllocError>
        ensures { IfOk result (λ t. HoldsWhere t (is_between first last)) }
    {
        let integers = integers(alloc, first, last)?;
        Ok(Ty {
            integers,
            characters: Ranges::nothing(alloc),
            symbols: Ranges::nothing(alloc),
            keywords: Ranges::nothing(alloc),
            kinds: Kinds::NONE,
        })
    }

    /// The characters of a set of code points.
    pub(crate) fn of_characters(alloc: Global, characters: Ranges) -> Ty
        requires { list_all is_character_border characters.borders.items ≡ true }
        ensures { HoldsWhere result (is_letter_of characters) }
    {
        Ty {
            integers: Ranges::nothing(alloc),
            characters,
            symbols: Ranges::nothing(alloc),
            keywords: Ranges::nothing(alloc),
            kinds: Kinds::NONE,
        }
    }

    /// The plain and uninterned symbols of a set of numbers, and the keywords of another.
    pub(crate) fn of_symbols(alloc: Global, symbols: Ranges, keywords: Ranges) -> Ty
        requires symbol_borders { list_all is_symbol_border symbols.borders.items ≡ true }
        requires keyword_borders { list_all is_symbol_border keywords.borders.items ≡ true }
        ensures { HoldsWhere result (is_symbol_of symbols keywords) }
    {
        Ty {
            integers: Ranges::nothing(alloc),
            characters: Ranges::nothing(alloc),
            symbols,
            keywords,
            kinds: Kinds::NONE,
        }
    }
}
