//! Integers.

ghost use Rattle.std.specs.Prelude.{◌≡◌, ◌<◌, ◌≤◌, ◌^◌, MatchOption, drop, length};
ghost use Rattle.std.specs.List.{position_or_len};
ghost use Rattle.lisp_reader.specs.Spelled.{token_of};
ghost use Rattle.lisp_reader.specs.Tokens.{all_digits, amount, digit, integers_end, is_digit, is_digit_in, is_negative, is_number, is_sign, number, unsigned, upcase};

use crate::fault::ReadKind;
use crate::token::{Atom, Token};

// 2^63.
const INTEGERS_END: u128 = 0x8000_0000_0000_0000;

pub(crate) fn is_digit(letter: char) -> bool
    ensures { result ≡ is_digit letter }
{
    letter > '/' && letter < ':'
}

pub(crate) fn upcase(letter: char) -> u32
    ensures { result ≡ upcase letter }
{
    letter.to_ascii_uppercase() as u32
}

// The value of a digit in a base above ten.
fn digit(letter: char) -> u32
    ensures { result ≡ digit letter }
{
    if is_digit(letter) {
        letter as u32 - 48
    } else {
        upcase(letter).saturating_sub(55)
    }
}

fn is_digit_in(base: u32, letter: char) -> bool
    ensures { result ≡ is_digit_in base letter }
{
    let code = upcase(letter);
    (is_digit(letter) || code > 64 && code < 71) && digit(letter) < base
}

fn all_digits(base: u32, word: &[char]) -> bool
    ensures { result ≡ all_digits base word.now }
{
    word.iter().all(|letter| is_digit_in(base, *letter))
}

// Whether a word is one digit or more, and nothing else.
#[tactic(auto, unfolding(crate::specs::Tokens::is_number))]
pub(crate) fn is_number(base: u32, word: &[char]) -> bool
    ensures { result ≡ is_number base word.now }
{
    match word {
        [] => false,
        [..] => all_digits(base, word),
    }
}

// The number that digits write, if it is 2^63 at most.
#[tactic(auto, using(crate::proofs::DigitSums::amount_more), unfolding(crate::specs::Tokens::integers_end))]
fn amount(base: u32, word: &[char]) -> Option<u128>
    requires low { 0 < base }
    requires high { base ≤ 16 }
    ensures { MatchOption result (integers_end < amount base word.now) (λ n. (n ≡ amount base word.now) × (n ≤ integers_end)) }
{
    let mut total: u128 = 0;
    for letter in word {
        total = u128::from(base) * total + u128::from(digit(*letter));
        if total > INTEGERS_END {
            return None;
        }
    }
    Some(total)
}

// A word without its sign.
pub(crate) fn unsigned(word: &[char]) -> &[char]
    ensures { result.now ≡ unsigned word.now }
{
    match word {
        ['+' | '-', rest @ ..] => rest,
        _ => word,
    }
}

fn is_negative(word: &[char]) -> bool
    ensures { result ≡ is_negative word.now }
{
    matches!(word, ['-', ..])
}

// The integer that a word writes, a sign and digits.
#[tactic(auto, unfolding(crate::specs::Tokens::number, crate::specs::Tokens::integers_end))]
pub(crate) fn number(base: u32, word: &[char]) -> Token<'_>
    requires low { 0 < base }
    requires high { base ≤ 16 }
    ensures { token_of result ≡ number base word.now }
{
    let Some(total) = amount(base, unsigned(word)) else {
        return Token::Bad(ReadKind::Unsupported);
    };
    if is_negative(word) {
        Token::Atom(Atom::Integer(-(total as i128)))
    } else if total < INTEGERS_END {
        Token::Atom(Atom::Integer(total as i128))
    } else {
        Token::Bad(ReadKind::Unsupported)
    }
}
