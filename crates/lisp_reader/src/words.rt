//! Words: tokens that begin with no other character of the syntax.

ghost use Rattle.std.specs.Prelude.{◌≡◌, ◌<◌, ◌≤◌, ◌∷◌, drop, take, length, ◌^◌, ◌==◌, not, ◌||◌};
ghost use Rattle.std.specs.List.{position, list_any, list_all};
ghost use Rattle.lisp_reader.specs.Spelled.{token_of};
ghost use Rattle.lisp_reader.specs.Tokens.{all_dots, count_before, has_bar, has_colon, has_control, is_colon, ends_token, is_control, is_digit, is_dot, is_exponent, is_float, is_fraction, is_left_out, is_marker, is_no_name, is_ratio, is_white, name_of, token_length, undotted, utf8_length, word as word_token};

use crate::fault::ReadKind;
use crate::numbers::{is_digit, is_number, number, unsigned, upcase};
use crate::token::{Atom, Token};

pub(crate) fn is_white(letter: char) -> bool
    ensures { result ≡ is_white letter }
{
    letter == '\t'
        || letter == '\n'
        || letter == '\u{c}'
        || letter == '\r'
        || letter == ' '
        || letter == '\u{7f}'
}

fn ends_token(letter: char) -> bool
    ensures { result ≡ ends_token letter }
{
    is_white(letter)
        || letter == '"'
        || letter == '\''
        || letter == '('
        || letter == ')'
        || letter == ','
        || letter == ';'
        || letter == '`'
}

fn is_control(letter: char) -> bool
    ensures { result ≡ is_control letter }
{
    letter < ' ' || letter > '~' && letter < '\u{a0}'
}

fn place_of_end(text: &[char]) -> Option<usize>
    ensures { result ≡ position ends_token text.now }
{
    text.iter().position(|letter| ends_token(*letter))
}

// How many characters from the front on belong to a token.
pub(crate) fn token_length(text: &[char]) -> usize
    ensures length { result ≡ token_length text.now }
    ensures within { result ≤ length text.now }
{
    place_of_end(text).unwrap_or(text.len())
}

// What follows so many characters.
pub(crate) fn without(count: usize, word: &[char]) -> &[char]
    ensures { result.now ≡ drop count word.now }
{
    word.get(count..).unwrap_or(&[])
}

fn is_dot(word: &[char]) -> bool
    ensures { result ≡ is_dot word.now }
{
    matches!(word, ['.'])
}

// A word without its final dot.
fn undotted(word: &[char]) -> &[char]
    ensures { result.now ≡ undotted word.now }
{
    match word {
        [rest @ .., '.'] => rest,
        _ => word,
    }
}

fn place_of_slash(word: &[char]) -> Option<usize>
    ensures { result ≡ position (λ c. c == 47) word.now }
{
    word.iter().position(|letter| *letter == '/')
}

fn slash(word: &[char]) -> usize
    ensures place { result ≡ count_before (λ c. c == 47) word.now }
    ensures within { result ≤ length word.now }
{
    place_of_slash(word).unwrap_or(word.len())
}

#[tactic(auto, unfolding(crate::specs::Tokens::is_ratio))]
fn is_ratio(word: &[char]) -> bool
    ensures { result ≡ is_ratio word.now }
{
    let slash = slash(word);
    is_number(10, &word[..slash]) && is_number(10, without(slash + 1, word))
}

fn is_marker(code: u32) -> bool
    ensures { result ≡ is_marker code }
{
    code == 69 || code == 83 || code == 70 || code == 68 || code == 76
}

#[tactic(auto, unfolding(crate::specs::Tokens::is_exponent))]
fn is_exponent(word: &[char]) -> bool
    ensures { result ≡ is_exponent word.now }
{
    match word {
        [] => true,
        [marker, rest @ ..] => is_marker(upcase(*marker)) && is_number(10, unsigned(rest)),
    }
}

fn place_after_digits(word: &[char]) -> Option<usize>
    ensures { result ≡ position (λ c. not (is_digit c)) word.now }
{
    word.iter().position(|letter| !is_digit(*letter))
}

fn digits(word: &[char]) -> usize
    ensures count { result ≡ count_before (λ c. not (is_digit c)) word.now }
    ensures within { result ≤ length word.now }
{
    place_after_digits(word).unwrap_or(word.len())
}

#[tactic(auto, unfolding(crate::specs::Tokens::is_fraction))]
fn is_fraction(whole: usize, word: &[char]) -> bool
    ensures { result ≡ is_fraction whole word.now }
{
    match word {
        [] => false,
        ['.', rest @ ..] => {
            let count = digits(rest);
            (count > 0 || whole > 0 && !rest.is_empty()) && is_exponent(&rest[count..])
        }
        _ => whole > 0 && is_exponent(word),
    }
}

#[tactic(auto, unfolding(crate::specs::Tokens::is_float))]
fn is_float(word: &[char]) -> bool
    ensures { result ≡ is_float word.now }
{
    let whole = digits(word);
    is_fraction(whole, &word[whole..])
}

fn has_bar(word: &[char]) -> bool
    ensures { result ≡ has_bar word.now }
{
    word.iter().any(|letter| *letter == '|' || *letter == '\\')
}

fn has_colon(word: &[char]) -> bool
    ensures { result ≡ has_colon word.now }
{
    word.iter().any(|letter| *letter == ':')
}

// Ratios, floats, `|`, `\` and package prefixes.
#[tactic(auto, unfolding(crate::specs::Tokens::is_left_out))]
fn is_left_out(word: &[char]) -> bool
    ensures { result ≡ is_left_out word.now }
{
    is_ratio(unsigned(word))
        || is_float(unsigned(word))
        || has_bar(word)
        || has_colon(without(1, word))
}

fn all_dots(word: &[char]) -> bool
    ensures { result ≡ all_dots word.now }
{
    word.iter().all(|letter| *letter == '.')
}

fn has_control(word: &[char]) -> bool
    ensures { result ≡ has_control word.now }
{
    word.iter().any(|letter| is_control(*letter))
}

fn is_colon(word: &[char]) -> bool
    ensures { result ≡ is_colon word.now }
{
    matches!(word, [':'])
}

// How many bytes characters take.
pub(crate) fn utf8_length(word: &[char]) -> usize
    requires { length word.now < 2 ^ 60 }
    ensures { result ≡ utf8_length word.now }
{
    word.iter().map(|letter| letter.len_utf8()).sum()
}

// Dots alone, a lone colon, more than 255 bytes, a control character.
#[tactic(auto, unfolding(crate::specs::Tokens::is_no_name))]
fn is_no_name(word: &[char]) -> bool
    requires { length word.now < 2 ^ 60 }
    ensures { result ≡ is_no_name word.now }
{
    all_dots(word) || is_colon(word) || utf8_length(word) > 255 || has_control(word)
}

fn name_of(word: &[char]) -> Token<'_>
    ensures { token_of result ≡ name_of word.now }
{
    match word {
        [] => Token::Bad(ReadKind::BadToken),
        [':', name @ ..] => Token::Atom(Atom::Keyword(name)),
        _ => Token::Atom(Atom::Symbol(word)),
    }
}

// What a word is.
#[tactic(auto, unfolding(crate::specs::Tokens::word))]
pub(crate) fn word(word: &[char]) -> Token<'_>
    requires { length word.now < 2 ^ 60 }
    ensures { token_of result ≡ word_token word.now }
{
    if is_number(10, unsigned(undotted(word))) {
        number(10, undotted(word))
    } else if is_left_out(word) {
        Token::Bad(ReadKind::Unsupported)
    } else if is_dot(word) {
        Token::Dot
    } else if is_no_name(word) {
        Token::Bad(ReadKind::BadToken)
    } else {
        name_of(word)
    }
}
