//! What comes first in a text: a token, white space or a comment.

ghost use Rattle.std.specs.Prelude.{◌≡◌, ◌<◌, ◌≤◌, ◌+◌, ◌^◌, ◌==◌, IfSome, Some, codes, length};
ghost use Rattle.std.specs.List.{position};
ghost use Rattle.lisp_reader.specs.Spelled.{piece_of, token_of};
ghost use Rattle.lisp_reader.specs.Tokens.{after_comma, after_escape, after_sharp, begins, character_of, comment_size, count_before, first_piece, found_comment, found_string, gap, in_base, is_pair, is_spelled, named_code, one, string_size, word_piece};

use crate::fault::ReadKind;
use crate::numbers::{is_number, number, unsigned, upcase};
use crate::token::{Atom, Piece, Prefix, Token};
use crate::words::{is_white, token_length, without, word};

fn gap(size: usize) -> Piece<'static>
    ensures piece { piece_of result ≡ gap size }
    ensures size { result.size ≡ size }
{
    Piece { token: None, size }
}

fn one(token: Token<'_>, size: usize) -> Piece<'_>
    ensures piece { piece_of result ≡ one (token_of token.entry) size }
    ensures size { result.size ≡ size }
{
    Piece {
        token: Some(token),
        size,
    }
}

// Whether a word spells a name in any case.
fn is_spelled(name: &[u8], word: &[char]) -> bool
    ensures { result ≡ is_spelled name.now word.now }
{
    let Some((first, names)) = name.split_first() else {
        return word.is_empty();
    };
    let Some((letter, letters)) = word.split_first() else {
        return false;
    };
    upcase(*letter) == u32::from(*first) && is_spelled(names, letters)
}

#[tactic(auto, unfolding(crate::specs::Tokens::named_code))]
fn named_code(word: &[char]) -> Option<char>
    ensures { result ≡ named_code word.now }
{
    if is_spelled(b"SPACE", word) {
        Some(' ')
    } else if is_spelled(b"NEWLINE", word) {
        Some('\n')
    } else if is_spelled(b"LINEFEED", word) {
        Some('\n')
    } else if is_spelled(b"TAB", word) {
        Some('\t')
    } else if is_spelled(b"PAGE", word) {
        Some('\u{c}')
    } else if is_spelled(b"RETURN", word) {
        Some('\r')
    } else if is_spelled(b"BACKSPACE", word) {
        Some('\u{8}')
    } else if is_spelled(b"RUBOUT", word) {
        Some('\u{7f}')
    } else if is_spelled(b"NULL", word) {
        Some('\0')
    } else {
        None
    }
}

fn character_of(word: &[char]) -> Token<'static>
    ensures { token_of result ≡ character_of word.now }
{
    match word {
        [] => Token::Bad(ReadKind::BadToken),
        [letter] => Token::Atom(Atom::Character(*letter)),
        _ => match named_code(word) {
            Some(letter) => Token::Atom(Atom::Character(letter)),
            None => Token::Bad(ReadKind::BadToken),
        },
    }
}

// Whether a text begins with a character.
fn begins(letter: char, text: &[char]) -> bool
    ensures { result ≡ begins letter text.now }
{
    match text {
        [] => false,
        [first, ..] => *first == letter,
    }
}

// Whether a text begins with two characters.
fn is_pair(first: char, second: char, text: &[char]) -> bool
    ensures { result ≡ is_pair first second text.now }
{
    begins(first, text) && begins(second, without(1, text))
}

// How many characters are left of a string, its closing quote with them.
fn string_size(text: &[char]) -> Option<usize>
    requires { length text.now < 2 ^ 60 }
    ensures size { result ≡ string_size text.now }
    ensures within { IfSome result (λ n. (0 < n) × (n ≤ length text.now)) }
{
    let mut size = 0;
    let mut rest = text;
    while !rest.is_empty() {
        if begins('"', rest) {
            return Some(size + 1);
        }
        if begins('\\', rest) {
            size += 2;
            rest = without(2, rest);
            continue;
        }
        size += 1;
        rest = without(1, rest);
    }
    None
}

// How many characters are left of a comment, its end with them. Comments nest.
fn comment_size(text: &[char]) -> Option<usize>
    requires { length text.now < 2 ^ 60 }
    ensures size { result ≡ comment_size 1 text.now }
    ensures within { IfSome result (λ n. n ≤ length text.now) }
{
    let mut depth: usize = 1;
    let mut size = 0;
    let mut rest = text;
    while !rest.is_empty() {
        if is_pair('|', '#', rest) {
            if depth == 1 {
                return Some(size + 2);
            }
            depth -= 1;
            size += 2;
            rest = without(2, rest);
            continue;
        }
        if is_pair('#', '|', rest) {
            depth += 1;
            size += 2;
            rest = without(2, rest);
            continue;
        }
        size += 1;
        rest = without(1, rest);
    }
    None
}

fn found_string(text: &[char]) -> Piece<'_>
    requires { length text.now < 2 ^ 60 }
    ensures piece { piece_of result ≡ found_string text.now (string_size text.now) }
    ensures within { (0 < result.size) × (result.size ≤ length text.now + 1) }
{
    match string_size(text) {
        None => one(Token::Bad(ReadKind::Eof), 1),
        Some(size) => one(Token::Atom(Atom::Text(&text[..size - 1])), size + 1),
    }
}

fn found_comment(text: &[char]) -> Piece<'_>
    requires { length text.now < 2 ^ 60 }
    ensures piece { piece_of result ≡ found_comment (comment_size 1 text.now) }
    ensures within { (0 < result.size) × (result.size ≤ length text.now + 2) }
{
    match comment_size(text) {
        None => one(Token::Bad(ReadKind::Eof), 1),
        Some(size) => gap(size + 2),
    }
}

// What follows `#` and the letter of a base.
#[tactic(auto, unfolding(crate::specs::Tokens::in_base))]
fn in_base(base: u32, text: &[char]) -> Piece<'_>
    requires low { 0 < base }
    requires high { base ≤ 16 }
    requires short { length text.now < 2 ^ 60 }
    ensures piece { piece_of result ≡ in_base base text.now }
    ensures within { (0 < result.size) × (result.size ≤ length text.now + 2) }
{
    let size = token_length(text);
    let word = &text[..size];
    if is_number(base, unsigned(word)) {
        one(number(base, word), size + 2)
    } else {
        one(Token::Bad(ReadKind::BadToken), size + 2)
    }
}

// What follows `#\`.
#[tactic(auto, unfolding(crate::specs::Tokens::after_escape))]
fn after_escape(text: &[char]) -> Piece<'_>
    requires { length text.now < 2 ^ 60 }
    ensures piece { piece_of result ≡ after_escape text.now }
    ensures within { (0 < result.size) × (result.size ≤ length text.now + 2) }
{
    match text {
        [] => one(Token::Bad(ReadKind::Eof), 1),
        [_, rest @ ..] => {
            let size = token_length(rest);
            one(character_of(&text[..size + 1]), size + 3)
        }
    }
}

// What follows `#`.
#[tactic(auto, unfolding(crate::specs::Tokens::after_sharp))]
fn after_sharp(text: &[char]) -> Piece<'_>
    requires { length text.now < 2 ^ 60 }
    ensures piece { piece_of result ≡ after_sharp text.now }
    ensures within { (0 < result.size) × (result.size ≤ length text.now + 1) }
{
    let [letter, rest @ ..] = text else {
        return one(Token::Bad(ReadKind::Eof), 1);
    };
    match *letter {
        '(' => one(Token::Vector, 2),
        '\'' => one(Token::Prefix(Prefix::Function), 2),
        '|' => found_comment(rest),
        '\\' => after_escape(rest),
        'x' | 'X' => in_base(16, rest),
        'o' | 'O' => in_base(8, rest),
        'b' | 'B' => in_base(2, rest),
        _ => one(Token::Bad(ReadKind::Unsupported), 1),
    }
}

// What follows `,`.
fn after_comma(text: &[char]) -> Piece<'_>
    ensures piece { piece_of result ≡ after_comma text.now }
    ensures within { (0 < result.size) × (result.size ≤ length text.now + 1) }
{
    match text {
        ['@', ..] => one(Token::Prefix(Prefix::Splice), 2),
        _ => one(Token::Prefix(Prefix::Comma), 1),
    }
}

fn place_of_newline(text: &[char]) -> Option<usize>
    ensures { result ≡ position (λ c. c == 10) text.now }
{
    text.iter().position(|letter| *letter == '\n')
}

fn line_length(text: &[char]) -> usize
    ensures length { result ≡ count_before (λ c. c == 10) text.now }
    ensures within { result ≤ length text.now }
{
    place_of_newline(text).unwrap_or(text.len())
}

// A word, and what follows it.
#[tactic(auto, unfolding(crate::specs::Tokens::word_piece))]
fn word_piece(text: &[char]) -> Piece<'_>
    requires some { 0 < length text.now }
    requires short { length text.now < 2 ^ 60 }
    ensures piece { piece_of result ≡ word_piece text.now }
    ensures within { (0 < result.size) × (result.size ≤ length text.now) }
{
    match text {
        [] => gap(1),
        [_, rest @ ..] => {
            let size = token_length(rest);
            one(word(&text[..size + 1]), size + 1)
        }
    }
}

// What comes first in a text that is not empty.
#[tactic(auto, unfolding(crate::specs::Tokens::first_piece))]
pub(crate) fn first_piece(text: &[char]) -> Piece<'_>
    requires some { 0 < length text.now }
    requires short { length text.now < 2 ^ 60 }
    ensures piece { piece_of result ≡ first_piece text.now }
    ensures within { (0 < result.size) × (result.size ≤ length text.now) }
{
    let [letter, rest @ ..] = text else {
        return gap(1);
    };
    if is_white(*letter) {
        return gap(1);
    }
    match *letter {
        ';' => gap(line_length(rest) + 1),
        '(' => one(Token::Open, 1),
        ')' => one(Token::Close, 1),
        '\'' => one(Token::Prefix(Prefix::Quote), 1),
        '`' => one(Token::Prefix(Prefix::Backquote), 1),
        ',' => after_comma(rest),
        '"' => found_string(rest),
        '#' => after_sharp(rest),
        _ => word_piece(text),
    }
}
