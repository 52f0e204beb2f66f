//! Which tokens may come next.

ghost use Rattle.std.specs.Prelude.{◌≡◌, fold, reverse, not, None, Some};
ghost use Rattle.std.specs.List.{list_any};
ghost use Rattle.lisp_reader.specs.Held.{level_of, levels_of};
ghost use Rattle.lisp_reader.specs.Machine.{shape_of, shapes_of};
ghost use Rattle.lisp_reader.specs.Reading.{backquote_fault, backquote_is, closing_fault_after, comma_fault, dot_fault_after, form_fault, takes_form_after, in_some_list, inside, into, is_prefix, nearest, place_fault, prefix_fault, too_deep};
ghost use Rattle.lisp_reader.specs.Spelled.{token_of};
ghost use Rattle.lisp_reader.specs.Trees.{top};

use crate::around::{Around, TOP};
use crate::fault::ReadKind;
use crate::level::{Level, Shape, shape_of};
use crate::token::{Prefix, Token};
use std::collections::LinkedList;

// What stands around a form inside a level.
fn into(shape: Shape, around: Around) -> Around
    ensures { result ≡ into shape around }
{
    let levels = around.levels.saturating_sub(1);
    match shape {
        Shape::List(_) | Shape::Dot | Shape::Tail => Around { levels, ..around },
        Shape::Vector => Around {
            levels,
            vector: around.vector || around.quasi,
            ..around
        },
        Shape::Prefix(Prefix::Quote | Prefix::Function) => Around { levels, ..around },
        Shape::Prefix(Prefix::Backquote) => Around {
            levels,
            quasi: true,
            comma: false,
            vector: false,
        },
        Shape::Prefix(Prefix::Comma | Prefix::Splice) => Around {
            levels,
            comma: true,
            ..around
        },
    }
}

fn folded(levels: &LinkedList<Level>) -> Around
    ensures { result ≡ fold (λ around level. into (shape_of (level_of level)) around) top (reverse levels.now) }
{
    levels
        .iter()
        .rev()
        .fold(TOP, |around, level| into(shape_of(level), around))
}

// What stands around the next form.
#[tactic(auto, using(crate::proofs::Shapes::inside_folded))]
fn inside(levels: &LinkedList<Level>) -> Around
    ensures { result ≡ inside (shapes_of (levels_of levels.now)) }
{
    folded(levels)
}

fn some_level(levels: &LinkedList<Level>) -> bool
    ensures { result ≡ list_any (λ level. not (is_prefix (shape_of (level_of level)))) levels.now }
{
    levels
        .iter()
        .any(|level| !matches!(shape_of(level), Shape::Prefix(_)))
}

// Whether a list or vector is begun.
#[tactic(auto, using(crate::proofs::Shapes::some_list))]
fn in_some_list(levels: &LinkedList<Level>) -> bool
    ensures { result ≡ in_some_list (shapes_of (levels_of levels.now)) }
{
    some_level(levels)
}

// What is begun last.
#[tactic(auto, using(crate::proofs::Shapes::nearest_first))]
fn nearest(levels: &LinkedList<Level>) -> Option<Shape>
    ensures { result ≡ nearest (shapes_of (levels_of levels.now)) }
{
    Some(shape_of(levels.front()?))
}

// Whether a form may come: not after the form after a dot.
fn takes_form(nearest: Option<Shape>) -> bool
    ensures { result ≡ takes_form_after nearest }
{
    !matches!(nearest, Some(Shape::Tail))
}

fn follows_backquote(nearest: Option<Shape>) -> bool
    ensures { result ≡ backquote_is nearest }
{
    matches!(nearest, Some(Shape::Prefix(Prefix::Backquote)))
}

fn too_deep(around: Around) -> Option<ReadKind>
    ensures { result ≡ too_deep around }
{
    if around.levels == 0 {
        return Some(ReadKind::TooDeep);
    }
    None
}

fn backquote_fault(around: Around) -> Option<ReadKind>
    ensures { result ≡ backquote_fault around }
{
    if around.quasi {
        return Some(ReadKind::Unsupported);
    }
    too_deep(around)
}

fn comma_fault(around: Around) -> Option<ReadKind>
    ensures { result ≡ comma_fault around }
{
    if !around.quasi || around.comma {
        return Some(ReadKind::BadToken);
    }
    if around.vector {
        return Some(ReadKind::Unsupported);
    }
    too_deep(around)
}

fn prefix_fault(prefix: Prefix, levels: &LinkedList<Level>) -> Option<ReadKind>
    ensures { result ≡ prefix_fault prefix (shapes_of (levels_of levels.now)) }
{
    match prefix {
        Prefix::Quote | Prefix::Function => too_deep(inside(levels)),
        Prefix::Backquote => backquote_fault(inside(levels)),
        Prefix::Comma => comma_fault(inside(levels)),
        Prefix::Splice => {
            if follows_backquote(nearest(levels)) {
                return Some(ReadKind::BadToken);
            }
            comma_fault(inside(levels))
        }
    }
}

fn closing_fault(nearest: Option<Shape>, in_some_list: bool) -> Option<ReadKind>
    ensures { result ≡ closing_fault_after nearest in_some_list }
{
    match nearest {
        None => Some(ReadKind::Unbalanced),
        Some(Shape::List(_) | Shape::Tail | Shape::Vector) => None,
        Some(Shape::Dot) => Some(ReadKind::BadToken),
        Some(Shape::Prefix(_)) => {
            if in_some_list {
                Some(ReadKind::BadToken)
            } else {
                Some(ReadKind::Unbalanced)
            }
        }
    }
}

fn dot_fault(nearest: Option<Shape>) -> Option<ReadKind>
    ensures { result ≡ dot_fault_after nearest }
{
    match nearest {
        Some(Shape::List(true)) => None,
        _ => Some(ReadKind::BadToken),
    }
}

fn form_fault(levels: &LinkedList<Level>, token: Token<'_>) -> Option<ReadKind>
    ensures { result ≡ form_fault (shapes_of (levels_of levels.now)) (token_of token.entry) }
{
    match token {
        Token::Open | Token::Vector => too_deep(inside(levels)),
        Token::Close => closing_fault(nearest(levels), in_some_list(levels)),
        Token::Dot => dot_fault(nearest(levels)),
        Token::Prefix(prefix) => prefix_fault(prefix, levels),
        Token::Atom(_) => None,
        Token::Bad(kind) => Some(kind),
    }
}

// Why a token may not come next, full tables aside.
#[tactic(auto, unfolding(crate::specs::Reading::place_fault))]
pub(crate) fn place_fault(levels: &LinkedList<Level>, token: Token<'_>) -> Option<ReadKind>
    ensures { result ≡ place_fault (shapes_of (levels_of levels.now)) (token_of token.entry) }
{
    if takes_form(nearest(levels)) || matches!(token, Token::Close) {
        form_fault(levels, token)
    } else {
        Some(ReadKind::BadToken)
    }
}
