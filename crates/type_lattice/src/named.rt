//! The sets of types that are written as a name, and the ends of ranges of integers.

ghost use Rattle.std.specs.Prelude.{◌≡◌, ◌^◌, true, ℤ, pos, IfOk, int_le, int_lt};
ghost use Rattle.lisp_base.specs.Lawful.{is_integer_value, is_bound, is_width};
ghost use Rattle.lisp_base.specs.Membership.{above, below, least_signed, past_signed};
ghost use Rattle.type_lattice.specs.Named.{HoldsWhere, named};

use crate::kinds::Kinds;
use crate::made::{GREATEST, LEAST};
use crate::ranges::Ranges;
use crate::ty::Ty;
use lisp_base::{Bound, TypeName};
use std::alloc::{AllocError, Global};

/// The set of a type that is written as a name.
#[tactic(auto, unfolding(crate::specs::Named::fixnum_bound, lisp_base::specs::Lawful::least_integer, lisp_base::specs::Lawful::greatest_integer))]
pub(crate) fn of_name(alloc: Global, name: TypeName) -> Result<Ty, AllocError>
    ensures { IfOk result (λ t. HoldsWhere t (named name)) }
{
    match name {
        TypeName::T => Ok(Ty::all_but(alloc, Kinds::NONE)),
        TypeName::Nil => Ok(Ty::of_kinds(alloc, Kinds::NONE)),
        TypeName::Integer | TypeName::Number | TypeName::Real | TypeName::Rational => {
            Ty::of_integers(alloc, LEAST, GREATEST)
        }
        TypeName::Fixnum => Ty::of_integers(alloc, -(1 << 61), (1 << 61) - 1),
        TypeName::Bit => Ty::of_integers(alloc, 0, 1),
        TypeName::UnsignedByte => Ty::of_integers(alloc, 0, GREATEST),
        TypeName::Character | TypeName::BaseChar => {
            Ok(Ty::of_characters(alloc, Ranges::everything(alloc)))
        }
        TypeName::Symbol => Ok(Ty::of_symbols(
            alloc,
            Ranges::everything(alloc),
            Ranges::everything(alloc),
        )),
        TypeName::Keyword => Ok(Ty::of_symbols(
            alloc,
            Ranges::nothing(alloc),
            Ranges::everything(alloc),
        )),
        TypeName::Null => Ty::of_kinds_and_first(alloc, Kinds::NONE, 1),
        TypeName::Boolean => Ty::of_kinds_and_first(alloc, Kinds::NONE, 2),
        TypeName::Cons => Ok(Ty::of_kinds(alloc, Kinds::CONSES)),
        TypeName::List => Ty::of_kinds_and_first(alloc, Kinds::CONSES, 1),
        TypeName::Atom => Ok(Ty::all_but(alloc, Kinds::CONSES)),
        TypeName::SimpleVector => Ok(Ty::of_kinds(alloc, Kinds::VECTORS)),
        TypeName::SimpleString | TypeName::String => Ok(Ty::of_kinds(alloc, Kinds::STRINGS)),
        TypeName::Vector | TypeName::Array => Ok(Ty::of_kinds(alloc, Kinds::ARRAYS)),
        TypeName::Sequence => Ty::of_kinds_and_first(alloc, Kinds::SEQUENCES, 1),
        TypeName::Function => Ok(Ty::of_kinds(alloc, Kinds::FUNCTIONS)),
    }
}

/// The least integer of the language that is not below a bound, or a number above all of them.
#[tactic(auto, unfolding(lisp_base::specs::Lawful::least_integer, lisp_base::specs::Lawful::greatest_integer))]
pub(crate) fn lowest(lo: Bound) -> i128
    requires { is_bound lo ≡ true }
    ensures { (z : ℤ) → is_integer_value z ≡ true → int_le result z ≡ above lo z }
{
    match lo {
        Bound::Open => LEAST,
        Bound::At(n) => n,
        Bound::Past(n) => n + 1,
    }
}

/// The greatest integer of the language that is not above a bound, or a number below all of them.
#[tactic(auto, unfolding(lisp_base::specs::Lawful::least_integer, lisp_base::specs::Lawful::greatest_integer))]
pub(crate) fn highest(hi: Bound) -> i128
    requires { is_bound hi ≡ true }
    ensures { (z : ℤ) → is_integer_value z ≡ true → int_le z result ≡ below hi z }
{
    match hi {
        Bound::Open => GREATEST,
        Bound::At(n) => n,
        Bound::Past(n) => n - 1,
    }
}

/// The least integer of the language of so many bits in two's complement.
#[tactic(auto, unfolding(lisp_base::specs::Lawful::least_integer, lisp_base::specs::Lawful::greatest_integer))]
pub(crate) fn lowest_signed(bits: u32) -> i128
    requires { is_width bits ≡ true }
    ensures { (z : ℤ) → is_integer_value z ≡ true → int_le result z ≡ int_le (least_signed bits) z }
{
    if bits > 63 {
        LEAST
    } else {
        -i128::from(1u64 << (bits - 1))
    }
}

/// The greatest integer of the language of so many bits in two's complement.
#[tactic(auto, unfolding(lisp_base::specs::Lawful::least_integer, lisp_base::specs::Lawful::greatest_integer))]
pub(crate) fn highest_signed(bits: u32) -> i128
    requires { is_width bits ≡ true }
    ensures { (z : ℤ) → is_integer_value z ≡ true → int_le z result ≡ int_lt z (past_signed bits) }
{
    if bits > 63 {
        GREATEST
    } else {
        i128::from(1u64 << (bits - 1)) - 1
    }
}

/// The greatest integer of the language of so many bits without a sign.
#[tactic(auto, unfolding(lisp_base::specs::Lawful::least_integer, lisp_base::specs::Lawful::greatest_integer))]
pub(crate) fn highest_unsigned(bits: u32) -> i128
    requires { is_width bits ≡ true }
    ensures { (z : ℤ) → is_integer_value z ≡ true → int_le z result ≡ int_lt z (pos (2 ^ bits)) }
{
    if bits > 62 {
        GREATEST
    } else {
        i128::from(1u64 << bits) - 1
    }
}
