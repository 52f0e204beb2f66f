//! Values of forms.

ghost use Rattle.std.specs.Prelude.{◌≡◌, ◌<◌, ◌≤◌, ◌^◌, IfOk, OnOk, Ok, Err, None, OnErr, Some, false, true, length, map, encode_utf8_all, string_bytes};
ghost use Rattle.lisp_base.specs.Tables.{Vector, interned, is_interned};
ghost use Rattle.lisp_base.specs.declared.values.SymId.{SymId as Id};
ghost use Rattle.lisp_base.specs.declared.symbols.SymFault.TheVariants as sym_fault;
ghost use Rattle.lisp_reader.specs.Building.{atom_value, chain, made, prefix_symbol, stock};
ghost use Rattle.lisp_reader.specs.Held.{Grows, IsFull, KeepsAll, KeepsTable};
ghost use Rattle.lisp_reader.specs.Reading.{symbol_fault};
ghost use Rattle.lisp_reader.specs.Spelled.{atom_of};
ghost use Rattle.lisp_reader.specs.Tokens.{letters, upcase, atom as atom_token};

use crate::token::{Atom, Prefix};
use lisp_base::{Chars, Heap, Obj, Place, SymFault, SymId, SymKind, SymTab, Val, Vals};
use std::alloc::{AllocError, Global};

// A name in upper case.
fn upcased(alloc: Global, word: &[char]) -> Result<String, AllocError>
    ensures { IfOk result (λ name. string_bytes name ≡ encode_utf8_all (map upcase word.now)) }
{
    word.iter()
        .map(|letter| letter.to_ascii_uppercase())
        .collect(alloc)
}

// The letters of a string: a backslash keeps the character after it.
fn letters(alloc: Global, raw: &[char]) -> Result<Chars, AllocError>
    ensures { IfOk result (λ found. found.items ≡ letters false raw.now) }
{
    let mut found = Vec::new(alloc);
    let mut kept = false;
    for letter in raw {
        if !kept && *letter == '\\' {
            kept = true;
            continue;
        }
        kept = false;
        found.push(*letter as u32)?;
    }
    Ok(found)
}

// The symbol that a prefix stands for.
pub(crate) fn prefix_symbol(prefix: Prefix) -> Val
    ensures { result ≡ prefix_symbol prefix }
{
    let number = match prefix {
        Prefix::Quote => 2,
        Prefix::Function => 3,
        Prefix::Backquote => 4,
        Prefix::Comma => 5,
        Prefix::Splice => 6,
    };
    Val::Sym(SymId(number))
}

// The conses of a list, which begins at this offset, the last first.
pub(crate) fn chain(heap: &mut Heap, at: u32, items: &[Val], tail: Val) -> Result<Val, AllocError>
    requires { length items.now ≤ 2 ^ 32 }
    ensures ok { IfOk result (λ value. chain at 0 items.now tail heap.old ≡ (value, heap.new)) }
    ensures grown { Grows heap.old heap.new }
{
    let mut value = tail;
    for index in (0..items.len()).rev() {
        let place = Place::File {
            offset: at,
            tail: index as u32,
        };
        let cell = Obj::Cons {
            car: items[index],
            cdr: value,
            place: Some(place),
        };
        value = Val::Ref(heap.add(cell)?);
    }
    Ok(value)
}

// A vector of these elements.
#[tactic(auto, using(crate::proofs::Chains::grows_more, crate::proofs::Chains::grows_same))]
pub(crate) fn vector(heap: &mut Heap, items: Vals) -> Result<Val, AllocError>
    ensures ok { IfOk result (λ value. made (Vector items.items) heap.old ≡ (value, heap.new)) }
    ensures grown { Grows heap.old heap.new }
{
    let id = heap.add(Obj::Vector(items))?;
    Ok(Val::Ref(id))
}

// The symbol of a name in upper case.
#[tactic(auto, using(crate::proofs::Chains::interned_keeps, crate::proofs::Chains::table_same))]
fn named(alloc: Global, symbols: &mut SymTab, word: &[char], kind: SymKind) -> Result<Val, SymFault>
    requires { is_interned kind ≡ true }
    ensures ok { IfOk result (λ value. (id : Id) × (value ≡ Val.Sym id) × (interned (encode_utf8_all (map upcase word.now)) kind symbols.old ≡ Some (id, symbols.new))) }
    ensures too_many { result ≡ Err sym_fault.TooMany → interned (encode_utf8_all (map upcase word.now)) kind symbols.old ≡ None }
    ensures err { OnErr result (symbols.new ≡ symbols.old) }
    ensures kept { KeepsTable symbols.old symbols.new }
{
    let name = upcased(alloc, word)?;
    let id = symbols.intern(name.as_str(), kind)?;
    Ok(Val::Sym(id))
}

// The value of a form that is no list, vector or prefix.
#[tactic(auto, using(crate::proofs::Chains::table_same, crate::proofs::Chains::all_same, crate::proofs::Chains::grows_same, crate::proofs::Chains::grows_more), unfolding(crate::specs::Building::atom_value, crate::specs::Reading::symbol_fault))]
pub(crate) fn atom_value(
    alloc: Global,
    symbols: &mut SymTab,
    heap: &mut Heap,
    atom: Atom<'_>,
) -> Result<Val, SymFault>
    ensures ok { IfOk result (λ value. atom_value (atom_of atom.entry) (stock symbols.old heap.old) ≡ Some (value, stock symbols.new heap.new)) }
    ensures full { result ≡ Err sym_fault.TooMany → IsFull symbols.old (atom_token (atom_of atom.entry)) }
    ensures room { OnOk result (symbol_fault symbols.old (atom_token (atom_of atom.entry)) ≡ None) }
    ensures kept { KeepsAll symbols.old heap.old symbols.new heap.new }
{
    match atom {
        Atom::Integer(number) => Ok(Val::Int(number)),
        Atom::Character(letter) => Ok(Val::Char(letter as u32)),
        Atom::Text(raw) => {
            let letters = letters(alloc, raw)?;
            let id = heap.add(Obj::Str(letters))?;
            Ok(Val::Ref(id))
        }
        Atom::Symbol(word) => named(alloc, symbols, word, SymKind::Plain),
        Atom::Keyword(word) => named(alloc, symbols, word, SymKind::Keyword),
    }
}
