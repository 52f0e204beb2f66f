//! The plain types of the language: values, objects, places, symbol kinds, primitives and type
//! specifiers. Everything above speaks of programs in these words.
#![tactic(auto)]

mod base;
pub mod base_symbols;
mod heap;
mod laws;
mod prim_names;
mod primitives;
mod row_types;
mod rows;
mod shapes;
mod stores;
mod symbols;
mod types;
mod values;

pub use base::{base_name_of, base_names};
pub use heap::Heap;
pub use laws::{base_names_stand, constants_are_base_symbols, reads_specs, sorts_are_base_names};
pub use prim_names::{each_primitive_is_named, prim_of};
pub use primitives::Primitive;
pub use row_types::prim_spec;
pub use rows::{Own, PrimRow, PrimType};
pub use shapes::{MOST_ELEMENTS, Shape, View};
pub use stores::HeapView;
pub use symbols::{SymFault, SymTab};
pub use types::{Bound, Specs, TypeName, TypeSpec};
pub use values::{Chars, NIL, Obj, ObjId, Objs, Place, SymId, SymKind, T, Val, Vals};

#[cfg(test)]
mod prim_tests;
#[cfg(test)]
mod tests;
