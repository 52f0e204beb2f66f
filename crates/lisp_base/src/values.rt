// Values, the objects that they refer to, and the places of forms.

/// The number of a symbol in the symbol table. NIL is 0 and T is 1.
#[derive(Clone, Copy, PartialEq, Eq, Debug)]
pub struct SymId(pub u32);

/// The number of an object, counted from 0 in the order in which objects were added.
#[derive(Clone, Copy, PartialEq, Eq, Debug)]
pub struct ObjId(pub usize);

/// The symbol NIL, which is also the false value and the empty list.
pub const NIL: SymId = SymId(0);

/// The symbol T, the usual true value.
pub const T: SymId = SymId(1);

/// A value of the language.
#[derive(Clone, Copy, PartialEq, Eq, Debug)]
pub enum Val {
    /// An integer, from -2^63 to 2^63-1.
    Int(i128),
    /// A character by its code point, 0 to 10FFFF hex without D800 to DFFF.
    Char(u32),
    /// A symbol.
    Sym(SymId),
    /// A cons, vector, string or function.
    Ref(ObjId),
}

/// A list of values.
pub type Vals = Vec<Val>;

/// A list of code points.
pub type Chars = Vec<u32>;

/// A list of numbers of objects.
pub type Objs = Vec<ObjId>;

/// Where a form stands.
#[derive(Clone, Copy, PartialEq, Eq, Debug)]
pub enum Place {
    /// In the file: the byte offset of a list's first byte, and the number of CDRs from its head.
    File { offset: u32, tail: u32 },
    /// In the prelude function of this name.
    Prelude { name: SymId },
}

/// An object that a value may refer to.
#[derive(PartialEq, Eq, Debug, Drop)]
pub enum Obj {
    /// A cons; one that was read has its place.
    Cons {
        car: Val,
        cdr: Val,
        place: Option<Place>,
    },
    /// A simple vector.
    Vector(Vals),
    /// A simple string.
    Str(Chars),
    /// A function: the number of its lambda, and the cells of the variables that it closes over.
    Fun {
        lambda: u32,
        cells: Objs,
    },
    /// The cell of a variable.
    Cell(Val),
}

/// What a symbol is.
#[derive(Clone, Copy, PartialEq, Eq, Debug)]
pub enum SymKind {
    /// A symbol of the one package.
    Plain,
    /// A keyword, such as `:TEST`.
    Keyword,
    /// A symbol of no package, made during expansion.
    Fresh,
}
