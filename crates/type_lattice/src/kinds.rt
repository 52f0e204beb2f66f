//! Sets of kinds of objects.

use crate::walk::Combination;

/// Which kinds of objects a set of values holds: all of a kind, or none.
#[derive(Clone, Copy, Debug)]
pub(crate) struct Kinds {
    pub(crate) conses: bool,
    pub(crate) vectors: bool,
    pub(crate) strings: bool,
    pub(crate) functions: bool,
}

ghost use Rattle.std.specs.Prelude.{◌≡◌, not};
ghost use Rattle.type_lattice.specs.Walks.{combined};
ghost use Rattle.type_lattice.specs.Members.{kinds_within};

impl Kinds {
    /// No kind.
    pub(crate) const NONE: Kinds = Kinds {
        conses: false,
        vectors: false,
        strings: false,
        functions: false,
    };

    /// Conses.
    pub(crate) const CONSES: Kinds = Kinds {
        conses: true,
        vectors: false,
        strings: false,
        functions: false,
    };

    /// Simple vectors.
    pub(crate) const VECTORS: Kinds = Kinds {
        conses: false,
        vectors: true,
        strings: false,
        functions: false,
    };

    /// Simple strings.
    pub(crate) const STRINGS: Kinds = Kinds {
        conses: false,
        vectors: false,
        strings: true,
        functions: false,
    };

    /// Simple vectors and strings.
    pub(crate) const ARRAYS: Kinds = Kinds {
        conses: false,
        vectors: true,
        strings: true,
        functions: false,
    };

    /// Conses, simple vectors and strings.
    pub(crate) const SEQUENCES: Kinds = Kinds {
        conses: true,
        vectors: true,
        strings: true,
        functions: false,
    };

    /// Functions.
    pub(crate) const FUNCTIONS: Kinds = Kinds {
        conses: false,
        vectors: false,
        strings: false,
        functions: true,
    };

    /// What is in one of two sets, or in both.
    pub(crate) fn combine(self, other: Kinds, how: Combination) -> Kinds
        ensures conses { result.conses ≡ combined how self.conses other.conses }
        ensures vectors { result.vectors ≡ combined how self.vectors other.vectors }
        ensures strings { result.strings ≡ combined how self.strings other.strings }
        ensures functions { result.functions ≡ combined how self.functions other.functions }
    {
        Kinds {
            conses: how.of(self.conses, other.conses),
            vectors: how.of(self.vectors, other.vectors),
            strings: how.of(self.strings, other.strings),
            functions: how.of(self.functions, other.functions),
        }
    }

    /// The kinds that are not in a set.
    pub(crate) fn opposite(self) -> Kinds
        ensures conses { result.conses ≡ not self.conses }
        ensures vectors { result.vectors ≡ not self.vectors }
        ensures strings { result.strings ≡ not self.strings }
        ensures functions { result.functions ≡ not self.functions }
    {
        Kinds {
            conses: !self.conses,
            vectors: !self.vectors,
            strings: !self.strings,
            functions: !self.functions,
        }
    }

    /// Whether all kinds of a set are in another.
    pub(crate) fn is_subset(self, of: Kinds) -> bool
        ensures { result ≡ kinds_within self of }
    {
        (!self.conses || of.conses)
            && (!self.vectors || of.vectors)
            && (!self.strings || of.strings)
            && (!self.functions || of.functions)
    }
}
