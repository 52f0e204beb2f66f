// Numbers with a type of their own.

ghost use Rattle.std.specs.Prelude.{◌≡◌, ℕ, refl};

use std::marker::Model;

/// A number that has a type of its own. `of` and `number` undo each other. The default is number 0.
pub trait Id: Copy {
    /// The identifier of a number.
    ghost id_of: { ℕ → Self };

    /// The number of an identifier.
    ghost number_of: { Self → ℕ };

    /// The identifier of a number.
    fn of(number: usize) -> Self
        ensures { result ≡ id_of number };

    /// The number of an identifier.
    fn number(self) -> usize
        ensures { result ≡ number_of self };

    /// The number of the identifier of a number is that number.
    ghost number_kept: { (number : ℕ) → number_of (id_of number) ≡ number };

    /// The identifier of the number of an identifier is that identifier.
    ghost id_kept: { (id : Self) → id_of (number_of id) ≡ id };
}

/// The number of a node of a flow graph. Contracts see it as that number.
#[derive(Clone, Copy, Default, PartialEq, Eq, Debug)]
pub struct NodeId {
    number: usize,
}

impl Model for NodeId {
    ghost Value = { ℕ };

    ghost view = { λ id. id.number };

    ghost inverse = { λ n. record { number = n } };
}

impl Id for NodeId {
    ghost id_of = { λ n. n };

    ghost number_of = { λ id. id };

    ghost number_kept = { λ n. refl };

    ghost id_kept = { λ id. refl };

    fn of(number: usize) -> Self {
        NodeId { number }
    }

    fn number(self) -> usize {
        self.number
    }
}

/// The number of a continuation, through which a node hands its values to another. Contracts see it as that number.
#[derive(Clone, Copy, Default, PartialEq, Eq, Debug)]
pub struct ContId {
    number: usize,
}

impl Model for ContId {
    ghost Value = { ℕ };

    ghost view = { λ id. id.number };

    ghost inverse = { λ n. record { number = n } };
}

impl Id for ContId {
    ghost id_of = { λ n. n };

    ghost number_of = { λ id. id };

    ghost number_kept = { λ n. refl };

    ghost id_kept = { λ id. refl };

    fn of(number: usize) -> Self {
        ContId { number }
    }

    fn number(self) -> usize {
        self.number
    }
}

/// The number of a block, a sequence of nodes. Contracts see it as that number.
#[derive(Clone, Copy, Default, PartialEq, Eq, Debug)]
pub struct BlockId {
    number: usize,
}

impl Model for BlockId {
    ghost Value = { ℕ };

    ghost view = { λ id. id.number };

    ghost inverse = { λ n. record { number = n } };
}

impl Id for BlockId {
    ghost id_of = { λ n. n };

    ghost number_of = { λ id. id };

    ghost number_kept = { λ n. refl };

    ghost id_kept = { λ id. refl };

    fn of(number: usize) -> Self {
        BlockId { number }
    }

    fn number(self) -> usize {
        self.number
    }
}

/// The number of a function. Contracts see it as that number.
#[derive(Clone, Copy, Default, PartialEq, Eq, Debug)]
pub struct FunId {
    number: usize,
}

impl Model for FunId {
    ghost Value = { ℕ };

    ghost view = { λ id. id.number };

    ghost inverse = { λ n. record { number = n } };
}

impl Id for FunId {
    ghost id_of = { λ n. n };

    ghost number_of = { λ id. id };

    ghost number_kept = { λ n. refl };

    ghost id_kept = { λ id. refl };

    fn of(number: usize) -> Self {
        FunId { number }
    }

    fn number(self) -> usize {
        self.number
    }
}

/// The number of a lexical variable. Contracts see it as that number.
#[derive(Clone, Copy, Default, PartialEq, Eq, Debug)]
pub struct VarId {
    number: usize,
}

impl Model for VarId {
    ghost Value = { ℕ };

    ghost view = { λ id. id.number };

    ghost inverse = { λ n. record { number = n } };
}

impl Id for VarId {
    ghost id_of = { λ n. n };

    ghost number_of = { λ id. id };

    ghost number_kept = { λ n. refl };

    ghost id_kept = { λ id. refl };

    fn of(number: usize) -> Self {
        VarId { number }
    }

    fn number(self) -> usize {
        self.number
    }
}

/// The number of a temporary name (TN), the place of a value in the code. Contracts see it as that number.
#[derive(Clone, Copy, Default, PartialEq, Eq, Debug)]
pub struct TnId {
    number: usize,
}

impl Model for TnId {
    ghost Value = { ℕ };

    ghost view = { λ id. id.number };

    ghost inverse = { λ n. record { number = n } };
}

impl Id for TnId {
    ghost id_of = { λ n. n };

    ghost number_of = { λ id. id };

    ghost number_kept = { λ n. refl };

    ghost id_kept = { λ id. refl };

    fn of(number: usize) -> Self {
        TnId { number }
    }

    fn number(self) -> usize {
        self.number
    }
}
