// How a form stands: where its values go, and what is charged for it.
ghost use Rattle.std.specs.Prelude.{◌≡◌, ◌+◌, IfOk, true, false, Some, None};
ghost use Rattle.icr_convert.specs.Converting.{cost_alone, through_charges};

use icr_graph::Charges;
use ir_ids::ContId;
use std::alloc::AllocError;

/// How a form stands in its graph.
#[derive(Clone, Copy)]
pub(crate) struct Setting {
    /// Whether the form ends its function, so that a call may take its caller's place.
    pub tail: bool,
    /// Whether its value is taken as a word.
    pub word: bool,
    /// What is still to be charged before it.
    pub cost: u32,
    /// How many forms round it pass its values on, and how many of these box them.
    pub levels: u32,
    pub boxing: u32,
    /// The continuation of its values.
    pub to: Option<ContId>,
}

/// A number and one more.
///
/// # Errors
/// Told as want of memory: the sum of what one form is charged has more than 32 bits.
pub(crate) fn one_more(number: u32) -> Result<u32, AllocError>
    ensures { IfOk result (λ n. n ≡ number + 1) }
{
    match number.checked_add(1) {
        Some(next) => Ok(next),
        None => Err(AllocError),
    }
}

/// What a node is charged whose values no form passes on.
pub(crate) fn charge(cost: u32) -> Charges
    ensures { result ≡ cost_alone cost }
{
    Charges {
        cost,
        levels: 0,
        boxing: 0,
    }
}

impl Setting {
    /// A form whose values go to a continuation of its own.
    pub(crate) fn value(word: bool, cost: u32, to: ContId) -> Self
        ensures { result ≡ record { tail = false; word = word; cost = cost; levels = 0; boxing = 0; to = Some to } }
    {
        Setting {
            tail: false,
            word,
            cost,
            levels: 0,
            boxing: 0,
            to: Some(to),
        }
    }

    /// A form whose values nothing takes.
    pub(crate) fn effect(cost: u32) -> Self
        ensures { result ≡ record { tail = false; word = true; cost = cost; levels = 0; boxing = 0; to = None } }
    {
        Setting {
            tail: false,
            word: true,
            cost,
            levels: 0,
            boxing: 0,
            to: None,
        }
    }

    /// What the node is charged that gives the form's values.
    pub(crate) fn charges(&self, cost: u32) -> Result<Charges, AllocError>
        ensures { IfOk result (λ c. c ≡ through_charges self.now cost) }
    {
        let levels = one_more(self.levels)?;
        let boxing = if self.word {
            self.boxing
        } else {
            one_more(self.boxing)?
        };
        Ok(Charges {
            cost,
            levels,
            boxing,
        })
    }

    /// A part of the form that gives its values.
    pub(crate) fn part(&self, tail: bool, word: bool, cost: u32) -> Result<Self, AllocError>
        ensures { IfOk result (λ st. st ≡ record { tail = tail; word = word; cost = cost; levels = (through_charges self.now cost).levels; boxing = (through_charges self.now cost).boxing; to = self.now.to }) }
    {
        let charges = self.charges(cost)?;
        Ok(Setting {
            tail,
            word,
            cost,
            levels: charges.levels,
            boxing: charges.boxing,
            to: self.to,
        })
    }
}
