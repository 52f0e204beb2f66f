ghost use Rattle.std.specs.Prelude.{◌≡◌, ◌≤◌, ◌^◌, IfOk, IfErr};
ghost use Rattle.rv_asm.specs.Places.{code_size, labels_of, sites_of};
ghost use Rattle.rv_asm.specs.Assembly.{instrs_of, IsFault};
ghost use Rattle.rv_asm.specs.Code.{HoldsMade, AreLawful};
ghost use Rattle.rv_asm.specs.Landing.{Lands};

use crate::assembled::Assembled;
use crate::code::code_of;
use crate::fault::AsmFault;
use crate::item::Item;
use crate::placing::{mark_sites, place_labels};
use std::alloc::Global;

/// The code of items, which give at most 2^30 bytes, with the places of their labels and sites.
///
/// Each label that a branch, a jump or an address names stands for its place. A label that stands twice is the first
/// fault; then the others in the order of the items.
#[tactic(auto, using(crate::proofs::Lands::lands))]
pub fn assemble(alloc: Global, items: &[Item]) -> Result<Assembled, AsmFault>
    requires { code_size items.now ≤ 2 ^ 30 }

    // The code is the words of the items, each a lawful instruction word.
    ensures code { IfOk result (λ a. HoldsMade a.code.items (instrs_of items.now)) }
    ensures lawful { IfOk result (λ a. AreLawful a.code.items) }
    ensures labels { IfOk result (λ a. a.labels.items ≡ labels_of items.now) }
    ensures sites { IfOk result (λ a. a.sites.items ≡ sites_of items.now) }

    // It fails with the first fault alone, or for want of memory.
    ensures fault { IfErr result (λ e. IsFault e (instrs_of items.now)) }

    // Branches, jumps and addresses lead to their labels.
    ensures lands { Lands }
{
    let labels = place_labels(alloc, items)?;
    let code = code_of(alloc, items, &labels)?;
    let sites = mark_sites(alloc, items)?;
    Ok(Assembled {
        code,
        labels: labels.into_marks(),
        sites,
    })
}

#[cfg(test)]
#[tactic(auto, using(crate::proofs::Marks::code_size_le))]
mod tests;
