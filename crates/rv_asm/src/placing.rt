//! The places of labels and sites.

ghost use Rattle.std.specs.Prelude.{◌≡◌, ◌+◌, ◌≤◌, ◌^◌, ◌++◌, ◌⊎◌, List, Some, None, OnOk, IfOk, IfErr};
ghost use Rattle.rv_asm.specs.Places.{item_size, code_size, label_marks, site_marks, labels_of, sites_of, doubled_after, first_double};
ghost use Rattle.rv_asm.specs.Placing.{Adds, IsDoubleNext};
ghost use Rattle.rv_asm.specs.Assembly.{instrs_of, IsFault};

use crate::assembled::Mark;
use crate::fault::AsmFault;
use crate::item::Item;
use crate::labels::Labels;
use std::alloc::{AllocError, Global};

/// How many bytes an item gives.
fn item_size(item: &Item) -> u64
    ensures { result ≡ item_size item.now }
{
    match item {
        Item::Plain(_) | Item::BranchTo { .. } | Item::JumpTo { .. } => 4,
        Item::AddressOf { .. } => 8,
        Item::Label(_) | Item::Site(_) => 0,
    }
}

/// Adds what an item at this place labels.
fn add_label(labels: &mut Labels, item: &Item, at: u64) -> Result<(), AsmFault>
    requires { at ≤ 2 ^ 30 }
    ensures added { OnOk result (labels.new ≡ labels.old ++ label_marks at item.now) }
    ensures next { OnOk result (Adds labels.old (label_marks at item.now) labels.new) }
    ensures fault { IfErr result
        (λ e. (e ≡ AsmFault.Memory) ⊎ IsDoubleNext labels.old (label_marks at item.now) e) }
{
    match *item {
        Item::Label(label) => labels.add(label, at),
        Item::Plain(_)
        | Item::BranchTo { .. }
        | Item::JumpTo { .. }
        | Item::AddressOf { .. }
        | Item::Site(_) => Ok(()),
    }
}

/// The labels of items at their places. `DoubleLabel` exactly where a label stands twice.
pub(crate) fn place_labels(alloc: Global, items: &[Item]) -> Result<Labels, AsmFault>
    requires { code_size items.now ≤ 2 ^ 30 }
    ensures placed { IfOk result (λ labels. labels ≡ labels_of items.now) }
    ensures single { OnOk result (first_double (labels_of items.now) ≡ None) }
    ensures fault { IfErr result (λ e. IsFault e (instrs_of items.now)) }
{
    let mut labels = Labels::new(alloc);
    let mut at = 0;
    for item in items {
        add_label(&mut labels, item, at)?;
        at += item_size(item);
    }
    Ok(labels)
}

/// Adds the mark of an item at this place, if it is a site.
fn add_site(sites: &mut Vec<Mark>, item: &Item, at: u64) -> Result<(), AllocError>
    ensures added { OnOk result (sites.new.items ≡ sites.old.items ++ site_marks at item.now) }
{
    match *item {
        Item::Site(id) => sites.push(Mark { id, at })?,
        Item::Plain(_)
        | Item::Label(_)
        | Item::BranchTo { .. }
        | Item::JumpTo { .. }
        | Item::AddressOf { .. } => {}
    }
    Ok(())
}

/// The marks of the sites among items.
pub(crate) fn mark_sites(alloc: Global, items: &[Item]) -> Result<Vec<Mark>, AllocError>
    requires { code_size items.now ≤ 2 ^ 30 }
    ensures { IfOk result (λ sites. sites.items ≡ sites_of items.now) }
{
    let mut sites = Vec::new(alloc);
    let mut at = 0;
    for item in items {
        add_site(&mut sites, item, at)?;
        at += item_size(item);
    }
    Ok(sites)
}
