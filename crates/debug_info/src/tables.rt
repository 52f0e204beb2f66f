//! The debug tables of an image.

ghost use Rattle.std.specs.Prelude.{SomeIff, ◌≡◌, slice_get};
ghost use Rattle.std.specs.Option.{option_map};
ghost use Rattle.debug_info.specs.Tables.{IsTables, no_tables};
ghost use Rattle.debug_info.specs.Texts.{bytes_of, tables_of};
ghost use Rattle.debug_info.specs.Places.{place_of};

use crate::rows::{FunRow, Site, SiteRow, VarRow};
use crate::rules::are_tables;
use std::alloc::Global;
use std::marker::Model;

/// The debug tables: texts, sites, functions and variables.
///
/// The addresses of sites and of functions rise strictly, each number of a text is below the count
/// of texts, a text has at most 1,048,576 bytes, and the tables at most 268,435,456 as they are
/// written.
#[derive(Debug, Drop)]
pub struct Debug {
    texts: Vec<String>,
    sites: Vec<SiteRow>,
    functions: Vec<FunRow>,
    variables: Vec<VarRow>,
}

impl Model for Debug {
    ghost use Rattle.debug_info.specs.Tables.{Tables, IsTables};
    ghost use Rattle.debug_info.specs.Texts.{tables_of};

    ghost Value = { Tables };

    ghost view = { λ d. tables_of d.texts.items d.sites.items d.functions.items d.variables.items };

    ghost invariant = { λ d. IsTables (tables_of d.texts.items d.sites.items d.functions.items d.variables.items) };
}

// The last of the rows whose address isn't above the given one, sought from the end.
fn place_in(rows: &[SiteRow], pc: u64) -> Option<Site>
    ensures { result ≡ place_of rows.now pc }
{
    let mut rest = rows;
    while let Some((row, before)) = rest.split_last() {
        if row.pc <= pc {
            return Some(Site {
                place: row.place,
                text: row.text,
            });
        }
        rest = before;
    }
    None
}

impl Debug {
    /// Tables without a row.
    #[tactic(auto, unfolding(crate::specs::Spelling::tables_bytes))]
    pub fn empty(alloc: Global) -> Debug
        ensures { result ≡ no_tables }
    {
        Debug {
            texts: Vec::new(alloc),
            sites: Vec::new(alloc),
            functions: Vec::new(alloc),
            variables: Vec::new(alloc),
        }
    }

    /// Tables of these rows, which keep the rules.
    pub fn new(
        texts: Vec<String>,
        sites: Vec<SiteRow>,
        functions: Vec<FunRow>,
        variables: Vec<VarRow>,
    ) -> Debug
        requires { IsTables (tables_of texts.items sites.items functions.items variables.items) }
        ensures { result ≡ tables_of texts.items sites.items functions.items variables.items }
    {
        Debug {
            texts,
            sites,
            functions,
            variables,
        }
    }

    /// Tables of these rows, None exactly where they break a rule.
    pub fn checked(
        texts: Vec<String>,
        sites: Vec<SiteRow>,
        functions: Vec<FunRow>,
        variables: Vec<VarRow>,
    ) -> Option<Debug>
        ensures { SomeIff result (IsTables (tables_of texts.items sites.items functions.items variables.items)) (tables_of texts.items sites.items functions.items variables.items) }
    {
        if are_tables(&texts, &sites, &functions, &variables) {
            Some(Debug {
                texts,
                sites,
                functions,
                variables,
            })
        } else {
            None
        }
    }

    /// The texts, each with its number as its index.
    pub fn texts(&self) -> &[String]
        ensures texts { bytes_of result.now ≡ self.now.texts }
        ensures rules { IsTables self.now }
    {
        &self.texts
    }

    /// The sites, by rising addresses.
    pub fn sites(&self) -> &[SiteRow]
        ensures { result.now ≡ self.now.sites }
    {
        &self.sites
    }

    /// The functions, by rising addresses.
    pub fn functions(&self) -> &[FunRow]
        ensures { result.now ≡ self.now.functions }
    {
        &self.functions
    }

    /// The variables.
    pub fn variables(&self) -> &[VarRow]
        ensures { result.now ≡ self.now.variables }
    {
        &self.variables
    }

    /// The place and the text of an address: those of the last site whose address isn't above it,
    /// None exactly where there is none. It takes time in proportion to the sites behind it.
    pub fn place_of(&self, pc: u64) -> Option<Site>
        ensures { result ≡ place_of self.now.sites pc }
    {
        place_in(&self.sites, pc)
    }

    /// The text with this number, None exactly where the number isn't below the count of texts.
    pub fn text(&self, n: u32) -> Option<&str>
        ensures { option_map (λ s. s.now) result ≡ slice_get self.now.texts n }
    {
        match self.texts.get(n as usize) {
            Some(text) => Some(text.as_str()),
            None => None,
        }
    }
}
