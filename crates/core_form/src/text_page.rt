// A text that grows word by word, and the names that are bound where it stands.
ghost use Rattle.std.specs.Prelude.{◌≡◌, ◌++◌, ◌≤◌, ◌∷◌, [], false, take, length, codes, OnOk};
ghost use Rattle.std.specs.String.{string_bytes};
ghost use Rattle.core_form.specs.TextPage.{page_of, make_page, put, opened, closed, bound, left_with, gap_text};
ghost use Rattle.core_form.specs.TextNames.{known, name_of};

use lisp_base::Val;
use std::alloc::{AllocError, Global};

/// A number with the name of the variable, function, block or tag that has it.
#[derive(Clone, Copy)]
pub(crate) struct Known {
    pub(crate) number: u32,
    pub(crate) name: Val,
}

/// A text that is being written.
#[derive(Drop)]
pub(crate) struct Page {
    /// What is written.
    pub(crate) text: String,
    /// Whether a space goes before the next word.
    pub(crate) gap: bool,
    /// What is bound where the text stands, the innermost last.
    pub(crate) names: Vec<Known>,
}

impl Page {
    /// No text, and no names.
    pub(crate) fn new(alloc: Global) -> Self
        ensures { page_of result ≡ make_page [] false [] }
    {
        Page {
            text: String::new(alloc),
            gap: false,
            names: Vec::new(alloc),
        }
    }

    /// Writes a space where one goes before the next word.
    fn separate(&mut self) -> Result<(), AllocError>
        ensures { OnOk result (page_of self.new ≡ make_page ((page_of self.old).text ++ gap_text self.old.gap) self.old.gap self.old.names.items) }
    {
        if self.gap {
            self.text.push_str(" ")?;
        }
        Ok(())
    }

    /// Writes a word.
    pub(crate) fn word(&mut self, word: &str) -> Result<(), AllocError>
        ensures { OnOk result (page_of self.new ≡ put (page_of self.old) word.now) }
    {
        self.separate()?;
        self.text.push_str(word)?;
        self.gap = true;
        Ok(())
    }

    /// Begins a list.
    pub(crate) fn open(&mut self) -> Result<(), AllocError>
        ensures { OnOk result (page_of self.new ≡ opened (page_of self.old)) }
    {
        self.separate()?;
        self.text.push_str("(")?;
        self.gap = false;
        Ok(())
    }

    /// Ends a list.
    pub(crate) fn close(&mut self) -> Result<(), AllocError>
        ensures { OnOk result (page_of self.new ≡ closed (page_of self.old)) }
    {
        self.text.push_str(")")?;
        self.gap = true;
        Ok(())
    }

    /// Ends a line.
    pub(crate) fn end_line(&mut self) -> Result<(), AllocError>
        ensures { OnOk result (page_of self.new ≡ make_page ((page_of self.old).text ++ codes "\n") false self.old.names.items) }
    {
        self.text.push_str("\n")?;
        self.gap = false;
        Ok(())
    }

    /// Binds one name more.
    pub(crate) fn know(&mut self, number: u32, name: Val) -> Result<(), AllocError>
        ensures { OnOk result (page_of self.new ≡ bound (page_of self.old) (known number name ∷ [])) }
    {
        self.names.push(Known { number, name })?;
        Ok(())
    }

    /// Leaves only so many of the names.
    pub(crate) fn forget(&mut self, count: usize)
        ensures { page_of self.new ≡ left_with (page_of self.old) (take count self.old.names.items) }
    {
        self.names.truncate(count);
    }

    /// How many names are bound.
    pub(crate) fn known(&self) -> usize
        ensures { result ≡ length self.now.names.items }
    {
        self.names.len()
    }

    /// What is bound to a number, the innermost of several.
    pub(crate) fn find(&self, number: u32) -> Option<Known>
        ensures { result ≡ name_of self.now.names.items number }
    {
        let mut found = None;
        for known in &self.names {
            if known.number == number {
                found = Some(*known);
            }
        }
        found
    }
}
