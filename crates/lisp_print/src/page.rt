// A text that grows, and what is open in it.
ghost use Rattle.lisp_base.specs.Shown.{Shown};
ghost use Rattle.lisp_print.specs.Printing.{element, followed};
ghost use Rattle.lisp_print.specs.Progress.{begun, closed, cost, elements_at, finish, last_text, list_at, object_at, open_cost, open_text, unfinished};
ghost use Rattle.std.specs.Prelude.{◌≡◌, ◌+◌, ◌-◌, ◌<◌, ◌≤◌, ◌++◌, ◌∷◌, OnOk, codes, length, suc, []};
ghost use Rattle.std.specs.String.{string_bytes};

use crate::atoms::{ends_list, write_atom};
use crate::printing::Limits;
use lisp_base::{Shape, View};
use std::alloc::{AllocError, Global};
use std::collections::LinkedList;

/// A list or vector that is being printed.
#[derive(Clone, Copy)]
pub(crate) enum Open<W> {
    /// A list of which this many elements are printed, and the CDR of the last one, or the list itself.
    List { rest: W, done: u32 },
    /// A vector of which this many elements are printed.
    Vector { vector: W, done: u32 },
    /// A list whose last CDR is printed.
    Ended,
}

/// What is printed so far.
#[derive(Drop)]
pub(crate) struct Page<W: Copy> {
    /// The text.
    pub(crate) text: String,
    /// What is open, the innermost first.
    pub(crate) parts: LinkedList<Open<W>>,
    /// How many objects may still be printed.
    pub(crate) left: u32,
}

impl<W: Copy> Page<W> {
    /// An empty text.
    pub(crate) fn new(alloc: Global, limits: Limits) -> Page<W>
        ensures text { string_bytes result.text ≡ [] }
        ensures parts { result.parts ≡ [] }
        ensures left { result.left ≡ limits.total }
    {
        Page {
            text: String::new(alloc),
            parts: LinkedList::new(alloc),
            left: limits.total,
        }
    }

    /// Opens a list or vector, or prints `#` where as many are open as the level allows.
    fn group<V: View<Word = W>>(
        &mut self,
        view: &V,
        opening: &str,
        part: Open<W>,
        limits: Limits,
    ) -> Result<(), AllocError>
        ensures text { OnOk result (string_bytes self.new.text ++ unfinished limits (V.shown view.now) self.new.left self.new.parts ≡ string_bytes self.old.text ++ begun limits (V.shown view.now) self.old.left opening.now part self.old.parts) }
        ensures cost { OnOk result (cost limits self.new.left self.new.parts ≤ cost limits self.old.left self.old.parts + open_cost limits part) }
        ensures left { self.new.left ≡ self.old.left }
    {
        if self.parts.len() >= limits.level as usize {
            return self.text.push('#');
        }
        self.text.push_str(opening)?;
        self.parts.push_front(part)?;
        Ok(())
    }

    /// Prints an object that has no parts, or opens it.
    pub(crate) fn object<V: View<Word = W>>(
        &mut self,
        view: &V,
        w: W,
        limits: Limits,
    ) -> Result<(), AllocError>
        requires { self.old.left ≤ limits.total }
        ensures text { OnOk result (string_bytes self.new.text ++ unfinished limits (V.shown view.now) self.new.left self.new.parts ≡ string_bytes self.old.text ++ finish limits (V.shown view.now) (object_at limits (V.shown view.now) (length self.old.parts) self.old.left w) self.old.parts) }
        ensures cost { OnOk result (cost limits self.new.left self.new.parts ≤ cost limits self.old.left self.old.parts) }
        ensures left { self.new.left ≤ self.old.left }
    {
        if self.left == 0 {
            return self.text.push_str("...");
        }
        self.left -= 1;
        match view.shape(w) {
            Shape::Cons(_, _) => self.group(view, "(", Open::List { rest: w, done: 0 }, limits),
            Shape::Vector(_) => self.group(view, "#(", Open::Vector { vector: w, done: 0 }, limits),
            shape => write_atom(&mut self.text, view, w, shape),
        }
    }

    /// Prints an element after so many others, fewer than the length, with what stands behind it open.
    fn element<V: View<Word = W>>(
        &mut self,
        view: &V,
        w: W,
        done: u32,
        behind: Open<W>,
        limits: Limits,
    ) -> Result<(), AllocError>
        requires left { self.old.left ≤ limits.total }
        requires more { done < limits.length }
        requires behind { open_cost limits behind ≡ limits.length - (done + 1) + 2 }
        ensures text { OnOk result (string_bytes self.new.text ++ unfinished limits (V.shown view.now) self.new.left self.new.parts ≡ string_bytes self.old.text ++ closed limits (V.shown view.now) (element limits done self.old.left (followed (object_at limits (V.shown view.now) (suc (length self.old.parts)) self.old.left w) (λ m. open_text limits (V.shown view.now) (suc (length self.old.parts)) m behind))) self.old.parts) }
        ensures cost { OnOk result (cost limits self.new.left self.new.parts < cost limits self.old.left self.old.parts + (limits.length - done + 2)) }
        ensures left { self.new.left ≤ self.old.left }
    {
        if done > 0 {
            self.text.push(' ')?;
        }
        self.parts.push_front(behind)?;
        self.object(view, w, limits)
    }

    /// Cuts off a list or vector.
    fn cut(&mut self) -> Result<(), AllocError>
        ensures text { OnOk result (string_bytes self.new.text ≡ string_bytes self.old.text ++ codes " ...)") }
        ensures parts { self.new.parts ≡ self.old.parts }
        ensures left { self.new.left ≡ self.old.left }
    {
        self.text.push_str(" ...)")
    }

    /// Prints what follows so many elements of a list: an element, the end, or the last CDR.
    fn list<V: View<Word = W>>(
        &mut self,
        view: &V,
        rest: W,
        done: u32,
        limits: Limits,
    ) -> Result<(), AllocError>
        requires { self.old.left ≤ limits.total }
        ensures text { OnOk result (string_bytes self.new.text ++ unfinished limits (V.shown view.now) self.new.left self.new.parts ≡ string_bytes self.old.text ++ closed limits (V.shown view.now) (list_at limits (V.shown view.now) (suc (length self.old.parts)) done self.old.left rest) self.old.parts) }
        ensures cost { OnOk result (cost limits self.new.left self.new.parts < cost limits self.old.left self.old.parts + (limits.length - done + 2)) }
        ensures left { self.new.left ≤ self.old.left }
    {
        match view.shape(rest) {
            Shape::Cons(car, cdr) => {
                if done >= limits.length {
                    return self.cut();
                }
                let behind = Open::List {
                    rest: cdr,
                    done: done + 1,
                };
                self.element(view, car, done, behind, limits)
            }
            shape => self.last(view, rest, shape, limits),
        }
    }

    /// Ends a list, with a dot and the last CDR where this is other than NIL.
    fn last<V: View<Word = W>>(
        &mut self,
        view: &V,
        rest: W,
        shape: Shape<W>,
        limits: Limits,
    ) -> Result<(), AllocError>
        requires left { self.old.left ≤ limits.total }
        requires shape { shape ≡ (V.shown view.now).shape rest }
        ensures text { OnOk result (string_bytes self.new.text ++ unfinished limits (V.shown view.now) self.new.left self.new.parts ≡ string_bytes self.old.text ++ closed limits (V.shown view.now) (last_text limits (V.shown view.now) (suc (length self.old.parts)) self.old.left rest shape) self.old.parts) }
        ensures cost { OnOk result (cost limits self.new.left self.new.parts < cost limits self.old.left self.old.parts + 2) }
        ensures left { self.new.left ≤ self.old.left }
    {
        if ends_list(view, rest, shape) {
            return self.text.push(')');
        }
        self.text.push_str(" . ")?;
        self.parts.push_front(Open::Ended)?;
        self.object(view, rest, limits)
    }

    /// Prints what follows so many elements of a vector: an element or the end.
    fn vector<V: View<Word = W>>(
        &mut self,
        view: &V,
        vector: W,
        done: u32,
        limits: Limits,
    ) -> Result<(), AllocError>
        requires { self.old.left ≤ limits.total }
        ensures text { OnOk result (string_bytes self.new.text ++ unfinished limits (V.shown view.now) self.new.left self.new.parts ≡ string_bytes self.old.text ++ closed limits (V.shown view.now) (elements_at limits (V.shown view.now) (suc (length self.old.parts)) done self.old.left vector) self.old.parts) }
        ensures cost { OnOk result (cost limits self.new.left self.new.parts < cost limits self.old.left self.old.parts + (limits.length - done + 2)) }
        ensures left { self.new.left ≤ self.old.left }
    {
        match view.element(vector, done) {
            Some(item) => {
                if done >= limits.length {
                    return self.cut();
                }
                let behind = Open::Vector {
                    vector,
                    done: done + 1,
                };
                self.element(view, item, done, behind, limits)
            }
            None => self.text.push(')'),
        }
    }

    /// Goes on with the innermost part that is open.
    pub(crate) fn go_on<V: View<Word = W>>(
        &mut self,
        view: &V,
        part: Open<W>,
        limits: Limits,
    ) -> Result<(), AllocError>
        requires { self.old.left ≤ limits.total }
        ensures text { OnOk result (string_bytes self.new.text ++ unfinished limits (V.shown view.now) self.new.left self.new.parts ≡ string_bytes self.old.text ++ unfinished limits (V.shown view.now) self.old.left (part ∷ self.old.parts)) }
        ensures cost { OnOk result (cost limits self.new.left self.new.parts < cost limits self.old.left (part ∷ self.old.parts)) }
        ensures left { self.new.left ≤ self.old.left }
    {
        match part {
            Open::List { rest, done } => self.list(view, rest, done, limits),
            Open::Vector { vector, done } => self.vector(view, vector, done, limits),
            Open::Ended => self.text.push(')'),
        }
    }
}
