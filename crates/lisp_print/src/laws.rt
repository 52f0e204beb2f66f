// Laws of what is printed, for the proofs of the crates above.
ghost use Rattle.lisp_base.specs.Shown.{SameValue};
ghost use Rattle.lisp_print.specs.declared.printing.Limits.{Limits};
ghost use Rattle.lisp_print.specs.Printing.{word_text};
ghost use Rattle.std.specs.Prelude.{◌≡◌};

use lisp_base::View;

/// The same value prints the same, whatever it is seen in.
pub fn same_values_print_the_same<A: View, B: View>()
    ensures { (a : A) (b : B) (v : A.Word) (w : B.Word) (limits : Limits) → SameValue (A.shown a) v (B.shown b) w → word_text limits (A.shown a) v ≡ word_text limits (B.shown b) w }
{}
