// How the nodes that hold lists, and functions, are read. The function does nothing: a call of it gives its laws.
ghost use Rattle.core_form.specs.ListReading.{ReadsLet, ReadsLabels, ReadsCallLocal, ReadsCallGlobal, ReadsFuncall, ReadsApply, ReadsMvCall, ReadsTagbody, ReadsValues, ReadsLambda};

/// The nodes that bind, call, or hold tags or values, and functions, are read by the lists that
/// they hold.
pub fn reads_nodes()
    ensures bindings { ReadsLet }
    ensures functions { ReadsLabels }
    ensures local { ReadsCallLocal }
    ensures global { ReadsCallGlobal }
    ensures funcall { ReadsFuncall }
    ensures apply { ReadsApply }
    ensures with_values { ReadsMvCall }
    ensures items { ReadsTagbody }
    ensures values { ReadsValues }
    ensures lambda { ReadsLambda }
{}
