//! The kinds of errors.
ghost use Rattle.std.specs.Prelude.{◌≡◌};
ghost use Rattle.ending_texts.specs.Errors.{kind_of, name_of};

/// A kind of error, with which a machine ends.
#[derive(Clone, Copy)]
pub(crate) enum ErrorKind {
    /// A value isn't of the type that is expected.
    Type,
    /// An index isn't below the length.
    Index,
    /// The result of an operation isn't an integer of the language.
    Overflow,
    /// A divisor is 0.
    ZeroDivide,
    /// A symbol has no value.
    Unbound,
    /// A symbol has no function.
    Undefined,
    /// A function is called with a wrong number of arguments.
    Arguments,
    /// The target of an exit isn't there.
    Control,
    /// The input has ended.
    EndOfFile,
    /// The program signals an error of its own.
    Simple,
    /// A number that is no kind's. A machine doesn't end with it.
    Other,
}

impl ErrorKind {
    /// The kind with this number.
    pub(crate) fn of(number: u32) -> ErrorKind
        ensures { result ≡ kind_of number }
    {
        match number {
            1 => ErrorKind::Type,
            2 => ErrorKind::Index,
            3 => ErrorKind::Overflow,
            4 => ErrorKind::ZeroDivide,
            5 => ErrorKind::Unbound,
            6 => ErrorKind::Undefined,
            7 => ErrorKind::Arguments,
            8 => ErrorKind::Control,
            9 => ErrorKind::EndOfFile,
            10 => ErrorKind::Simple,
            _ => ErrorKind::Other,
        }
    }

    /// What the kind is called.
    pub(crate) fn name(self) -> &'static str
        ensures { result.now ≡ name_of self }
    {
        match self {
            ErrorKind::Type | ErrorKind::Index => "TYPE-ERROR",
            ErrorKind::Overflow => "INTEGER-OVERFLOW",
            ErrorKind::ZeroDivide => "DIVISION-BY-ZERO",
            ErrorKind::Unbound => "UNBOUND-VARIABLE",
            ErrorKind::Undefined => "UNDEFINED-FUNCTION",
            ErrorKind::Arguments => "PROGRAM-ERROR",
            ErrorKind::Control => "CONTROL-ERROR",
            ErrorKind::EndOfFile => "END-OF-FILE",
            ErrorKind::Simple => "SIMPLE-ERROR",
            ErrorKind::Other => "ERROR",
        }
    }
}
