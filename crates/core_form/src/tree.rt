// The tree of a program after expansion.
use lisp_base::{Place, Primitive, Specs, SymId, TypeSpec, Val};

/// A node: a form with the place at which it stands.
#[cycle(core)]
#[derive(Debug, Drop)]
pub struct Core {
    pub place: Place,
    pub form: Form,
}

/// What a node does. Lexical variables, local functions, blocks and tags have numbers, from one
/// count for each top-level form.
#[cycle(core)]
#[derive(Debug, Drop)]
pub enum Form {
    /// Gives a constant.
    Quote(Val),
    /// The value of a lexical variable.
    Local(u32),
    /// Gives a lexical variable the value of the form.
    SetLocal(u32, Box<Core>),
    /// The global value of a symbol.
    Global(SymId),
    /// Gives a symbol a global value.
    SetGlobal(SymId, Box<Core>),
    /// The second part where the first gives a true value, else the third.
    If(Box<Core>, Box<Core>, Box<Core>),
    /// The parts one after another; the last gives the values.
    Progn(Vec<Core>),
    /// Binds variables to the values of forms, all of which are evaluated before, for a body.
    Let(Vec<Binding>, Box<Core>),
    /// Makes a function.
    Lambda(Lambda),
    /// Defines local functions that may call one another, for a body.
    Labels(Vec<Definition>, Box<Core>),
    /// Calls a local function.
    CallLocal(u32, Vec<Core>),
    /// Calls the global function of a symbol.
    CallGlobal(SymId, Vec<Core>),
    /// Calls the function that the first form gives.
    Funcall(Box<Core>, Vec<Core>),
    /// The same, the last argument being a list of further arguments.
    Apply(Box<Core>, Vec<Core>),
    /// The same, with all values of all forms as arguments.
    MvCall(Box<Core>, Vec<Core>),
    /// A local function as a value.
    FunLocal(u32),
    /// The global function of a symbol.
    FunGlobal(SymId),
    /// Gives a symbol a global function.
    SetFun(SymId, Box<Core>),
    /// A primitive on the first values of its arguments.
    Primitive(Primitive, Vec<Core>),
    /// Whether the first value of the form is of the type.
    Is(TypeSpec, Box<Core>),
    /// The values of the form, of which the first must be of the type.
    The(TypeSpec, Box<Core>),
    /// A form that a `ReturnFrom` may leave: the block's number and name.
    Block(u32, SymId, Box<Core>),
    /// Leaves a block with the values of the form.
    ReturnFrom(u32, Box<Core>),
    /// Forms one after another, with tags between them at which a `Go` goes on.
    Tagbody(Vec<Item>),
    /// Goes on at a tag.
    Go(u32),
    /// A tag, and a form that a `Throw` to this tag leaves.
    Catch(Box<Core>, Box<Core>),
    /// Leaves the newest catch of the tag that the first form gives, with the values of the second.
    Throw(Box<Core>, Box<Core>),
    /// A form, and one that is evaluated when the first has ended or is left.
    Unwind(Box<Core>, Box<Core>),
    /// The first values of the forms, together.
    Values(Vec<Core>),
    /// The values of the first form, after the second was evaluated too.
    MvProg1(Box<Core>, Box<Core>),
}

/// A variable that a node binds.
#[derive(Clone, Copy, PartialEq, Eq, Debug)]
pub enum Variable {
    /// A lexical variable with its number and its name.
    Lexical { number: u32, name: SymId },
    /// The global value of a symbol, while the body is evaluated.
    Special(SymId),
}

/// A variable with the types that are declared of it.
///
/// Where a function binds it each type is a check at its entry. A `Let` has its checks on the
/// forms that give the values.
#[derive(Debug, Drop)]
pub struct Parameter {
    pub variable: Variable,
    pub types: Specs,
}

/// A variable of a `Let` with the form that gives its value.
#[cycle(core)]
#[derive(Debug, Drop)]
pub struct Binding {
    pub parameter: Parameter,
    pub value: Core,
}

/// An optional parameter, the form for its value where no argument is given, and the variable
/// that tells whether one was given.
#[cycle(core)]
#[derive(Debug, Drop)]
pub struct Optional {
    pub parameter: Parameter,
    pub default: Core,
    pub supplied: Option<Parameter>,
}

/// A function: its parameters, bound in this order, and its body.
#[cycle(core)]
#[derive(Debug, Drop)]
pub struct Lambda {
    /// Counts the functions of the top-level form from 0, each before those inside it.
    pub number: u32,
    pub required: Vec<Parameter>,
    pub optional: Vec<Optional>,
    pub rest: Option<Parameter>,
    pub body: Box<Core>,
}

/// A local function: the place of its definition, its number, its name, and what it does.
#[cycle(core)]
#[derive(Debug, Drop)]
pub struct Definition {
    pub place: Place,
    pub number: u32,
    pub name: SymId,
    pub lambda: Lambda,
}

/// A part of a `Tagbody`.
#[cycle(core)]
#[derive(Debug, Drop)]
pub enum Item {
    /// A tag with its number and its name, a symbol or an integer.
    Tag(u32, Val),
    Step(Core),
}

/// A top-level form of a program, with the number of its nodes.
#[derive(Debug, Drop)]
pub struct TopForm {
    pub place: Place,
    pub core: Core,
    pub nodes: u32,
}
