//! Sketches of trees: what a form is, its parts being still forms.

use declarations::Declared;
use expansion::{Binary, Calling, Leaf, Many, Reach};
use lisp_base::{Specs, SymId, TypeSpec, Val, Vals};

/// A node of one part.
#[derive(Drop)]
pub enum Unary {
    SettingLocal(u32),
    SettingGlobal(SymId),
    SettingFunction(SymId),
    /// Tells whether the part's value is of the type.
    Testing(TypeSpec),
    /// The part's value must be of the type.
    Checking(TypeSpec),
    /// Leaves a block.
    Returning(u32),
}

/// A variable that a form binds, the types that the form declares of it, and whether it declares
/// it special.
#[derive(Drop)]
pub struct Binder {
    pub variable: SymId,
    pub types: Specs,
    pub special: bool,
}

/// A variable with the form for its value.
#[derive(Drop)]
pub struct Initial {
    pub binder: Binder,
    pub value: Val,
}

/// An optional parameter, the form for its value where no argument is given, and the variable that
/// tells whether one was given.
#[derive(Drop)]
pub struct Optional {
    pub binder: Binder,
    pub default: Val,
    pub supplied: Option<Binder>,
}

/// What a form is, its parts being still forms.
#[cycle(sketch)]
#[derive(Drop)]
pub enum Sketch {
    /// This form.
    Form(Val),
    Leaf(Leaf),
    One(Unary, Box<Sketch>),
    Two(Binary, Box<Sketch>, Box<Sketch>),
    Choice(Box<Sketch>, Box<Sketch>, Box<Sketch>),
    Many(Many, Vec<Sketch>),
    Calling(Calling, Box<Sketch>, Vec<Sketch>),
    /// Bindings of variables, all values before all bindings.
    Bind(Vec<Initial>, Box<Sketch>),
    /// A variable that is set to the value of a form, with its checks.
    Assign(SymId, Val),
    /// A function as a value.
    Function(Function),
    /// Local functions, whose definitions are forms.
    Functions(Reach, Vals, Box<Sketch>),
    /// A local function of this name as a value, which may call itself.
    Recursive(SymId, Function),
    Block(SymId, Box<Sketch>),
    /// Tags and forms.
    Tagbody(Vals),
    /// Within declarations of variables that the form doesn't bind.
    Within(Declared, Box<Sketch>),
}

/// A function: its parameters in the order in which they are bound, and its body.
#[cycle(sketch)]
#[derive(Drop)]
pub struct Function {
    pub required: Vec<Binder>,
    pub optional: Vec<Optional>,
    pub rest: Option<Binder>,
    pub body: Box<Sketch>,
}

/// What is to be done with a form.
#[derive(Drop)]
pub enum Plan {
    /// This form stands for it.
    Instead(Val),
    /// This form stands for it, within declarations.
    DeclaredAround(Declared, Val),
    /// It gives a node.
    Makes(Sketch),
}
