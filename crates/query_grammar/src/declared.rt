// What a prolog declares, as it is written.
use expr_terms::{Raw, Token};
use xt_names::{List, Text};

/// A variable or a parameter: its name, and its type where one is written.
#[derive(Drop)]
pub struct Typed {
    pub name: Token,
    pub kind: Option<Raw>,
}

/// A declaration of a prolog (XQuery 1.0, 4).
#[derive(Drop)]
pub enum Declared {
    /// The version of the language.
    Version(Text),
    /// A prefix and its uri.
    Namespace(Token, Text),
    /// The default uri of elements.
    ElementDefault(Text),
    /// The default uri of functions.
    FunctionDefault(Text),
    /// Whether boundary white space is preserved.
    BoundarySpace(bool),
    /// A setter that says what holds anyway.
    Setter,
    /// An option and its text.
    Setting(Token, Text),
    /// A global variable and its initialiser; None where it is external.
    Variable(Typed, Option<Raw>),
    /// A function: its name, parameters, type and body.
    Function(Token, List<Typed>, Option<Raw>, Raw),
}

/// A function before its body: its name, its parameters, and its type where one is written.
#[derive(Drop)]
pub struct Signature {
    pub name: Token,
    pub params: List<Typed>,
    pub kind: Option<Raw>,
}

/// A query: its declarations in order and its body.
#[derive(Drop)]
pub struct RawQuery {
    pub declared: List<Declared>,
    pub body: Raw,
}

/// What the two words at the front of a declaration tell.
#[derive(Clone, Copy)]
pub enum Opening {
    /// `xquery version`.
    Version,
    /// `declare namespace`.
    Namespace,
    /// `declare default`.
    Default,
    /// `declare boundary-space`.
    BoundarySpace,
    /// `declare ordering`.
    Ordering,
    /// `declare copy-namespaces`.
    CopyNamespaces,
    /// `declare option`.
    Setting,
    /// `declare variable`.
    Variable,
    /// `declare function`.
    Function,
}
