// The values that attributes, names and sorts of instructions hold.
use xt_names::{Binding, List, Name, Shared, Text};

/// A part of an attribute value template (XSLT 2.0, 5.6).
#[derive(Drop)]
pub enum AvtPart<E> {
    /// Characters, in which each doubled brace is single.
    Chars(Text),
    /// `{ a }`.
    Code(Shared<E>),
}

/// An attribute value template (XSLT 2.0, 5.6): its parts in order.
pub type Avt<E> = List<AvtPart<E>>;

/// A name that is computed when the instruction runs (XSLT 2.0, 11.2 and 11.3).
#[derive(Drop)]
pub struct AvtName<E> {
    /// The text that gives the name, with its prefix if it has one.
    pub text: Shared<Avt<E>>,
    /// The namespaces in scope where the instruction stands; they resolve the prefix.
    pub scope: Shared<List<Binding>>,
    /// The uri of a name without prefix; an attribute has none, and the text is empty.
    pub default_uri: Text,
}

/// An attribute of a literal result element (XSLT 2.0, 11.1.2).
#[derive(Drop)]
pub struct LiteralAttr<E> {
    /// Its name.
    pub name: Name,
    /// Its value.
    pub value: Shared<Avt<E>>,
}

/// A sort key (XSLT 2.0, 13.1).
#[derive(Drop)]
pub struct Sort<E> {
    /// What each item is sorted by.
    pub key: Shared<E>,
    /// Whether the greatest key comes first.
    pub descending: bool,
    /// Whether the keys are compared as numbers or, where it is false, as texts; None without `data-type`.
    pub number: Option<bool>,
}

/// What puts items into one group (XSLT 2.0, 14.3).
#[derive(Drop)]
pub enum Grouping<E, P> {
    /// `group-by`: an equal key, of which an item may have several.
    By(Shared<E>),
    /// `group-adjacent`: an equal key, item after item.
    Adjacent(Shared<E>),
    /// `group-starting-with`: a group begins at each node that matches one of the patterns.
    Starting(Shared<List<P>>),
}

/// The mode in which templates are applied (XSLT 2.0, 6.5).
#[derive(Clone, Copy, PartialEq, Eq, Debug)]
pub enum ModeUse {
    /// The mode with this number among the modes of the stylesheet; 0 is the default mode.
    Number(u32),
    /// `#current`.
    Current,
}
