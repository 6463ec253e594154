use xt_names::{ExprName, Text};

/// A test of names (XPath 2.0, 3.2.1.2).
#[derive(Drop, PartialEq, Eq)]
pub enum NameTest {
    /// `*`: any name.
    Any,
    /// `p:*`: any name with this uri.
    Uri(Text),
    /// `*:n`: any name with this local part.
    Local(Text),
    /// `n` or `p:n`: this name.
    Exact(ExprName),
}

/// A node test (XPath 2.0, 3.2.1.2 and 2.5.3).
#[derive(Drop, PartialEq, Eq)]
pub enum Test {
    /// A name test: a node of the axis' principal kind, with such a name.
    Named(NameTest),
    /// `node()`.
    Node,
    /// `text()`.
    Text,
    /// `comment()`.
    Comment,
    /// `processing-instruction()`, or the same with a target.
    Pi(Option<Text>),
    /// `document-node()`.
    Doc,
    /// `element()`, which is `element(*)`, or the same with a name.
    Elem(NameTest),
    /// `attribute()`, which is `attribute(*)`, or the same with a name.
    Attr(NameTest),
}

/// Whether white space is stripped from the elements whose names pass the test (XSLT 2.0, 4.4).
#[derive(Drop, PartialEq, Eq)]
pub struct SpaceRule {
    pub strip: bool,
    pub test: NameTest,
}
