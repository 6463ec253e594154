// Where a reading of a query's text stands.

/// The quotes that the value of an attribute stands in.
#[derive(Clone, Copy)]
pub enum Quote {
    Single,
    Double,
}

/// What is open where a reading stands, but for the whole query (XQuery 1.0, 3.7.1).
#[derive(Clone, Copy)]
pub enum Context {
    /// Braces: tokens of expressions stand in them.
    Enclosed,
    /// A tag, after its name.
    Tag,
    /// The value of an attribute.
    Attribute(Quote),
    /// An element, between its start tag and its end tag.
    Content,
}

/// The token that was read last, where it tells what may come next.
#[derive(Clone, Copy)]
pub enum Before {
    /// Digits, directly after which no name begins (XPath 2.0, A.2.4).
    Integer,
    /// `/`, after which `<` begins an element where a name follows it (XQuery 1.0, 3.2).
    Slash,
    Other,
}

/// What a token does to what is open.
#[derive(Clone, Copy)]
pub enum Change {
    Stays,
    /// It opens this.
    Enters(Context),
    /// It closes what is open innermost and opens this.
    Becomes(Context),
    /// It closes what is open innermost.
    Leaves,
}
