/// Whose rules the content follows.
#[derive(Clone, Copy, PartialEq, Eq, Debug)]
pub enum Duplicates {
    /// Those of stylesheets: of attributes with the same name the last is kept (XSLT 2.0, 5.7.1).
    KeepLast,
    /// Those of queries: two attributes with the same name are an error (XQuery 1.0, 3.7.1.3).
    Refuse,
}

/// What the content is that of.
#[derive(Clone, Copy, PartialEq, Eq, Debug)]
pub enum Holder {
    Element,
    Document,
}
