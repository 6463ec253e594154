use xt_names::Text;

/// A name as it is written: `local`, or `prefix:local`; without a prefix the prefix is empty.
#[derive(Drop)]
pub struct Written {
    pub prefix: Text,
    pub local: Text,
}

/// A name test as it is written (XPath 2.0, 3.2.1.2).
#[derive(Drop)]
pub enum WrittenTest {
    /// `*`.
    Any,
    /// `p:*`.
    Prefix(Text),
    /// `*:n`.
    Local(Text),
    /// `n` or `p:n`.
    Exact(Written),
}
