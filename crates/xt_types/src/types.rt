use crate::node_tests::Test;
use xt_names::AtomType;

/// How many items a type allows (XPath 2.0, 2.5.3, OccurrenceIndicator).
#[derive(Clone, Copy, PartialEq, Eq, Debug)]
pub enum Count {
    /// Exactly one, which has no mark.
    One,
    /// `?`: none or one.
    Opt,
    /// `*`: any number.
    Many,
    /// `+`: at least one.
    More,
}

/// The type of an item (XPath 2.0, 2.5.3).
#[derive(Drop, PartialEq, Eq)]
pub enum ItemType {
    /// `item()`.
    Any,
    /// A node that passes the kind test.
    Kind(Test),
    /// An atomic value of the type.
    Atomic(AtomType),
}

/// The type of a sequence (XPath 2.0, 2.5.3).
#[derive(Drop, PartialEq, Eq)]
pub enum SeqType {
    /// `empty-sequence()`.
    Empty,
    /// So many items of one type.
    Of(ItemType, Count),
}
