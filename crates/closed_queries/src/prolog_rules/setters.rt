use xt_names::{Binding, Text};

/// A declaration of the first part of a prolog (XQuery 1.0, 4).
#[derive(Drop)]
pub enum Setter {
    /// `declare namespace`.
    Namespace(Binding),
    /// `declare default element namespace`.
    ElementDefault(Text),
    /// `declare default function namespace`.
    FunctionDefault(Text),
    /// `declare boundary-space`; true where it is `preserve`.
    BoundarySpace(bool),
    /// Another setter, which may be repeated.
    Other,
}
