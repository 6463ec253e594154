// Where a text is refused.

/// Where a text fails to be a document.
#[derive(Clone, Copy, PartialEq, Eq, Debug)]
pub enum Spot {
    /// At this byte, from 0.
    At(u64),
    /// At an internal subset of a DOCTYPE.
    Subset,
    /// At the name of an encoding other than UTF-8.
    Encoding,
    /// At a reference to an entity that is not predefined.
    Entity,
    /// At a start tag inside of 2,000 open elements.
    Deep,
}
