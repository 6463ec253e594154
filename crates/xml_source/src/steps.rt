// How far a step of the reader came.

/// Why a text does not go on as a document.
#[derive(Clone, Copy, PartialEq, Eq)]
pub enum Stop {
    /// A start tag breaks a rule on names.
    Names,
    /// Too many elements are open.
    Deep,
    /// A reference by a name that is not predefined.
    Entity,
    /// An internal subset.
    Subset,
    /// An encoding other than UTF-8.
    Encoding,
    /// Anything else.
    Other,
}

/// What a step of the reader came to.
#[derive(Clone, Copy, PartialEq, Eq)]
pub enum Step {
    /// What was to be read is read.
    On,
    /// The text does not go on so.
    Stopped(Stop),
}
