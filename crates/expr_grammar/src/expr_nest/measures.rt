/// Which levels of a value count.
#[derive(Clone, Copy)]
pub enum Measure {
    /// All levels.
    Whole,
    /// Those within the predicates of steps, as in patterns (XSLT 2.0, 5.5.2): alternatives, steps
    /// and `//` count none.
    Predicates,
}
