use xt_syntax::Prefixes;

/// What is known where an expression stands.
#[derive(Drop)]
pub struct Setting {
    /// How prefixes and names without prefix are resolved.
    pub prefixes: Prefixes,
    /// Whether boundary white space is stripped (XQuery 1.0, 4.3).
    pub strip: bool,
}
