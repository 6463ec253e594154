ghost use Rattle.std.specs.Prelude.{◌≡◌};
ghost use Rattle.query_options.specs.Options.{effect_of};

use xt_names::{ExprName, is_ascii_text};

/// What an option does.
/// (XQuery 1.0, 4.16)
#[derive(Clone, Copy)]
pub enum Effect {
    /// It says of which elements white space is stripped.
    Space,
    /// It leaves out the XML declaration of the output.
    Declaration,
    /// It is passed over.
    Nothing,
}

/// What an option of this name does.
/// (XQuery 1.0, 4.16)
#[tactic(auto, unfolding(crate::specs::Options::effect_of))]
pub fn effect_of(name: &ExprName) -> Effect
    ensures { result ≡ effect_of name.now }
{
    if !is_ascii_text(name.uri.as_str(), "urn:xslt2xq") {
        Effect::Nothing
    } else if is_ascii_text(name.local.as_str(), "space") {
        Effect::Space
    } else if is_ascii_text(name.local.as_str(), "declaration") {
        Effect::Declaration
    } else {
        Effect::Nothing
    }
}
