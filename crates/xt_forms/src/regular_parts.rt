// Rules of regular expressions that look at no expression.
ghost use Rattle.std.specs.Prelude.{◌≡◌, map};
ghost use Rattle.xt_forms.specs.Regular.{has_no_child, is_bare_name, is_cast_name, is_cast_type, is_regular_kind, part_facts_of};

use crate::named_texts::is_one_of;
use xt_names::{AtomType, ExprName, Name, is_ascii_text};
use xt_syntax::xt_types::is_regular_type;
use xt_syntax::{Part, SeqType};

/// Whether an atom may be cast to the type.
#[tactic(auto, unfolding(crate::specs::Regular::is_cast_type))]
pub(crate) fn is_cast_type(kind: AtomType) -> bool
    ensures { result ≡ is_cast_type kind }
{
    match kind {
        AtomType::Str | AtomType::Untyped | AtomType::Int | AtomType::Bool => true,
        AtomType::QName | AtomType::Any => false,
    }
}

/// Whether a call of the name would be a cast.
#[tactic(auto, unfolding(crate::specs::Regular::is_cast_name))]
pub(crate) fn is_cast_name(name: &ExprName) -> bool
    ensures { result ≡ is_cast_name name.now }
{
    is_ascii_text(name.uri.as_str(), "http://www.w3.org/2001/XMLSchema")
        && is_one_of(
            &name.local,
            &["string", "untypedAtomic", "integer", "boolean"],
        )
}

/// Whether the name has neither prefix nor uri.
#[tactic(auto, unfolding(crate::specs::Regular::is_bare_name))]
pub(crate) fn is_bare_name(name: &Name) -> bool
    ensures { result ≡ is_bare_name name.now }
{
    name.prefix.is_empty() && name.uri.is_empty()
}

/// Whether the type of a variable is regular, where there is one.
#[tactic(auto, unfolding(crate::specs::Regular::is_regular_kind))]
pub(crate) fn is_regular_kind(kind: &Option<SeqType>) -> bool
    ensures { result ≡ is_regular_kind kind.now }
{
    match kind {
        None => true,
        Some(kind) => is_regular_type(kind),
    }
}

/// Whether no part is a direct element.
pub(crate) fn has_no_child(all: &[Part]) -> bool
    ensures { result ≡ has_no_child (map part_facts_of all.now) }
{
    for part in all {
        if is_child(part) {
            return false;
        }
    }
    true
}

fn is_child(part: &Part) -> bool
    ensures { result ≡ (part_facts_of part.now).is_child }
{
    match part {
        Part::Child(_) => true,
        Part::Chars(_) | Part::Enclosed(_) => false,
    }
}
