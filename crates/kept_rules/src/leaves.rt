// What needs no look at parts.
ghost use Rattle.std.specs.Prelude.{◌≡◌};
ghost use Rattle.raw_laws.specs.CleanRaws.Keeps.{is_cast_type, is_other};

use xt_names::{AtomType, ExprName};

#[tactic(auto, unfolding(expr_names::specs::Types::cast_broken))]
pub(crate) fn is_cast_type(kind: &AtomType) -> bool
    ensures { result ≡ is_cast_type kind.now }
{
    match kind {
        AtomType::Str | AtomType::Untyped | AtomType::Int | AtomType::Bool => true,
        AtomType::QName | AtomType::Any => false,
    }
}

pub(crate) fn is_other(var: &ExprName, place: &Option<ExprName>) -> bool
    ensures { result ≡ is_other var.now place.now }
{
    match place {
        None => true,
        Some(place) => *var != *place,
    }
}
