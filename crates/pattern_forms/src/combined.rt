// What is made of parts, by what these are.
ghost use Rattle.std.specs.Prelude.{◌≡◌};
ghost use Rattle.pattern_forms.specs.Forms.{condition_if, slashed, with_integer, with_literal, with_last, compared, called, called_with, path_as, all_form};

use crate::forms::PredicateForm;
use xt_forms::QuietCall;

pub(crate) fn condition_if(holds: bool) -> PredicateForm
    ensures { result ≡ condition_if holds }
{
    if holds {
        PredicateForm::Condition
    } else {
        PredicateForm::Other
    }
}

/// The form, where its left side is a path, or has no place.
fn path_as(holds: bool, form: PredicateForm) -> PredicateForm
    ensures { result ≡ path_as holds form }
{
    if holds { form } else { PredicateForm::Other }
}

/// What `a/b` is: a path is read from the left, so after its last `/` is one step.
#[tactic(auto, unfolding(crate::specs::Forms::slashed))]
pub(crate) fn slashed(a: PredicateForm, b: PredicateForm) -> PredicateForm
    ensures { result ≡ slashed a b }
{
    match b {
        PredicateForm::Attribute => path_as(a.is_path(), PredicateForm::Path),
        PredicateForm::Step => path_as(a.is_path(), PredicateForm::Path),
        _ => PredicateForm::Other,
    }
}

#[tactic(auto, unfolding(crate::specs::Forms::with_integer))]
fn with_integer(a: PredicateForm) -> PredicateForm
    ensures { result ≡ with_integer a }
{
    match a {
        PredicateForm::Position => PredicateForm::Condition,
        PredicateForm::Last => PredicateForm::Condition,
        PredicateForm::CountOf => PredicateForm::Condition,
        PredicateForm::Attribute => PredicateForm::Numeric,
        _ => PredicateForm::Other,
    }
}

#[tactic(auto, unfolding(crate::specs::Forms::with_literal))]
fn with_literal(a: PredicateForm) -> PredicateForm
    ensures { result ≡ with_literal a }
{
    match a {
        PredicateForm::NameOf => PredicateForm::Condition,
        PredicateForm::Attribute => PredicateForm::Condition,
        PredicateForm::Step => PredicateForm::Condition,
        PredicateForm::Path => PredicateForm::Condition,
        _ => PredicateForm::Other,
    }
}

#[tactic(auto, unfolding(crate::specs::Forms::with_last))]
fn with_last(a: PredicateForm) -> PredicateForm
    ensures { result ≡ with_last a }
{
    match a {
        PredicateForm::Position => PredicateForm::Condition,
        _ => PredicateForm::Other,
    }
}

/// What a comparison is.
#[tactic(auto, unfolding(crate::specs::Forms::compared))]
pub(crate) fn compared(a: PredicateForm, b: PredicateForm) -> PredicateForm
    ensures { result ≡ compared a b }
{
    match b {
        PredicateForm::Integer => with_integer(a),
        PredicateForm::Literal => with_literal(a),
        PredicateForm::Last => with_last(a),
        _ => PredicateForm::Other,
    }
}

/// What a call without arguments is.
#[tactic(auto, unfolding(crate::specs::Forms::called))]
pub(crate) fn called(f: QuietCall) -> PredicateForm
    ensures { result ≡ called f }
{
    match f {
        QuietCall::Constant => PredicateForm::Condition,
        QuietCall::Position => PredicateForm::Position,
        QuietCall::Last => PredicateForm::Last,
        QuietCall::NameOf => PredicateForm::NameOf,
        _ => PredicateForm::Other,
    }
}

/// What a call with one argument is.
#[tactic(auto, unfolding(crate::specs::Forms::called_with))]
pub(crate) fn called_with(f: QuietCall, a: PredicateForm) -> PredicateForm
    ensures { result ≡ called_with f a }
{
    match f {
        QuietCall::Not => condition_if(a.is_truth()),
        QuietCall::Exists => condition_if(a.is_path()),
        QuietCall::Count => path_as(a.is_path(), PredicateForm::CountOf),
        _ => PredicateForm::Other,
    }
}

/// What an `and` is, of whose parts all are truth values, or all but so many comparisons of an
/// attribute with an integer.
pub(crate) fn all_form(truths: bool, allowed: bool, numerics: usize) -> PredicateForm
    ensures { result ≡ all_form truths allowed numerics }
{
    if truths {
        PredicateForm::Condition
    } else if allowed && numerics == 1 {
        PredicateForm::Conjunction
    } else {
        PredicateForm::Other
    }
}
