// The functions that quiet predicates call.
ghost use Rattle.std.specs.Prelude.{◌≡◌};
ghost use Rattle.xt_forms.specs.Quiet.{local_call, quiet_call, called, called_with};

use crate::named_texts::is_one_of;
use crate::quiet_forms::{QuietForm, condition_if};
use function_table::is_in_fn;
use xt_names::{ExprName, Text, is_ascii_text};

/// The functions that quiet predicates call.
#[derive(Clone, Copy)]
pub enum QuietCall {
    /// true() and false().
    Constant,
    Not,
    Position,
    Last,
    /// exists() and empty().
    Exists,
    Count,
    /// name() and local-name().
    NameOf,
    Other,
}

/// Which of these functions the name is one of, if it is one.
#[tactic(auto, unfolding(crate::specs::Quiet::quiet_call))]
pub fn quiet_call(name: &ExprName) -> QuietCall
    ensures { result ≡ quiet_call name.now }
{
    if is_in_fn(name) {
        local_call(&name.local)
    } else {
        QuietCall::Other
    }
}

#[tactic(auto, unfolding(crate::specs::Quiet::local_call))]
fn local_call(local: &Text) -> QuietCall
    ensures { result ≡ local_call local.now }
{
    if is_one_of(local, &["true", "false"]) {
        QuietCall::Constant
    } else if is_ascii_text(local.as_str(), "not") {
        QuietCall::Not
    } else if is_ascii_text(local.as_str(), "position") {
        QuietCall::Position
    } else if is_ascii_text(local.as_str(), "last") {
        QuietCall::Last
    } else if is_one_of(local, &["exists", "empty"]) {
        QuietCall::Exists
    } else if is_ascii_text(local.as_str(), "count") {
        QuietCall::Count
    } else if is_one_of(local, &["name", "local-name"]) {
        QuietCall::NameOf
    } else {
        QuietCall::Other
    }
}

/// What a call without arguments is.
#[tactic(auto, unfolding(crate::specs::Quiet::called))]
pub(crate) fn called(f: QuietCall) -> QuietForm
    ensures { result ≡ called f }
{
    match f {
        QuietCall::Constant => QuietForm::Condition,
        QuietCall::Position => QuietForm::Position,
        QuietCall::Last => QuietForm::Last,
        QuietCall::NameOf => QuietForm::NameOf,
        QuietCall::Not | QuietCall::Exists | QuietCall::Count | QuietCall::Other =>
            QuietForm::Other,
    }
}

/// What a call with one argument is.
#[tactic(auto, unfolding(crate::specs::Quiet::called_with))]
pub(crate) fn called_with(f: QuietCall, a: QuietForm) -> QuietForm
    ensures { result ≡ called_with f a }
{
    match f {
        QuietCall::Not => condition_if(a.is_truth()),
        QuietCall::Exists => condition_if(a.is_path()),
        QuietCall::Count if a.is_path() => QuietForm::CountOf,
        _ => QuietForm::Other,
    }
}
