// What an expression is within a quiet predicate.
ghost use Rattle.std.specs.Prelude.{◌≡◌};
ghost use Rattle.xt_forms.specs.Quiet.{is_path, is_truth, is_predicate, is_number, is_text, is_position, condition_if, slashed, compared};

/// What an expression is within a quiet predicate.
#[derive(Clone, Copy)]
pub enum QuietForm {
    Integer,
    Literal,
    /// position().
    Position,
    /// last().
    Last,
    /// name() or local-name().
    NameOf,
    /// count() of a path.
    CountOf,
    /// One axis step with quiet predicates.
    Step,
    /// More of them, joined by `/`.
    Path,
    /// What is a truth value.
    Condition,
    /// What has no place in a quiet predicate.
    Other,
}

impl QuietForm {
    /// Whether it is a path.
    #[tactic(auto, unfolding(crate::specs::Quiet::is_path))]
    pub(crate) fn is_path(self) -> bool
        ensures { result ≡ is_path self }
    {
        match self {
            QuietForm::Step | QuietForm::Path => true,
            QuietForm::Integer
            | QuietForm::Literal
            | QuietForm::Position
            | QuietForm::Last
            | QuietForm::NameOf
            | QuietForm::CountOf
            | QuietForm::Condition
            | QuietForm::Other => false,
        }
    }

    /// Whether `or`, `and` and `not` take it.
    #[tactic(auto, unfolding(crate::specs::Quiet::is_truth))]
    pub(crate) fn is_truth(self) -> bool
        ensures { result ≡ is_truth self }
    {
        match self {
            QuietForm::Step | QuietForm::Path | QuietForm::Condition => true,
            QuietForm::Integer
            | QuietForm::Literal
            | QuietForm::Position
            | QuietForm::Last
            | QuietForm::NameOf
            | QuietForm::CountOf
            | QuietForm::Other => false,
        }
    }

    /// Whether it is a whole predicate: an integer and last() stand alone.
    #[tactic(auto, unfolding(crate::specs::Quiet::is_predicate))]
    pub(crate) fn is_predicate(self) -> bool
        ensures { result ≡ is_predicate self }
    {
        match self {
            QuietForm::Step
            | QuietForm::Path
            | QuietForm::Condition
            | QuietForm::Integer
            | QuietForm::Last => true,
            QuietForm::Literal
            | QuietForm::Position
            | QuietForm::NameOf
            | QuietForm::CountOf
            | QuietForm::Other => false,
        }
    }

    /// Whether it is compared with an integer.
    #[tactic(auto, unfolding(crate::specs::Quiet::is_number))]
    pub(crate) fn is_number(self) -> bool
        ensures { result ≡ is_number self }
    {
        match self {
            QuietForm::Position | QuietForm::Last | QuietForm::CountOf => true,
            QuietForm::Integer
            | QuietForm::Literal
            | QuietForm::NameOf
            | QuietForm::Step
            | QuietForm::Path
            | QuietForm::Condition
            | QuietForm::Other => false,
        }
    }

    /// Whether it is compared with a literal.
    #[tactic(auto, unfolding(crate::specs::Quiet::is_text))]
    pub(crate) fn is_text(self) -> bool
        ensures { result ≡ is_text self }
    {
        match self {
            QuietForm::Step | QuietForm::Path | QuietForm::NameOf => true,
            QuietForm::Integer
            | QuietForm::Literal
            | QuietForm::Position
            | QuietForm::Last
            | QuietForm::CountOf
            | QuietForm::Condition
            | QuietForm::Other => false,
        }
    }

    /// Whether it is compared with last().
    #[tactic(auto, unfolding(crate::specs::Quiet::is_position))]
    pub(crate) fn is_position(self) -> bool
        ensures { result ≡ is_position self }
    {
        match self {
            QuietForm::Position => true,
            QuietForm::Integer
            | QuietForm::Literal
            | QuietForm::Last
            | QuietForm::NameOf
            | QuietForm::CountOf
            | QuietForm::Step
            | QuietForm::Path
            | QuietForm::Condition
            | QuietForm::Other => false,
        }
    }
}

pub(crate) fn condition_if(holds: bool) -> QuietForm
    ensures { result ≡ condition_if holds }
{
    if holds {
        QuietForm::Condition
    } else {
        QuietForm::Other
    }
}

/// What `a/b` is: a path is read from the left, so after its last `/` is one step.
#[tactic(auto, unfolding(crate::specs::Quiet::slashed))]
pub(crate) fn slashed(a: QuietForm, b: QuietForm) -> QuietForm
    ensures { result ≡ slashed a b }
{
    match b {
        QuietForm::Step if a.is_path() => QuietForm::Path,
        _ => QuietForm::Other,
    }
}

/// What a comparison is.
#[tactic(auto, unfolding(crate::specs::Quiet::compared))]
pub(crate) fn compared(a: QuietForm, b: QuietForm) -> QuietForm
    ensures { result ≡ compared a b }
{
    match b {
        QuietForm::Integer => condition_if(a.is_number()),
        QuietForm::Literal => condition_if(a.is_text()),
        QuietForm::Last => condition_if(a.is_position()),
        _ => QuietForm::Other,
    }
}
