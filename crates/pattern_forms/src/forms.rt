// What an expression is within a predicate of a pattern.
ghost use Rattle.std.specs.Prelude.{◌≡◌};
ghost use Rattle.pattern_forms.specs.Forms.{is_path, is_truth, is_numeric, is_predicate, is_allowed};

/// What an expression is within a predicate of a pattern.
#[derive(Clone, Copy)]
pub enum PredicateForm {
    Integer,
    Literal,
    /// position().
    Position,
    /// last().
    Last,
    /// name() or local-name().
    NameOf,
    /// count() of a path.
    CountOf,
    /// An attribute by its name, without predicates.
    Attribute,
    /// Another axis step with predicates.
    Step,
    /// More of them, joined by `/`.
    Path,
    /// What is a truth value.
    Condition,
    /// An attribute compared with an integer.
    Numeric,
    /// An `and` of one such comparison and truth values.
    Conjunction,
    /// What has no place in a predicate.
    Other,
}

impl PredicateForm {
    /// Whether it is a path.
    #[tactic(auto, unfolding(crate::specs::Forms::is_path))]
    pub(crate) fn is_path(self) -> bool
        ensures { result ≡ is_path self }
    {
        match self {
            PredicateForm::Attribute => true,
            PredicateForm::Step => true,
            PredicateForm::Path => true,
            _ => false,
        }
    }

    /// Whether `or`, `and` and `not` take it.
    #[tactic(auto, unfolding(crate::specs::Forms::is_truth))]
    pub(crate) fn is_truth(self) -> bool
        ensures { result ≡ is_truth self }
    {
        match self {
            PredicateForm::Attribute => true,
            PredicateForm::Step => true,
            PredicateForm::Path => true,
            PredicateForm::Condition => true,
            _ => false,
        }
    }

    /// Whether it may stand once among the conjuncts at the top.
    #[tactic(auto, unfolding(crate::specs::Forms::is_numeric))]
    pub(crate) fn is_numeric(self) -> bool
        ensures { result ≡ is_numeric self }
    {
        match self {
            PredicateForm::Numeric => true,
            _ => false,
        }
    }

    /// Whether it is a whole predicate within a path: an integer and last() stand alone.
    #[tactic(auto, unfolding(crate::specs::Forms::is_predicate))]
    pub(crate) fn is_predicate(self) -> bool
        ensures { result ≡ is_predicate self }
    {
        match self {
            PredicateForm::Integer => true,
            PredicateForm::Last => true,
            PredicateForm::Attribute => true,
            PredicateForm::Step => true,
            PredicateForm::Path => true,
            PredicateForm::Condition => true,
            _ => false,
        }
    }

    /// Whether it is a whole predicate of a pattern.
    #[tactic(auto, unfolding(crate::specs::Forms::is_allowed))]
    pub(crate) fn is_allowed(self) -> bool
        ensures { result ≡ is_allowed self }
    {
        match self {
            PredicateForm::Literal => false,
            PredicateForm::Position => false,
            PredicateForm::NameOf => false,
            PredicateForm::CountOf => false,
            PredicateForm::Other => false,
            _ => true,
        }
    }
}
