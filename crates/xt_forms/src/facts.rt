// What forms ask of their parts.
ghost use Rattle.std.specs.Prelude.{◌≡◌};
ghost use Rattle.xt_forms.specs.Regular.{child_facts, direct_facts, if_facts, other_form};

/// What the form that holds an expression asks of it.
#[derive(Clone, Copy)]
pub(crate) struct ExprFacts {
    pub(crate) regular: bool,
    pub(crate) is_if: bool,
    pub(crate) is_direct: bool,
}

/// What the constructor that holds a name asks of it.
#[derive(Clone, Copy)]
pub(crate) struct NameFacts {
    pub(crate) regular: bool,
    /// Whether it is no fixed name with a prefix or a uri.
    pub(crate) is_bare: bool,
}

/// What the direct element that holds a part asks of it.
#[derive(Clone, Copy)]
pub(crate) struct PartFacts {
    pub(crate) regular: bool,
    pub(crate) is_chars: bool,
    pub(crate) is_child: bool,
}

pub(crate) fn other_form(regular: bool) -> ExprFacts
    ensures { result ≡ other_form regular }
{
    ExprFacts {
        regular,
        is_if: false,
        is_direct: false,
    }
}

pub(crate) fn direct_facts(regular: bool) -> ExprFacts
    ensures { result ≡ direct_facts regular }
{
    ExprFacts {
        regular,
        is_if: false,
        is_direct: true,
    }
}

pub(crate) fn if_facts(arms: bool, last: ExprFacts) -> ExprFacts
    ensures { result ≡ if_facts arms last }
{
    ExprFacts {
        regular: arms && last.regular && !last.is_if,
        is_if: true,
        is_direct: false,
    }
}

pub(crate) fn child_facts(e: ExprFacts) -> PartFacts
    ensures { result ≡ child_facts e }
{
    PartFacts {
        regular: e.regular && e.is_direct,
        is_chars: false,
        is_child: true,
    }
}
