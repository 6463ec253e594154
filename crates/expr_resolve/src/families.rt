// Which family a production is of.
ghost use Rattle.std.specs.Prelude.{◌≡◌};
ghost use Rattle.expr_resolve.specs.Tables.{family_of, is_chain, is_tag};

use expr_terms::Production;

/// What a production is about.
#[derive(Clone, Copy)]
pub enum Family {
    /// Paths, steps and primary expressions.
    Paths,
    /// Operators, lists, conditionals, bindings and types.
    Control,
    /// Constructors.
    Elements,
}

/// The family of the production.
#[tactic(auto, unfolding(crate::specs::Tables::family_of))]
pub fn family_of(production: Production) -> Family
    ensures { result ≡ family_of production }
{
    match production {
        Production::Rooted => Family::Paths,
        Production::RootSteps => Family::Paths,
        Production::RootedDeep => Family::Paths,
        Production::Steps => Family::Paths,
        Production::StepAfter => Family::Paths,
        Production::DeepAfter => Family::Paths,
        Production::AxisStep => Family::Paths,
        Production::AttributeStep => Family::Paths,
        Production::TestStep => Family::Paths,
        Production::ParentStep => Family::Paths,
        Production::FilterStep => Family::Paths,
        Production::PlainKind => Family::Paths,
        Production::PiKind => Family::Paths,
        Production::NamedKind => Family::Paths,
        Production::Number => Family::Paths,
        Production::Literal => Family::Paths,
        Production::Variable => Family::Paths,
        Production::Parens => Family::Paths,
        Production::Context => Family::Paths,
        Production::Call => Family::Paths,
        Production::ArgumentList => Family::Paths,
        Production::Computed => Family::Elements,
        Production::Constructed => Family::Elements,
        Production::PiConstructed => Family::Elements,
        Production::Enclosing => Family::Elements,
        Production::DirectElement => Family::Elements,
        Production::ChildElement => Family::Elements,
        Production::ElementContent => Family::Elements,
        Production::EmptyElement => Family::Elements,
        Production::AttributeValue => Family::Elements,
        Production::PartEnclosed => Family::Elements,
        Production::ItemEnclosed => Family::Elements,
        _ => Family::Control,
    }
}

/// Whether the parts of the production stand in reverse order.
#[tactic(auto, unfolding(crate::specs::Tables::is_chain))]
pub(crate) fn is_chain(production: Production) -> bool
    ensures { result ≡ is_chain production }
{
    match production {
        Production::IfExpr => true,
        _ => false,
    }
}

/// Whether the production is a direct element.
#[tactic(auto, unfolding(crate::specs::Tables::is_tag))]
pub(crate) fn is_tag(production: Production) -> bool
    ensures { result ≡ is_tag production }
{
    match production {
        Production::DirectElement => true,
        Production::ChildElement => true,
        _ => false,
    }
}
