// Which production means what.
ghost use Rattle.std.specs.Prelude.{◌≡◌, [], IfOk};
ghost use Rattle.expr_rules.specs.declared.expr_meant.meant.Meant.TheVariants.{Content};
ghost use Rattle.expr_primaries.specs.ExprElements.Table.{element_value};

use crate::expr_elements::direct::{attribute, child, content, element, enclosed};
use crate::expr_elements::makers::{computed, constructed, enclosing, pi_constructed};
use expr_rules::expr_meant::Meant;
use expr_terms::Production;
use std::alloc::{AllocError, Global};
use xt_names::{List, Shared};
use xt_syntax::Prefixes;

fn no_content(alloc: Global) -> Result<Meant, AllocError>
    ensures { IfOk result (λ made. made ≡ Content []) }
{
    Ok(Meant::Content(Shared::make(alloc, List::new(alloc))?))
}

/// What the production of a constructor means, from what its parts mean; `strip` says that boundary
/// white space goes.
#[tactic(auto, unfolding(crate::specs::ExprElements::Table::element_value))]
pub fn element_value(
    alloc: Global,
    p: &Prefixes,
    strip: bool,
    production: Production,
    parts: &[Meant],
) -> Result<Meant, AllocError>
    ensures { IfOk result (λ made. made ≡ element_value p.now strip production parts.now) }
{
    let bound = &p.bound;
    match production {
        Production::Computed => computed(alloc, parts),
        Production::Constructed => constructed(alloc, bound, &p.element_default, parts),
        Production::PiConstructed => pi_constructed(alloc, bound, parts),
        Production::Enclosing => enclosing(alloc, parts),
        Production::DirectElement => element(alloc, bound, &p.element_default, parts),
        Production::ChildElement => child(alloc, bound, &p.element_default, parts),
        Production::ElementContent => content(alloc, strip, parts),
        Production::EmptyElement => no_content(alloc),
        Production::AttributeValue => attribute(alloc, bound, parts),
        Production::PartEnclosed => enclosed(alloc, parts),
        Production::ItemEnclosed => enclosed(alloc, parts),
        _ => Ok(Meant::Mark),
    }
}
