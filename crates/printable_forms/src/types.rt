// Whether node tests and types can be printed.
ghost use Rattle.std.specs.Prelude.{◌≡◌, IfOk};
ghost use Rattle.expr_raws.specs.PathRaws.Paths.{test_form};
ghost use Rattle.expr_raws.specs.ControlRaws.Types.{kind_form, item_form, sequence_form};
ghost use Rattle.expr_raws.specs.ControlRaws.Bindings.{typing, may};

use crate::names::{has_test, has_type};
use expr_drafts::name_prefixes::NamePrefixes;
use expr_terms::Class;
use std::alloc::{AllocError, Global};
use xt_types::{Axis, ItemType, SeqType, Test};

/// A node test on the axis.
#[tactic(auto, using(crate::proofs::TokenLemmas::tokens))]
pub(crate) fn has_node_test(
    alloc: Global,
    prefixes: &NamePrefixes,
    axis: Axis,
    test: &Test,
) -> Result<bool, AllocError>
    ensures { IfOk result (λ can. can ≡ (test_form prefixes.now axis test.now).can) }
{
    match test {
        Test::Named(name) => has_test(alloc, prefixes, Class::NameTest, axis, name),
        Test::Node | Test::Text | Test::Comment | Test::Doc => Ok(true),
        Test::Pi(None) => Ok(true),
        Test::Pi(Some(_)) => Ok(true),
        Test::Elem(name) => has_test(alloc, prefixes, Class::NameOrStar, Axis::Child, name),
        Test::Attr(name) => has_test(alloc, prefixes, Class::NameOrStar, Axis::Attribute, name),
    }
}

/// A kind test alone.
fn has_kind_test(alloc: Global, prefixes: &NamePrefixes, test: &Test) -> Result<bool, AllocError>
    ensures { IfOk result (λ can. can ≡ (kind_form prefixes.now test.now).can) }
{
    match test {
        Test::Named(_) => Ok(false),
        _ => has_node_test(alloc, prefixes, Axis::Child, test),
    }
}

#[tactic(auto, using(crate::proofs::TokenLemmas::tokens))]
fn has_item(alloc: Global, prefixes: &NamePrefixes, item: &ItemType) -> Result<bool, AllocError>
    ensures { IfOk result (λ can. can ≡ (item_form prefixes.now item.now).can) }
{
    match item {
        ItemType::Any => Ok(true),
        ItemType::Kind(test) => has_kind_test(alloc, prefixes, test),
        ItemType::Atomic(kind) => has_type(alloc, prefixes, *kind),
    }
}

/// A sequence type.
pub(crate) fn has_sequence_type(
    alloc: Global,
    prefixes: &NamePrefixes,
    kind: &SeqType,
) -> Result<bool, AllocError>
    ensures { IfOk result (λ can. can ≡ (sequence_form prefixes.now kind.now).can) }
{
    match kind {
        SeqType::Empty => Ok(true),
        SeqType::Of(item, _) => has_item(alloc, prefixes, item),
    }
}

/// Whether the type behind `as`, if there is one, can be printed.
/// (XPath 2.0, 2.5.3; XQuery 1.0, 4.14 and 4.15)
pub fn has_kind(
    alloc: Global,
    prefixes: &NamePrefixes,
    kind: &Option<SeqType>,
) -> Result<bool, AllocError>
    ensures { IfOk result (λ can. can ≡ may (typing prefixes.now kind.now)) }
{
    match kind {
        None => Ok(true),
        Some(kind) => has_sequence_type(alloc, prefixes, kind),
    }
}
