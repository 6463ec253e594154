// Comparisons of numbers, texts and nodes.
ghost use Rattle.std.specs.Prelude.{◌≡◌, pos, IfOk, option_and_then};
ghost use Rattle.xt_tree.specs.Kinds.{target_of};
ghost use Rattle.xt_atoms.specs.declared.atoms.Atom.TheVariants.{Int, Str};
ghost use Rattle.xt_tree.specs.Place.{subtree_of};
ghost use Rattle.quiet_meaning.specs.XdmItems.Values.{typed_value_below};
ghost use Rattle.quiet_meaning.specs.Values.{compares, some_compares, name_text, written_name};
ghost use Rattle.quiet_eval.specs.Subjects.{or_empty};

use quiet_meaning::xdm_items::typed_value;
use std::alloc::{AllocError, Global};
use xt_atoms::{Atom, general_compare, holds, qname_text, text_order};
use xt_names::{CompareOp, Name, Text};
use xt_tree::Node;

/// Whether two integers compare so.
#[tactic(auto, unfolding(quiet_meaning::specs::Values::compares, quiet_meaning::specs::Values::is_true, xt_atoms::specs::Comparisons::general_comparison, xt_atoms::specs::Comparisons::value_comparison))]
fn numbers_compare(op: CompareOp, a: i128, b: i128) -> bool
    ensures { result ≡ compares op (Int a) (Int b) }
{
    holds(op, a.cmp(&b))
}

/// Whether two atoms compare so; a comparison that fails is false.
#[tactic(auto, unfolding(quiet_meaning::specs::Values::compares, quiet_meaning::specs::Values::is_true))]
fn atoms_compare(op: CompareOp, a: &Atom, b: &Atom) -> bool
    ensures { result ≡ compares op a.now b.now }
{
    match general_compare(op, a, b) {
        Ok(truth) => truth,
        Err(_) => false,
    }
}

/// Whether two texts compare so.
#[tactic(auto, unfolding(quiet_meaning::specs::Values::compares, quiet_meaning::specs::Values::is_true, xt_atoms::specs::Comparisons::general_comparison, xt_atoms::specs::Comparisons::value_comparison))]
pub(crate) fn texts_compare(op: CompareOp, a: &Text, b: &Text) -> bool
    ensures { result ≡ compares op (Str a.now) (Str b.now) }
{
    holds(op, text_order(a.as_str(), b.as_str()))
}

/// Whether the typed value of the node compares so.
fn node_compares(alloc: Global, op: CompareOp, node: &Node, b: &Atom) -> Result<bool, AllocError>
    ensures { IfOk result (λ truth. truth ≡ compares op (typed_value_below (subtree_of node.now)) b.now) }
{
    let value = typed_value(alloc, node)?;
    Ok(atoms_compare(op, &value, b))
}

/// Whether two numbers compare so.
pub(crate) fn counts_compare(op: CompareOp, n: u64, m: u64) -> bool
    ensures { result ≡ compares op (Int (pos n)) (Int (pos m)) }
{
    numbers_compare(op, n as i128, m as i128)
}

/// Whether the number compares so with the integer.
pub(crate) fn integer_compares(op: CompareOp, n: u64, k: &i64) -> bool
    ensures { result ≡ compares op (Int (pos n)) (Int k.now) }
{
    let k = *k;
    numbers_compare(op, n as i128, k as i128)
}

/// Whether the typed value of some of the nodes compares so.
#[tactic(auto, unfolding(quiet_meaning::specs::Values::some_compares))]
pub(crate) fn some_compares(
    alloc: Global,
    op: CompareOp,
    nodes: &[Node],
    b: &Atom,
) -> Result<bool, AllocError>
    ensures { IfOk result (λ truth. truth ≡ some_compares op b.now nodes.now) }
{
    for node in nodes {
        if node_compares(alloc, op, node, b)? {
            return Ok(true);
        }
    }
    Ok(false)
}

/// The text that name() gives for the node, or the one of local-name().
pub(crate) fn name_text(alloc: Global, whole: bool, node: &Node) -> Result<Text, AllocError>
    ensures { IfOk result (λ text. text ≡ name_text whole node.now) }
{
    match node.name() {
        Some(name) => written_name(alloc, whole, name),
        None => target_text(alloc, node),
    }
}

#[tactic(auto, unfolding(quiet_meaning::specs::Values::written_name, xt_atoms::specs::AtomTexts::text_of))]
fn written_name(alloc: Global, whole: bool, name: &Name) -> Result<Text, AllocError>
    ensures { IfOk result (λ text. text ≡ written_name whole name.now) }
{
    if whole {
        qname_text(alloc, name)
    } else {
        name.local.copy()
    }
}

/// The target of a processing instruction, and the empty text at any other node.
fn target_text(alloc: Global, node: &Node) -> Result<Text, AllocError>
    ensures { IfOk result (λ text. text ≡ or_empty (option_and_then target_of (subtree_of node.now))) }
{
    match node.target() {
        Some(target) => target.copy(),
        None => Text::make(alloc, ""),
    }
}

/// Whether the typed value of some of the nodes compares so with the integer.
pub(crate) fn integer_compares_some(
    alloc: Global,
    op: CompareOp,
    nodes: &[Node],
    k: &i64,
) -> Result<bool, AllocError>
    ensures { IfOk result (λ truth. truth ≡ some_compares op (Int k.now) nodes.now) }
{
    let literal = Atom::Int(*k);
    let truth = some_compares(alloc, op, nodes, &literal)?;
    Ok(truth)
}

/// Whether the typed value of some of the nodes compares so with the text.
pub(crate) fn text_compares_some(
    alloc: Global,
    op: CompareOp,
    nodes: &[Node],
    text: &Text,
) -> Result<bool, AllocError>
    ensures { IfOk result (λ truth. truth ≡ some_compares op (Str text.now) nodes.now) }
{
    let literal = Atom::Str(text.copy()?);
    let truth = some_compares(alloc, op, nodes, &literal)?;
    Ok(truth)
}
