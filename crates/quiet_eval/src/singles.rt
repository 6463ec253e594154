// Predicates that stand alone: what they are without `or`, `and` and not().
ghost use Rattle.std.specs.Prelude.{◌≡◌, map, not, if◌then◌else◌, true, false, IfOk, None, codes};
ghost use Rattle.std.specs.Str.{bytes_eq};
ghost use Rattle.xt_atoms.specs.declared.atoms.Atom.TheVariants.{Str};
ghost use Rattle.xt_forms.specs.Quiet.{quiet_call};
ghost use Rattle.quiet_meaning.specs.Quietly.{quietly_of, holds_at, holds_quietly, is_pattern_form, compared, compared_with_integer, compared_with_literal, call_gives, called};
ghost use Rattle.quiet_meaning.specs.Values.{compares, name_text};
ghost use Rattle.quiet_eval.specs.Subjects.{is_not, only, negated_part, subject_part, path_part, nodes_at, is_junction, subject_number, call_number};
ghost use Rattle.quiet_eval.specs.QuietPlaces.Free.{focus};

use crate::values::{
    counts_compare, integer_compares, integer_compares_some, name_text, text_compares_some,
    texts_compare,
};
use std::alloc::{AllocError, Global};
use xt_forms::{QuietCall, quiet_call};
use xt_names::{CompareOp, ExprName, Text, is_ascii_text};
use xt_syntax::Expr;
use xt_tree::Node;

/// Whether the predicate keeps the node, where the path that decides it leads to these nodes.
pub(crate) fn judge(
    alloc: Global,
    e: &Expr,
    nodes: &[Node],
    node: &Node,
    position: u64,
    size: u64,
) -> Result<bool, AllocError>
    requires form { is_pattern_form (quietly_of e.now) ≡ true }
    requires junction { is_junction e.now ≡ false }
    requires not { negated_part e.now ≡ None }
    requires nodes { nodes.now ≡ nodes_at (path_part e.now) node.now }
    ensures { IfOk result (λ truth. truth ≡ holds_quietly e.now node.now position size) }
{
    match e {
        Expr::Int(k) => Ok(integer_compares(CompareOp::Eq, position, k)),
        Expr::General(op, a, b) => {
            compare(alloc, *op, a.get(), b.get(), nodes, node, position, size)
        }
        Expr::Call(name, args) => Ok(call_holds(
            name,
            args.get().as_slice(),
            nodes,
            node,
            position,
            size,
        )),
        _ => Ok(!nodes.is_empty()),
    }
}

/// Whether the call holds, where its argument leads to these nodes.
fn call_holds(
    name: &ExprName,
    args: &[Expr],
    nodes: &[Node],
    node: &Node,
    position: u64,
    size: u64,
) -> bool
    requires form { is_pattern_form (call_gives (quiet_call name.now) name.now.local (map quietly_of args.now)) ≡ true }
    requires not { (if is_not (quiet_call name.now) then only args.now else None) ≡ None }
    requires nodes { nodes.now ≡ nodes_at (only args.now) node.now }
    ensures { result ≡ holds_at (call_gives (quiet_call name.now) name.now.local (map quietly_of args.now)) (focus node.now position size) }
{
    match args {
        [] => constant_holds(name, node, position, size),
        [_] => is_told(is_exists(name), !nodes.is_empty()),
        _ => false,
    }
}

fn is_exists(name: &ExprName) -> bool
    ensures { result ≡ bytes_eq name.now.local (codes "exists") }
{
    is_ascii_text(name.local.as_str(), "exists")
}

/// What exists(), or else empty(), says where some node is there.
fn is_told(exists: bool, some: bool) -> bool
    ensures { result ≡ (if exists then some else not some) }
{
    exists == some
}

/// Whether the call without arguments holds.
#[tactic(auto, unfolding(quiet_meaning::specs::Quietly::called, quiet_meaning::specs::Quietly::holds_at))]
fn constant_holds(name: &ExprName, node: &Node, position: u64, size: u64) -> bool
    ensures { result ≡ holds_at (called (quiet_call name.now) name.now.local) (focus node.now position size) }
{
    let _node = node;
    match quiet_call(name) {
        QuietCall::Constant => is_ascii_text(name.local.as_str(), "true"),
        QuietCall::Last => position == size,
        QuietCall::Not => false,
        QuietCall::Position => false,
        QuietCall::Exists => false,
        QuietCall::Count => false,
        QuietCall::NameOf => false,
        QuietCall::Other => false,
    }
}

/// Whether the comparison holds, where the path on its left side leads to these nodes.
fn compare(
    alloc: Global,
    op: CompareOp,
    a: &Expr,
    b: &Expr,
    nodes: &[Node],
    node: &Node,
    position: u64,
    size: u64,
) -> Result<bool, AllocError>
    requires form { is_pattern_form (compared op (quietly_of a.now) (quietly_of b.now)) ≡ true }
    requires nodes { nodes.now ≡ nodes_at (subject_part a.now) node.now }
    ensures { IfOk result (λ truth. truth ≡ holds_at (compared op (quietly_of a.now) (quietly_of b.now)) (focus node.now position size)) }
{
    match b {
        Expr::Int(k) => with_integer(alloc, op, k, a, nodes, node, position, size),
        Expr::Str(text) => with_literal(alloc, op, text, a, nodes, node, position, size),
        _ => Ok(counts_compare(op, position, size)),
    }
}

fn with_integer(
    alloc: Global,
    op: CompareOp,
    k: &i64,
    a: &Expr,
    nodes: &[Node],
    node: &Node,
    position: u64,
    size: u64,
) -> Result<bool, AllocError>
    requires form { is_pattern_form (compared_with_integer op k.now (quietly_of a.now)) ≡ true }
    requires nodes { nodes.now ≡ nodes_at (subject_part a.now) node.now }
    ensures { IfOk result (λ truth. truth ≡ holds_at (compared_with_integer op k.now (quietly_of a.now)) (focus node.now position size)) }
{
    let _node = node;
    match number(a, nodes.len() as u64, position, size) {
        Some(n) => Ok(integer_compares(op, n, k)),
        None => integer_compares_some(alloc, op, nodes, k),
    }
}

/// The number that is compared with an integer; None where nodes are compared.
fn number(a: &Expr, count: u64, position: u64, size: u64) -> Option<u64>
    ensures { result ≡ subject_number a.now count position size }
{
    match a {
        Expr::Call(name, args) => Some(call_number(
            name,
            args.get().as_slice(),
            count,
            position,
            size,
        )),
        _ => None,
    }
}

#[tactic(auto, unfolding(crate::specs::Subjects::is_last))]
fn call_number(name: &ExprName, args: &[Expr], count: u64, position: u64, size: u64) -> u64
    ensures { result ≡ call_number (quiet_call name.now) args.now count position size }
{
    match args {
        [] => match quiet_call(name) {
            QuietCall::Last => size,
            _ => position,
        },
        _ => count,
    }
}

fn with_literal(
    alloc: Global,
    op: CompareOp,
    text: &Text,
    a: &Expr,
    nodes: &[Node],
    node: &Node,
    position: u64,
    size: u64,
) -> Result<bool, AllocError>
    requires form { is_pattern_form (compared_with_literal op text.now (quietly_of a.now)) ≡ true }
    requires nodes { nodes.now ≡ nodes_at (subject_part a.now) node.now }
    ensures { IfOk result (λ truth. truth ≡ holds_at (compared_with_literal op text.now (quietly_of a.now)) (focus node.now position size)) }
{
    let _position = position;
    let _size = size;
    match a {
        Expr::Call(name, _) => name_compares(alloc, op, name, node, text),
        _ => text_compares_some(alloc, op, nodes, text),
    }
}

/// Whether the name of the node compares so.
fn name_compares(
    alloc: Global,
    op: CompareOp,
    name: &ExprName,
    node: &Node,
    text: &Text,
) -> Result<bool, AllocError>
    ensures { IfOk result (λ truth. truth ≡ compares op (Str (name_text (bytes_eq name.now.local (codes "name")) node.now)) (Str text.now)) }
{
    let own = name_text(alloc, is_ascii_text(name.local.as_str(), "name"), node)?;
    Ok(texts_compare(op, &own, text))
}
