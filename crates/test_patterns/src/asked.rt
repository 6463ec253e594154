// The calls that are tested, for predicates of which xt_forms says that they are quiet.
ghost use Rattle.std.specs.Prelude.{◌≡◌};
ghost use Rattle.std.specs.List.{list_all};
ghost use Rattle.xt_forms.specs.Quiet.{is_quiet_expr};

use lazy_seq::Seq;
use match_patterns::matches;
use node_axes::Cursor;
use node_walks::{Walk, kept_hits};
use quiet_eval::{holds, kept_in_turn};
use std::alloc::AllocGlobal;
use std::process::Abort;
use xdm_items::ItemList;
use xt_forms::is_quiet;
use xt_names::List;
use xt_syntax::{Expr, Pattern, PatternStep};
use xt_tree::Node;

#[tactic(auto, using(crate::proofs::QuietLemmas::quiet_form))]
pub(crate) fn judged(
    rt: &(impl Abort + AllocGlobal),
    e: &Expr,
    node: &Node,
    position: u64,
    size: u64,
) -> bool {
    assert!(rt; is_quiet(e));
    holds(rt.alloc(), e, node, position, size).expect(rt, "memory")
}

#[tactic(auto, using(crate::proofs::QuietLemmas::quiet_steps))]
pub(crate) fn is_matched(rt: &(impl Abort + AllocGlobal), pattern: &Pattern, node: &Node) -> bool {
    assert!(rt; are_quiet_steps(pattern.steps.as_slice()));
    matches(rt.alloc(), pattern, node).expect(rt, "memory")
}

fn are_quiet(tests: &[Expr]) -> bool
    ensures { result ≡ list_all is_quiet_expr tests.now }
{
    tests.iter().all(|e| is_quiet(e))
}

fn are_quiet_steps(steps: &[PatternStep]) -> bool
    ensures { result ≡ list_all (λ s. list_all is_quiet_expr s.quiet) steps.now }
{
    steps.iter().all(|s| are_quiet(s.quiet.as_slice()))
}

#[tactic(auto, using(crate::proofs::QuietLemmas::quiet_list))]
pub(crate) fn quiet_walk(
    rt: &(impl Abort + AllocGlobal),
    cursor: Cursor,
    tests: List<Expr>,
) -> Walk {
    assert!(rt; are_quiet(tests.as_slice()));
    Walk::of_quiet(rt.alloc(), cursor, tests).expect(rt, "memory")
}

#[tactic(auto, using(crate::proofs::QuietLemmas::quiet_list))]
pub(crate) fn quiet_seq(rt: &(impl Abort + AllocGlobal), cursor: Cursor, tests: List<Expr>) -> Seq {
    assert!(rt; are_quiet(tests.as_slice()));
    Seq::of_quiet(rt.alloc(), cursor, tests).expect(rt, "memory")
}

#[tactic(auto, using(crate::proofs::QuietLemmas::quiet_list))]
pub(crate) fn kept_items(
    rt: &(impl Abort + AllocGlobal),
    cursor: Cursor,
    tests: &[Expr],
) -> ItemList {
    assert!(rt; are_quiet(tests));
    kept_hits(rt.alloc(), cursor, tests).expect(rt, "memory")
}

#[tactic(auto, using(crate::proofs::QuietLemmas::quiet_list))]
pub(crate) fn kept_nodes(
    rt: &(impl Abort + AllocGlobal),
    tests: &[Expr],
    nodes: Vec<Node>,
) -> Vec<Node> {
    assert!(rt; are_quiet(tests));
    kept_in_turn(rt.alloc(), tests, nodes).expect(rt, "memory")
}
