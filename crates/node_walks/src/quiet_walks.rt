// Walks along axes whose nodes predicates filter.
ghost use Rattle.std.specs.Prelude.{◌≡◌, ◌+◌, ◌≤◌, ◌<◌, [], length, replicate, true, false, is_some};
ghost use Rattle.std.specs.Prelude.{Ok, IfOk, OnErr};
ghost use Rattle.std.specs.Option.{option_map};
ghost use Rattle.quiet_eval.specs.QuietMeaning.Paths.{are_allowed, keeps};
ghost use Rattle.xdm_items.specs.declared.items.Item.TheVariants.{Node as a_node};
ghost use Rattle.node_walks.specs.Courses.{moves_to_come};
ghost use Rattle.node_walks.specs.Moves.{settled, standing, passed, steps_before};
ghost use Rattle.node_walks.specs.Quiet.{IsSieve, IsFound, IsOn, Judged};
ghost use Rattle.node_walks.specs.Sift.{sifted_moves, quiet_moves};

use crate::axis_walks::AxisWalk;
use crate::sieves::Sieve;
use node_axes::{Cursor, Steps};
use std::alloc::{AllocError, Global};
use std::marker::Model;
use std::sync::ledger::Ledger;
use xt_names::List;
use xt_syntax::Expr;
use xt_tree::Node;

/// A walk that gives what predicates keep. Where the walk along the axis stands on a node, that
/// node is still unjudged, unless `kept` tells that all predicates keep it: to judge it may want
/// memory.
#[derive(Drop)]
pub(crate) struct QuietWalk {
    walk: AxisWalk,
    sieve: Sieve,
    kept: bool,
}

impl Model for QuietWalk {
    ghost use Rattle.std.specs.Coded.{codes};
    ghost use Rattle.xt_tree.specs.Forest.{forest_code};
    ghost use Rattle.quiet_eval.specs.QuietMeaning.Paths.{keeps};
    ghost use Rattle.node_walks.specs.Quiet.{IsSteady, Sifting};
    ghost use Rattle.node_walks.specs.Sift.{quiet_moves};

    ghost Value = { Sifting };

    ghost coded = { Prim.hlevel (codes, forest_code) };

    ghost view = { λ w. record { moves = quiet_moves w.kept (keeps w.sieve.tests) w.sieve.seen.items w.walk; kept = w.kept } };

    ghost invariant = { λ w. IsSteady w.kept w.sieve.tests w.sieve.seen.items w.walk };
}

impl QuietWalk {
    #[tactic(auto, unfolding(crate::specs::Sift::quiet_moves))]
    pub(crate) fn new(
        alloc: Global,
        cursor: Cursor,
        tests: List<Expr>,
    ) -> Result<QuietWalk, AllocError>
        requires { are_allowed tests ≡ true }
        ensures { let none = replicate (length tests) 0 in
            let moves = sifted_moves (keeps tests) none (moves_to_come cursor) in
            IfOk result (λ walk. walk.moves ≡ moves) }
    {
        let sieve = Sieve::new(alloc, tests)?;
        Ok(QuietWalk {
            walk: AxisWalk::new(cursor),
            sieve,
            kept: false,
        })
    }

    /// Goes to the first item, which stays to be given; false exactly where there is none.
    #[tactic(auto, unfolding(crate::specs::Sift::quiet_moves))]
    pub(crate) fn settle<L: Ledger>(&mut self, steps: &mut Steps<L>) -> Result<bool, AllocError>
        ensures stands { IfOk result (λ found. self.new.moves ≡ settled self.old.moves) }
        ensures found { IfOk result (λ found. found ≡ is_some (standing self.new.moves)) }
        ensures kept { IfOk result (λ found. found ≡ self.new.kept) }
        ensures rest { settled self.new.moves ≡ settled self.old.moves }
        ensures steps { steps.new + steps_before self.new.moves
            ≡ steps.old + steps_before self.old.moves }
        ensures on { steps.old ≤ steps.new }
    {
        if self.kept {
            return Ok(true);
        }
        self.kept = seek(&mut self.walk, &mut self.sieve, steps)?;
        Ok(self.kept)
    }

    /// The node at which the walk stands.
    pub(crate) fn node(&self) -> Result<Option<Node>, AllocError>
        requires { self.now.kept ≡ true }
        ensures { IfOk result (λ node. option_map a_node node ≡ standing self.now.moves) }
    {
        self.walk.node()
    }

    /// Leaves the node at which the walk stands.
    pub(crate) fn pass(&mut self)
        requires { self.old.kept ≡ true }
        ensures { self.new.moves ≡ passed self.old.moves }
    {
        self.kept = false;
        self.walk.pass();
    }

    pub(crate) fn copy(&self) -> Result<QuietWalk, AllocError>
        ensures { IfOk result (λ walk. walk ≡ self.now) }
    {
        Ok(QuietWalk {
            walk: self.walk.copy()?,
            sieve: self.sieve.copy()?,
            kept: self.kept,
        })
    }
}

/// Goes to the first node that the predicates keep; false where there is none.
fn seek<L: Ledger>(
    walk: &mut AxisWalk,
    sieve: &mut Sieve,
    steps: &mut Steps<L>,
) -> Result<bool, AllocError>
    requires { IsSieve sieve.old.tests sieve.old.seen.items }
    ensures found { let old = sifted_moves (keeps sieve.old.tests) sieve.old.seen.items walk.old in
        let new = quiet_moves true (keeps sieve.new.tests) sieve.new.seen.items walk.new in
        result ≡ Ok true → IsFound steps.old steps.new old new }
    ensures stands { result ≡ Ok true → is_some (standing walk.new) ≡ true }
    ensures none { let old = sifted_moves (keeps sieve.old.tests) sieve.old.seen.items walk.old in
        result ≡ Ok false → IsFound steps.old steps.new old [] }
    ensures end { result ≡ Ok false → walk.new ≡ [] }
    ensures err { let old = sifted_moves (keeps sieve.old.tests) sieve.old.seen.items walk.old in
        let new = sifted_moves (keeps sieve.new.tests) sieve.new.seen.items walk.new in
        OnErr result (IsOn steps.old steps.new old new) }
    ensures on { steps.old ≤ steps.new }
    ensures tests { sieve.new.tests ≡ sieve.old.tests }
    ensures sieve { IsSieve sieve.new.tests sieve.new.seen.items }
{
    while walk.settle(steps) {
        if turn(walk, sieve)? {
            return Ok(true);
        }
    }
    Ok(false)
}

/// Judges the node at which the walk stands, and leaves it unless the predicates keep it.
fn turn(walk: &mut AxisWalk, sieve: &mut Sieve) -> Result<bool, AllocError>
    requires sieve { IsSieve sieve.old.tests sieve.old.seen.items }
    requires stands { is_some (standing walk.old) ≡ true }
    ensures kept { let old = sifted_moves (keeps sieve.old.tests) sieve.old.seen.items walk.old in
        let new = quiet_moves true (keeps sieve.new.tests) sieve.new.seen.items walk.new in
        result ≡ Ok true → new ≡ old }
    ensures stands { result ≡ Ok true → is_some (standing walk.new) ≡ true }
    ensures left { let old = sifted_moves (keeps sieve.old.tests) sieve.old.seen.items walk.old in
        let new = sifted_moves (keeps sieve.new.tests) sieve.new.seen.items walk.new in
        result ≡ Ok false → new ≡ old }
    ensures less { result ≡ Ok false → length walk.new < length walk.old }
    ensures err { OnErr result (walk.new ≡ walk.old) }
    ensures err_seen { OnErr result (sieve.new.seen.items ≡ sieve.old.seen.items) }
    ensures tests { sieve.new.tests ≡ sieve.old.tests }
    ensures sieve { IsSieve sieve.new.tests sieve.new.seen.items }
{
    let kept = judge(walk, sieve)?;
    if !kept {
        walk.pass();
    }
    Ok(kept)
}

/// Judges the node at which the walk stands.
fn judge(walk: &AxisWalk, sieve: &mut Sieve) -> Result<bool, AllocError>
    requires sieve { IsSieve sieve.old.tests sieve.old.seen.items }
    requires stands { is_some (standing walk.now) ≡ true }
    ensures kept { let tests = keeps sieve.old.tests in let seen = sieve.old.seen.items in
        IfOk result (λ kept. Judged kept tests seen sieve.new.seen.items walk.now) }
    ensures err { OnErr result (sieve.new.seen.items ≡ sieve.old.seen.items) }
    ensures tests { sieve.new.tests ≡ sieve.old.tests }
    ensures sieve { IsSieve sieve.new.tests sieve.new.seen.items }
{
    match walk.node()? {
        Some(node) => sieve.keeps(&node),
        None => Ok(false),
    }
}
