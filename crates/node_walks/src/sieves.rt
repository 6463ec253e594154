// Predicates that are asked one node after another (XPath 2.0, 3.2.2).
ghost use Rattle.std.specs.Prelude.{◌≡◌, ◌+◌, ◌<◌, ◌^◌, ℕ, length, replicate, slice_index, true};
ghost use Rattle.std.specs.Prelude.{IfOk, OnOk, OnErr};
ghost use Rattle.quiet_eval.specs.QuietMeaning.Paths.{are_allowed, keeps};
ghost use Rattle.node_axes.specs.StepWalks.Sifted.{kept_in_turn};
ghost use Rattle.xdm_items.specs.declared.items.Item.TheVariants.{Node as a_node};
ghost use Rattle.node_walks.specs.Quiet.{IsSieve};
ghost use Rattle.node_walks.specs.Sift.{is_kept, after};

use node_axes::step_walks::{raise, zeros};
use quiet_eval::holds;
use std::alloc::{AllocError, Global};
use xt_names::{List, Shared};
use xt_syntax::Expr;
use xt_tree::Node;

/// Predicates that filter in turn, and how many nodes have come to each of them. Copies share the
/// predicates.
#[derive(Drop)]
pub(crate) struct Sieve {
    tests: Shared<List<Expr>>,
    seen: Vec<u64>,
}

impl Sieve {
    pub(crate) fn new(alloc: Global, tests: List<Expr>) -> Result<Sieve, AllocError>
        ensures tests { IfOk result (λ sieve. sieve.tests ≡ tests) }
        ensures seen { IfOk result (λ sieve. sieve.seen.items ≡ replicate (length tests) 0) }
    {
        let seen = zeros(alloc, tests.len())?;
        let tests = Shared::make(alloc, tests)?;
        Ok(Sieve { tests, seen })
    }

    /// Whether all predicates keep the node, which has come to them now. Where memory runs out it
    /// has not come yet.
    pub(crate) fn keeps(&mut self, node: &Node) -> Result<bool, AllocError>
        requires { IsSieve self.old.tests self.old.seen.items }
        ensures kept { let tests = keeps self.old.tests in let seen = self.old.seen.items in
            IfOk result (λ kept. kept ≡ is_kept tests seen (a_node node.now)) }
        ensures seen { let tests = keeps self.old.tests in let seen = self.old.seen.items in
            OnOk result (self.new.seen.items ≡ after tests seen (a_node node.now)) }
        ensures tests { self.new.tests ≡ self.old.tests }
        ensures err { OnErr result (self.new.seen.items ≡ self.old.seen.items) }
        ensures sieve { IsSieve self.new.tests self.new.seen.items }
    {
        let alloc = *self.seen.allocator();
        let tests = self.tests.get().as_slice();
        let count = count_kept(alloc, tests, self.seen.as_slice(), node)?;
        let all = tests.len();
        raise(self.seen.as_mut_slice(), count + 1);
        Ok(count == all)
    }

    pub(crate) fn copy(&self) -> Result<Sieve, AllocError>
        ensures tests { IfOk result (λ sieve. sieve.tests ≡ self.now.tests) }
        ensures seen { IfOk result (λ sieve. sieve.seen.items ≡ self.now.seen.items) }
    {
        let mut seen = Vec::with_capacity(*self.seen.allocator(), self.seen.len())?;
        seen.extend_from_slice(self.seen.as_slice())?;
        Ok(Sieve {
            tests: self.tests.copy()?,
            seen,
        })
    }
}

/// How many of the predicates keep the node, one after another, until one does not.
fn count_kept(alloc: Global, tests: &[Expr], seen: &[u64], node: &Node) -> Result<usize, AllocError>
    requires { IsSieve tests.now seen.now }
    ensures count { IfOk result (λ count. count ≡ kept_in_turn (keeps tests.now) seen.now node.now) }
    ensures fits { IfOk result (λ count. (k : ℕ) → k < count + 1
        → slice_index seen.now k + 1 < 2 ^ 64) }
    ensures within { IfOk result (λ count. count < 2 ^ 63) }
{
    let mut place = 0;
    for test in tests {
        let before = seen[place];
        // So many nodes are in no memory.
        if before == u64::MAX {
            return Err(AllocError);
        }
        if !holds(alloc, test, node, before + 1, 0)? {
            return Ok(place);
        }
        place += 1;
    }
    Ok(place)
}
