// How many nodes have come to each predicate.
ghost use Rattle.std.specs.Prelude.{◌≡◌, ◌+◌, ◌<◌, ◌≤◌, ◌^◌, ℕ, List, ◌∷◌, Bool, IfOk, length, replicate, suc, nat_eq, slice_index};
ghost use Rattle.xt_tree.specs.Place.{Place};
ghost use Rattle.node_axes.specs.StepWalks.Nodes.{Focus, kept_by_all};
ghost use Rattle.node_axes.specs.StepWalks.Sifted.{IsSizeFree, AreSizeFree, sifted, kept_in_turn, raised, alone_if};

use std::alloc::{AllocError, Global};

/// Predicates that do not look at how many nodes there are keep the same nodes where the nodes come one by one, each with the
/// number of those that came before it (XPath 2.0, 3.2.2).
pub fn predicates_in_turn_need_no_list()
    ensures begin { (tests : List (Focus → Bool)) (nodes : List Place) → AreSizeFree tests → kept_by_all tests nodes ≡ sifted tests (replicate (length tests) 0) nodes }
    ensures next { (tests : List (Focus → Bool)) (seen : List ℕ) (n : Place) (rest : List Place) → length seen ≡ length tests →
        sifted tests seen (n ∷ rest) ≡ alone_if (nat_eq (kept_in_turn tests seen n) (length tests)) n (sifted tests (raised (suc (kept_in_turn tests seen n)) seen) rest) }
{}

/// The numbers before the first node has come.
pub fn zeros(alloc: Global, len: usize) -> Result<Vec<u64>, AllocError>
    ensures { IfOk result (λ made. made.items ≡ replicate len 0) }
{
    vec![in alloc; 0; len]
}

/// Counts one node more for the first so many predicates, or for all of them where there are fewer.
pub fn raise(seen: &mut [u64], count: usize)
    requires { (k : ℕ) → k < count → slice_index seen.old k + 1 < 2 ^ 64 }
    ensures { seen.new ≡ raised count seen.old }
{
    let mut place = 0;
    while place < count && place < seen.len() {
        seen[place] += 1;
        place += 1;
    }
}
