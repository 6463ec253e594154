// What holds of the order of rows, whatever they are.
ghost use Rattle.std.specs.Prelude.{Bool, List, ◌≡◌, length};
ghost use Rattle.order_group.specs.Rows.{Keyed, stands_before};
ghost use Rattle.order_group.specs.Stable.{IsTheStableOrder, IsNatural};
ghost use Rattle.xt_names.specs.Lists.{stable_order};

/// Rows of keys have exactly one stable order, whatever the directions are.
pub fn rows_have_one_order<A>()
    ensures { (descending : List Bool) (rows : List (Keyed A)) →
        IsTheStableOrder (stands_before descending) rows }
{}

/// To put values in order is to put their places, or any names of them, in order.
pub fn sorted_values_follow_their_keys<X, Y>()
    ensures natural { (below : Y → Y → Bool) (f : X → Y) (xs : List X) → IsNatural below f xs }
    ensures long { (below : X → X → Bool) (xs : List X) →
        length (stable_order below xs) ≡ length xs }
{}
