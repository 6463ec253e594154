// `order by`.
ghost use Rattle.std.specs.Prelude.{◌≡◌, ◌++◌, ◌∷◌, [], IfOk};
ghost use Rattle.expr_control.specs.Bindings.{order_and, orders_in, orders_or, all_orders, stable_or, is_stable, is_descending, descends, key_spec};

use expr_rules::expr_meant::{Meant, expr_of, key_of};
use expr_terms::Key;
use std::alloc::{AllocError, Global};
use xt_names::{List, Shared};
use xt_syntax::Order;

#[tactic(auto, unfolding(crate::specs::Bindings::order_and))]
fn push_order(orders: Vec<Order>, part: &Meant) -> Result<Vec<Order>, AllocError>
    ensures { IfOk result (λ more. more.items ≡ orders.items ++ order_and part.now []) }
{
    let mut orders = orders;
    if let Meant::Order(order) = part {
        orders.push(order.copy()?)?;
    }
    Ok(orders)
}

/// All keys of one `order by`.
pub fn orders_in(alloc: Global, parts: &[Meant]) -> Result<Shared<List<Order>>, AllocError>
    ensures { IfOk result (λ orders. orders ≡ orders_in parts.now) }
{
    let mut orders = Vec::new(alloc);
    for part in parts {
        orders = push_order(orders, part)?;
    }
    Shared::make(alloc, List::of_vec(orders))
}

/// The keys of the first part that has some.
#[tactic(auto, unfolding(crate::specs::Bindings::orders_or))]
pub(crate) fn all_orders(alloc: Global, parts: &[Meant]) -> Result<Shared<List<Order>>, AllocError>
    ensures { IfOk result (λ orders. orders ≡ all_orders parts.now) }
{
    for part in parts {
        if let Meant::Orders(_, orders) = part {
            return orders.copy();
        }
    }
    Shared::make(alloc, List::new(alloc))
}

/// Whether they stand behind `stable`.
#[tactic(auto, unfolding(crate::specs::Bindings::stable_or))]
pub(crate) fn is_stable(parts: &[Meant]) -> bool
    ensures { result ≡ is_stable parts.now }
{
    for part in parts {
        if let Meant::Orders(stable, _) = part {
            return *stable;
        }
    }
    false
}

#[tactic(auto, unfolding(crate::specs::Bindings::is_descending))]
fn is_descending(key: Key) -> bool
    ensures { result ≡ is_descending key }
{
    match key {
        Key::DescendingWord => true,
        _ => false,
    }
}

fn descends(parts: &[Meant]) -> bool
    ensures { result ≡ descends parts.now }
{
    match parts {
        [] => false,
        [way, ..] => is_descending(key_of(way)),
    }
}

/// A key of `order by`.
pub fn key_spec(alloc: Global, parts: &[Meant]) -> Result<Meant, AllocError>
    ensures { IfOk result (λ made. made ≡ key_spec parts.now) }
{
    match parts {
        [] => Ok(Meant::Mark),
        [key, rest @ ..] => Ok(Meant::Order(Order {
            key: expr_of(alloc, key)?,
            descending: descends(rest),
        })),
    }
}
