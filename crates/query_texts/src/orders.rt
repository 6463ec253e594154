// The order of declarations.
ghost use Rattle.std.specs.Prelude.{◌≡◌};
ghost use Rattle.query_grammar.specs.Prolog.{is_late, is_version};
ghost use Rattle.query_texts.specs.Orders.{placed};

use query_grammar::Declared;

/// Which declarations may come next (XQuery 1.0, 4).
#[derive(Clone, Copy)]
pub enum Order {
    /// Any: none has come yet.
    First,
    /// Any but the version.
    Early,
    /// Variables, functions and options.
    Late,
}

fn is_version(declared: &Declared) -> bool
    ensures { result ≡ is_version declared.now }
{
    match declared {
        Declared::Version(_) => true,
        _ => false,
    }
}

fn is_late(declared: &Declared) -> bool
    ensures { result ≡ is_late declared.now }
{
    match declared {
        Declared::Setting(_, _) => true,
        Declared::Variable(_, _) => true,
        Declared::Function(_, _, _, _) => true,
        _ => false,
    }
}

/// Which declarations may come after this one; None where it may not come itself.
pub fn placed(order: Order, declared: &Declared) -> Option<Order>
    ensures { result ≡ placed order declared.now }
{
    let is_late = is_late(declared);
    match order {
        Order::First => Some(if is_late { Order::Late } else { Order::Early }),
        Order::Early => {
            if is_version(declared) {
                None
            } else {
                Some(if is_late { Order::Late } else { Order::Early })
            }
        }
        Order::Late => { if is_late { Some(Order::Late) } else { None } }
    }
}
