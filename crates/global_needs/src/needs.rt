// On which globals each depends.
ghost use Rattle.std.specs.Prelude.{◌≡◌, ◌++◌, IfOk, OnOk, map, length};
ghost use Rattle.global_order.specs.Order.{order_of};
ghost use Rattle.global_order.specs.GraphOrders.Needs.{needs_from};
ghost use Rattle.global_order.specs.GraphOrders.Behind.{are_behind};
ghost use Rattle.global_needs.specs.Needs.{graph_of, needs};

use crate::rows::{push_ends, push_functions, push_globals, push_rules, push_templates};
use crate::shapes::{Shape, measured};
use global_order::graph_orders::{are_behind_by, needs_by, order_by};
use std::alloc::{AllocError, Global};
use xt_names::List;
use xt_sheets::Sheet;

fn graph(alloc: Global, shape: &Shape, sheet: &Sheet) -> Result<Vec<List<usize>>, AllocError>
    ensures { IfOk result (λ graph. graph.items ≡ graph_of shape.now sheet.now) }
{
    let mut graph = Vec::new(alloc);
    push_globals(alloc, &mut graph, shape, sheet.globals.as_slice())?;
    push_functions(alloc, &mut graph, shape, sheet.functions.as_slice())?;
    push_templates(alloc, &mut graph, shape, false, sheet.templates.as_slice())?;
    push_templates(alloc, &mut graph, shape, true, sheet.templates.as_slice())?;
    push_ends(alloc, &mut graph, sheet.modes.as_slice())?;
    push_ends(alloc, &mut graph, sheet.globals.as_slice())?;
    push_rules(&mut graph, shape, sheet.rules.as_slice())?;
    Ok(graph)
}

/// For each global variable and parameter, in order, the places of those on which it depends, each
/// once (XSLT 2.0, 9.5). No two globals, and no two functions with as many parameters, have one name,
/// as in every stylesheet that breaks no rule.
pub fn global_needs(alloc: Global, sheet: &Sheet) -> Result<List<List<usize>>, AllocError>
    ensures { IfOk result (λ all. all ≡ needs sheet.now) }
{
    let shape = measured(alloc, sheet)?;
    let graph = graph(alloc, &shape, sheet)?;
    needs_by(
        alloc,
        graph.as_slice(),
        shape.globals_at,
        sheet.globals.len(),
    )
}

/// The places of the globals in the order in which they are evaluated: that which `order` of
/// `global_order` gives of what `global_needs` tells, without the list of that (XSLT 2.0, 9.5).
pub fn needed_order(alloc: Global, sheet: &Sheet) -> Result<List<usize>, AllocError>
    ensures { IfOk result (λ order. order ≡ order_of (needs sheet.now)) }
{
    if let [] = sheet.globals.as_slice() {
        return Ok(List::new(alloc));
    }
    let shape = measured(alloc, sheet)?;
    let graph = graph(alloc, &shape, sheet)?;
    order_by(
        alloc,
        graph.as_slice(),
        shape.globals_at,
        sheet.globals.len(),
    )
}

/// Whether each global comes after those on which it depends, without the list of these (XSLT 2.0,
/// 9.5).
pub fn globals_stand_behind(alloc: Global, sheet: &Sheet) -> Result<bool, AllocError>
    ensures { IfOk result (λ behind. behind ≡ are_behind 0 (needs sheet.now)) }
{
    let shape = measured(alloc, sheet)?;
    let graph = graph(alloc, &shape, sheet)?;
    are_behind_by(
        alloc,
        graph.as_slice(),
        shape.globals_at,
        sheet.globals.len(),
    )
}
