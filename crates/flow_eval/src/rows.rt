// The tuples of a FLWOR expression.
ghost use Rattle.std.specs.Prelude.{◌≡◌, ◌++◌, ◌∷◌, [], ℕ, map, length, IfOk, OnOk};
ghost use Rattle.xt_atoms.specs.Casts.{wrong_type};
ghost use Rattle.expr_meaning.specs.SortMeaning.Sorted.{ordered};
ghost use Rattle.expr_meaning.specs.Outcomes.Outcome.{step_outcome};
ghost use Rattle.eval_scopes.specs.Answers.{Answers};
ghost use Rattle.eval_scopes.specs.EvalValues.Orders.{places_in_order};
ghost use Rattle.eval_steps.specs.Lists.{AnswersAs};
ghost use Rattle.flow_eval.specs.Rows.{rows_of, tuple_at, tuple_of, are_even, directions_of};

use eval_scopes::eval_values::sorted_places;
use eval_scopes::{EvalFault, Variable, copy_variables};
use eval_steps::WRONG_TYPE;
use order_group::KeyRow;
use std::alloc::{AllocError, Global};
use xt_names::List;
use xt_syntax::Order;

/// Tuples, each of which is what the clauses have bound, the last innermost, and their keys (XQuery
/// 1.0, 3.8).
#[derive(Drop)]
pub(crate) struct Rows {
    tuples: Vec<Vec<Variable>>,
    keys: List<KeyRow>,
}

/// Which keys descend.
#[inline(never)]
fn directions(alloc: Global, orders: &[Order]) -> Result<Vec<bool>, AllocError>
    ensures { IfOk result (λ made. made.items ≡ directions_of orders.now) }
{
    let mut made = Vec::with_capacity(alloc, orders.len())?;
    for order in orders {
        made.push(order.descending)?;
    }
    Ok(made)
}

/// The places of the rows in order; XPTY0004 where keys are of two kinds.
#[inline(never)]
fn sorted_rows(
    alloc: Global,
    keys: &List<KeyRow>,
    descending: &[bool],
) -> Result<List<u64>, EvalFault>
    ensures { (k : ℕ) → Answers result k
        (step_outcome (places_in_order wrong_type descending.now keys.now) k) }
{
    Ok(sorted_places(alloc, WRONG_TYPE, keys, descending)?)
}

impl Rows {
    /// No tuples.
    pub(crate) fn new(alloc: Global) -> Rows
        ensures none { rows_of result ≡ [] }
        ensures even { are_even result }
    {
        Rows {
            tuples: Vec::new(alloc),
            keys: List::new(alloc),
        }
    }

    /// Puts a tuple of these variables at the end.
    #[inline(never)]
    pub(crate) fn push(
        &mut self,
        alloc: Global,
        variables: &[Variable],
        keys: KeyRow,
    ) -> Result<(), AllocError>
        requires { are_even self.old }
        ensures rows { OnOk result (rows_of self.new
            ≡ rows_of self.old ++ record { cells = keys.cells; value = tuple_of variables.now } ∷
            []) }
        ensures even { OnOk result (are_even self.new) }
    {
        self.tuples.push(copy_variables(alloc, variables)?)?;
        self.keys.push(keys)?;
        Ok(())
    }

    /// The places of the tuples, from 0, in the one stable order of their keys; XPTY0004 where keys
    /// are of two kinds (XQuery 1.0, 3.8.3).
    #[inline(never)]
    pub(crate) fn places(&self, alloc: Global, orders: &[Order]) -> Result<List<u64>, EvalFault>
        ensures { (k : ℕ) → AnswersAs (map (tuple_at self.now.tuples.items)) result k
            (ordered wrong_type (directions_of orders.now) (rows_of self.now) k) }
    {
        let descending = directions(alloc, orders)?;
        sorted_rows(alloc, &self.keys, descending.as_slice())
    }

    /// The variables of the tuple at the place; none where there is none.
    pub(crate) fn tuple(&self, place: u64) -> &[Variable]
        ensures { tuple_of result.now ≡ tuple_at self.now.tuples.items place }
    {
        match self.tuples.get(place as usize) {
            Some(variables) => variables.as_slice(),
            None => &[],
        }
    }
}
