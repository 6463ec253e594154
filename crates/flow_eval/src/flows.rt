// FLWOR expressions: all tuples with their keys, then their order, and then the bodies.
ghost use Rattle.std.specs.Prelude.{◌≡◌, ◌≤◌, ◌+◌, OnOk, map, option_map};
ghost use Rattle.eval_steps.specs.EvalInner.Inner.{CanEvaluate, Evaluates};
ghost use Rattle.flow_eval.specs.Rows.{AnswersRows, row_outcome, tuple_of, tuple_at, are_even};
ghost use Rattle.eval_steps.specs.Lists.{AnswersAs};
ghost use Rattle.eval_steps.specs.Sizes.{bind_nodes, clause_nodes, flwor_nodes, nodes, or_0, order_nodes};
ghost use Rattle.xt_names.specs.Lists.{total};
ghost use Rattle.eval_steps.specs.Steps.{keys_of, test_at};
ghost use Rattle.expr_meaning.specs.Flow.{flow_of, let_clause, for_item, for_place};
ghost use Rattle.expr_meaning.specs.Meaning.{placed_clause, outcome};
ghost use Rattle.eval_steps.specs.Parts.{clause_outcome, order_outcome, flwor_outcome, bind_outcome};
ghost use Rattle.expr_meaning.specs.Env.{bind_all};
ghost use Rattle.eval_scopes.specs.Answers.{Answers};
ghost use Rattle.eval_steps.specs.ValueSlots.Slots.{Leaves};
ghost use Rattle.eval_scopes.specs.Scopes.{env_of};
ghost use Rattle.expr_meaning.specs.Outcomes.Outcome.{and_then, for_each, step_outcome};
ghost use Rattle.expr_meaning.specs.SortMeaning.Sorted.{places};

use crate::flow_streams::is_streamed;
use crate::inner::Flows;
use crate::rows::Rows;
use eval_scopes::eval_values::append;
use eval_scopes::{Env, EvalFault, Variable};
use eval_steps::eval_inner::Within;
use eval_steps::value_slots::put;
use eval_steps::{
    list_size, place_in, pop_variable, push_cell, push_item, push_position, push_value, truth_of,
    tuple_key,
};
use order_group::KeyRow;
use xdm_items::{Item, ItemList};
use xt_names::{ExprName, List, Shared};
use xt_syntax::{Bind, Clause, Expr, Order};

impl<'a, W: Within, E: Fn(&Env, &mut u64, &Expr, &mut ItemList) -> Result<(), EvalFault>> Flows<
    'a,
    W,
    E,
> {
    /// Puts the value of the FLWOR expression (XQuery 1.0, 3.8).
    pub fn eval_flwor(
        &self,
        env: &Env,
        next: &mut u64,
        value: &mut ItemList,
    ) -> Result<(), EvalFault>
        requires callable { CanEvaluate (E.pre self.now.eval) (flwor_nodes self.now.whole.now) }
        requires serves { Evaluates (E.post self.now.eval) (W.program self.now.within.now) }
        ensures { let p = W.program self.now.within.now in
            Leaves result value.new next.new
            (flwor_outcome p self.now.whole.now (env_of env.now) next.old) }
    {
        if is_streamed(self.whole) {
            return self.eval_stream(env, next, self.whole.clauses.get().as_slice(), value);
        }
        self.eval_tuples(env, next, value)
    }

    /// All tuples with their keys, then their order, and then the bodies (XQuery 1.0, 3.8).
    #[inline(never)]
    pub(crate) fn eval_tuples(
        &self,
        env: &Env,
        next: &mut u64,
        value: &mut ItemList,
    ) -> Result<(), EvalFault>
        requires callable { CanEvaluate (E.pre self.now.eval) (flwor_nodes self.now.whole.now) }
        requires serves { Evaluates (E.post self.now.eval) (W.program self.now.within.now) }
        ensures { let p = W.program self.now.within.now in
            Leaves result value.new next.new
            (flwor_outcome p self.now.whole.now (env_of env.now) next.old) }
    {
        let mut bound = Vec::new(self.alloc);
        let mut rows = Rows::new(self.alloc);
        let clauses = self.whole.clauses.get().as_slice();
        self.eval_clauses(env, next, clauses, &mut bound, &mut rows)?;
        drop(bound);
        let places = rows.places(self.alloc, self.whole.orders.get().as_slice())?;
        put(
            self.eval_bodies(env, next, &rows, places.as_slice(), self.whole.body.get()),
            value,
        )
    }

    /// The tuples of the clauses that are left (XQuery 1.0, 3.8).
    #[cycle(clauses)]
    #[inline(never)]
    pub(crate) fn eval_clauses(
        &self,
        env: &Env,
        next: &mut u64,
        clauses: &[Clause],
        bound: &mut Vec<Variable>,
        rows: &mut Rows,
    ) -> Result<(), EvalFault>
        requires callable { CanEvaluate (E.pre self.now.eval) (flwor_nodes self.now.whole.now) }
        requires serves { Evaluates (E.post self.now.eval) (W.program self.now.within.now) }
        requires within { total (map clause_nodes clauses.now) ≤ flwor_nodes self.now.whole.now }
        requires even { are_even rows.old }
        ensures rows { let p = W.program self.now.within.now in
            AnswersRows result rows.old rows.new next.new
            (flow_of (map (clause_outcome p) clauses.now) (row_outcome p self.now.whole.now)
            (tuple_of bound.old.items) (env_of env.now) next.old) }
        ensures bound { OnOk result (bound.new.items ≡ bound.old.items) }
    {
        match clauses {
            [] => self.eval_row(env, next, bound, rows),
            [first, rest @ ..] => match first {
                Clause::For(bind, place) => {
                    self.eval_for(env, next, bind, place, rest, bound, rows)
                }
                Clause::Let(bind) => self.eval_let(env, next, bind, rest, bound, rows),
            },
        }
    }

    /// A `let` and what follows it (XQuery 1.0, 3.8.1).
    #[cycle(clauses)]
    #[inline(never)]
    pub(crate) fn eval_let(
        &self,
        env: &Env,
        next: &mut u64,
        bind: &Bind,
        rest: &[Clause],
        bound: &mut Vec<Variable>,
        rows: &mut Rows,
    ) -> Result<(), EvalFault>
        requires callable { CanEvaluate (E.pre self.now.eval) (flwor_nodes self.now.whole.now) }
        requires serves { Evaluates (E.post self.now.eval) (W.program self.now.within.now) }
        requires within { bind_nodes bind.now + total (map clause_nodes rest.now)
            ≤ flwor_nodes self.now.whole.now }
        requires even { are_even rows.old }
        ensures rows { let p = W.program self.now.within.now in
            AnswersRows result rows.old rows.new next.new
            (let_clause (bind_outcome p bind.now) (flow_of (map (clause_outcome p) rest.now)
            (row_outcome p self.now.whole.now)) (tuple_of bound.old.items) (env_of env.now)
            next.old) }
        ensures bound { OnOk result (bound.new.items ≡ bound.old.items) }
    {
        let items = self.eval_behind(env, next, bound.as_slice(), bind.source.get())?;
        push_value(self.alloc, bound, bind, items)?;
        self.eval_clauses(env, next, rest, bound, rows)?;
        pop_variable(bound);
        Ok(())
    }

    /// A `for` and what follows it (XQuery 1.0, 3.8.1).
    #[cycle(clauses)]
    #[inline(never)]
    pub(crate) fn eval_for(
        &self,
        env: &Env,
        next: &mut u64,
        bind: &Bind,
        place: &Option<ExprName>,
        rest: &[Clause],
        bound: &mut Vec<Variable>,
        rows: &mut Rows,
    ) -> Result<(), EvalFault>
        requires callable { CanEvaluate (E.pre self.now.eval) (flwor_nodes self.now.whole.now) }
        requires serves { Evaluates (E.post self.now.eval) (W.program self.now.within.now) }
        requires within { bind_nodes bind.now + total (map clause_nodes rest.now)
            ≤ flwor_nodes self.now.whole.now }
        requires even { are_even rows.old }
        ensures rows { let p = W.program self.now.within.now in
            AnswersRows result rows.old rows.new next.new
            (placed_clause (bind_outcome p bind.now) place.now
            (flow_of (map (clause_outcome p) rest.now) (row_outcome p self.now.whole.now))
            (tuple_of bound.old.items) (env_of env.now) next.old) }
        ensures bound { OnOk result (bound.new.items ≡ bound.old.items) }
    {
        let items = self.eval_behind(env, next, bound.as_slice(), bind.source.get())?;
        match place {
            None => self.eval_turns(env, next, bind, items.as_slice(), rest, bound, rows),
            Some(at) => {
                self.eval_places(env, next, bind, at, items.as_slice(), rest, bound, rows)
            }
        }
    }

    /// What follows a `for`, at each of its items (XQuery 1.0, 3.8.1).
    #[cycle(clauses)]
    #[inline(never)]
    pub(crate) fn eval_turns(
        &self,
        env: &Env,
        next: &mut u64,
        bind: &Bind,
        items: &[Item],
        rest: &[Clause],
        bound: &mut Vec<Variable>,
        rows: &mut Rows,
    ) -> Result<(), EvalFault>
        requires callable { CanEvaluate (E.pre self.now.eval) (flwor_nodes self.now.whole.now) }
        requires serves { Evaluates (E.post self.now.eval) (W.program self.now.within.now) }
        requires within { total (map clause_nodes rest.now) ≤ flwor_nodes self.now.whole.now }
        requires even { are_even rows.old }
        ensures rows { let p = W.program self.now.within.now in
            AnswersRows result rows.old rows.new next.new
            (for_each (for_item (bind_outcome p bind.now) (flow_of (map (clause_outcome p) rest.now)
            (row_outcome p self.now.whole.now)) (tuple_of bound.old.items) (env_of env.now))
            items.now next.old) }
        ensures bound { OnOk result (bound.new.items ≡ bound.old.items) }
    {
        for item in items {
            push_item(self.alloc, bound, bind, item)?;
            self.eval_clauses(env, next, rest, bound, rows)?;
            pop_variable(bound);
        }
        Ok(())
    }

    /// The same with the position of each item (XQuery 1.0, 3.8.1).
    #[cycle(clauses)]
    #[inline(never)]
    pub(crate) fn eval_places(
        &self,
        env: &Env,
        next: &mut u64,
        bind: &Bind,
        at: &ExprName,
        items: &[Item],
        rest: &[Clause],
        bound: &mut Vec<Variable>,
        rows: &mut Rows,
    ) -> Result<(), EvalFault>
        requires callable { CanEvaluate (E.pre self.now.eval) (flwor_nodes self.now.whole.now) }
        requires serves { Evaluates (E.post self.now.eval) (W.program self.now.within.now) }
        requires within { total (map clause_nodes rest.now) ≤ flwor_nodes self.now.whole.now }
        requires even { are_even rows.old }
        ensures rows { let p = W.program self.now.within.now in
            AnswersRows result rows.old rows.new next.new
            (and_then (step_outcome (places items.now) next.old)
            (for_each (for_place (bind_outcome p bind.now) at.now
            (flow_of (map (clause_outcome p) rest.now) (row_outcome p self.now.whole.now))
            (tuple_of bound.old.items) (env_of env.now)))) }
        ensures bound { OnOk result (bound.new.items ≡ bound.old.items) }
    {
        let size = list_size(items)?;
        let mut position = 0;
        for item in items {
            position += 1;
            push_item(self.alloc, bound, bind, item)?;
            push_position(self.alloc, bound, at, place_in(size, position))?;
            self.eval_clauses(env, next, rest, bound, rows)?;
            pop_variable(bound);
            pop_variable(bound);
        }
        Ok(())
    }

    /// A tuple, if its test is true, with its keys (XQuery 1.0, 3.8.2 and 3.8.3).
    #[inline(never)]
    pub(crate) fn eval_row(
        &self,
        env: &Env,
        next: &mut u64,
        bound: &[Variable],
        rows: &mut Rows,
    ) -> Result<(), EvalFault>
        requires callable { CanEvaluate (E.pre self.now.eval) (flwor_nodes self.now.whole.now) }
        requires serves { Evaluates (E.post self.now.eval) (W.program self.now.within.now) }
        requires even { are_even rows.old }
        ensures rows { let p = W.program self.now.within.now in
            AnswersRows result rows.old rows.new next.new
            (row_outcome p self.now.whole.now (tuple_of bound.now) (env_of env.now) next.old) }
    {
        let kept = self.eval_where(env, next, bound, &self.whole.test)?;
        if kept {
            let keys = self.eval_keys(env, next, bound, self.whole.orders.get().as_slice())?;
            rows.push(self.alloc, bound, keys)?;
        }
        Ok(())
    }

    /// The test of a tuple, where there is one (XQuery 1.0, 3.8.2).
    #[inline(never)]
    pub(crate) fn eval_where(
        &self,
        env: &Env,
        next: &mut u64,
        bound: &[Variable],
        test: &Option<Shared<Expr>>,
    ) -> Result<bool, EvalFault>
        requires callable { CanEvaluate (E.pre self.now.eval) (flwor_nodes self.now.whole.now) }
        requires serves { Evaluates (E.post self.now.eval) (W.program self.now.within.now) }
        requires within { or_0 (option_map nodes test.now) ≤ flwor_nodes self.now.whole.now }
        ensures { let p = W.program self.now.within.now in
            Answers result next.new (test_at (option_map (outcome p) test.now)
            (bind_all (tuple_of bound.now) (env_of env.now)) next.old) }
    {
        match test {
            None => Ok(true),
            Some(test) => {
                let list = self.eval_behind(env, next, bound, test.get())?;
                truth_of(list)
            }
        }
    }

    /// The keys of a tuple (XQuery 1.0, 3.8.3).
    #[inline(never)]
    pub(crate) fn eval_keys(
        &self,
        env: &Env,
        next: &mut u64,
        bound: &[Variable],
        orders: &[Order],
    ) -> Result<KeyRow, EvalFault>
        requires callable { CanEvaluate (E.pre self.now.eval) (flwor_nodes self.now.whole.now) }
        requires serves { Evaluates (E.post self.now.eval) (W.program self.now.within.now) }
        requires within { total (map order_nodes orders.now) ≤ flwor_nodes self.now.whole.now }
        ensures { let p = W.program self.now.within.now in
            AnswersAs (λ r. r.cells) result next.new (keys_of (map (order_outcome p) orders.now)
            (bind_all (tuple_of bound.now) (env_of env.now)) next.old) }
    {
        let mut cells = List::new(self.alloc);
        for order in orders {
            let list = self.eval_behind(env, next, bound, order.key.get())?;
            let cell = tuple_key(self.alloc, list)?;
            push_cell(&mut cells, cell)?;
        }
        Ok(KeyRow { cells })
    }

    /// The bodies of the tuples (XQuery 1.0, 3.8).
    #[inline(never)]
    pub(crate) fn eval_bodies(
        &self,
        env: &Env,
        next: &mut u64,
        rows: &Rows,
        places: &[u64],
        body: &Expr,
    ) -> Result<ItemList, EvalFault>
        requires callable { CanEvaluate (E.pre self.now.eval) (flwor_nodes self.now.whole.now) }
        requires serves { Evaluates (E.post self.now.eval) (W.program self.now.within.now) }
        requires within { nodes body.now ≤ flwor_nodes self.now.whole.now }
        ensures { let p = W.program self.now.within.now in
            Answers result next.new (for_each (λ bound. outcome p body.now
            (bind_all bound (env_of env.now)))
            (map (tuple_at rows.now.tuples.items) places.now) next.old) }
    {
        let mut list = ItemList::new(self.alloc);
        for place in places {
            let more = self.eval_behind(env, next, rows.tuple(*place), body)?;
            list = append(list, more)?;
        }
        Ok(list)
    }
}
