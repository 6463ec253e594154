// The program that expressions stand in.
ghost use Rattle.std.specs.Prelude.{◌≡◌, ◌≤◌, ◌<◌, map, length, ℕ, true};
ghost use Rattle.constructor_eval.specs.Constructors.{is_computed, is_direct};
ghost use Rattle.path_eval.specs.Forms.{asks_at_items};
ghost use Rattle.eval_steps.specs.EvalLates.Late.{AnswersLate};
ghost use Rattle.expr_meaning.specs.Outcomes.Outcome.{Ends, step_outcome};
ghost use Rattle.expr_meaning.specs.Env.{Calls, Keys};
ghost use Rattle.expr_meaning.specs.Calls.{call_value, found_by_key, document_value};
ghost use Rattle.fn_lib.specs.Values.{argument};
ghost use Rattle.expr_meaning.specs.Calls.{current_value, key_of, library_value, members_of};
ghost use Rattle.operator_values.specs.Operands.{atom_of};
ghost use Rattle.eval_calls.specs.Called.{called_as};
ghost use Rattle.eval_scopes.specs.Answers.{Answers};
ghost use Rattle.eval_steps.specs.ValueSlots.Slots.{Leaves};
ghost use Rattle.eval_scopes.specs.Scopes.{env_of, program_of};
ghost use Rattle.eval_steps.specs.Parts.{flwor_outcome};
ghost use Rattle.eval_steps.specs.Sizes.{flwor_nodes, nodes};
ghost use Rattle.expr_eval.specs.Serves.{Serves};
ghost use Rattle.expr_meaning.specs.Meaning.{outcome};

use constructor_eval::Constructor;
use eval_calls::{
    Called, call_library, current_item, group_key, group_members, key_name, key_root,
};
use eval_scopes::{Env, EvalFault, Fixed, document_value};
use eval_steps::eval_inner::{Calling, Form, Within};
use eval_steps::value_slots::put;
use flow_eval::Flows;
use fn_lib::argument;
use function_table::Builtin;
use lazy_seq::Seq;
use path_eval::ItemForm;
use std::alloc::Global;
use xdm_items::ItemList;
use xt_names::{ExprName, Text};
use xt_syntax::{Expr, Flwor};
use xt_tree::Node;

/// Of what program the calls are, and what key() finds in it.
pub trait Callee {
    ghost use Rattle.std.specs.Prelude.{map};
    ghost use Rattle.expr_meaning.specs.Env.{Calls, Keys};
    ghost use Rattle.operator_values.specs.Operands.{atom_of};
    ghost use Rattle.eval_scopes.specs.Answers.{Answers};

    ghost calls: { Self → Calls };

    ghost keys: { Self → Keys };

    /// What key() of this name finds in the tree of this root, where one of the values is the same
    /// (XSLT 2.0, 16.3).
    fn find_by_key(
        &self,
        alloc: Global,
        name: &Text,
        values: &ItemList,
        root: &Node,
        next: &mut u64,
    ) -> Result<ItemList, EvalFault>
        ensures { Answers result next.new (keys self.now name.now (map atom_of values.now) root.now
            next.old) };
}

/// A program whose expressions are evaluated.
#[derive(Drop)]
pub struct Host<'a, G, F> {
    pub alloc: Global,
    pub fixed: Fixed<'a>,
    /// Which calls these are.
    pub given: G,
    /// What makes them: the name, the arguments, and the next number of a tree.
    pub calls: F,
}

impl<'a, G: Callee, F> Calling for Host<'a, G, F> {
    ghost calls = { λ h. G.calls h.given };

    ghost keys = { λ h. G.keys h.given };
}

impl<'a, G: Callee, F> Within for Host<'a, G, F> {
    ghost use Rattle.eval_scopes.specs.Scopes.{program_of};

    ghost program = { λ h. program_of h.fixed (G.calls h.given) (G.keys h.given) };
}

impl<'a, G: Callee, F: Fn(&ExprName, &[ItemList], &mut u64) -> Result<ItemList, EvalFault>> Host<
    'a,
    G,
    F,
> {
    /// A call of a function that the program declares.
    #[tactic(auto, unfolding(crate::specs::Serves::Serves))]
    fn call_declared(
        &self,
        next: &mut u64,
        name: &ExprName,
        lists: &[ItemList],
    ) -> Result<ItemList, EvalFault>
        requires callable { F.IsAlwaysCallable self.now.calls }
        requires serves { Serves (F.post self.now.calls) (G.calls self.now.given) }
        ensures { Answers result next.new (G.calls self.now.given name.now lists.now next.old) }
    {
        (self.calls)(name, lists, next)
    }

    /// key(), once its arguments are evaluated (XSLT 2.0, 16.3).
    #[inline(never)]
    fn call_key(&self, env: &Env, next: &mut u64, lists: &[ItemList]) -> Result<ItemList, EvalFault>
        ensures { let p = program_of self.now.fixed (G.calls self.now.given)
            (G.keys self.now.given) in
            Answers result next.new (found_by_key p (env_of env.now) lists.now next.old) }
    {
        let alloc = self.alloc;
        let none = ItemList::new(alloc);
        let root = key_root(alloc, env.focus)?;
        let name = key_name(alloc, argument(lists, 0, &none))?;
        self.given
            .find_by_key(alloc, &name, argument(lists, 1, &none), &root, next)
    }

    /// doc() and document(), once the argument is evaluated (Functions and Operators, 15.5.4).
    #[inline(never)]
    fn document(&self, lists: &[ItemList]) -> Result<ItemList, EvalFault>
        ensures { (k : ℕ) → Answers result k (step_outcome (document_value
            (program_of self.now.fixed (G.calls self.now.given) (G.keys self.now.given))
            (argument lists.now 0)) k) }
    {
        let none = ItemList::new(self.alloc);
        document_value(self.alloc, &self.fixed, argument(lists, 0, &none))
    }

    /// A call, once its arguments are evaluated (XPath 2.0, 3.1.5).
    #[inline(never)]
    pub(crate) fn call(
        &self,
        env: &Env,
        next: &mut u64,
        called: Called,
        name: &ExprName,
        lists: &[ItemList],
        value: &mut ItemList,
    ) -> Result<(), EvalFault>
        requires callable { F.IsAlwaysCallable self.now.calls }
        requires serves { Serves (F.post self.now.calls) (G.calls self.now.given) }
        ensures { let p = program_of self.now.fixed (G.calls self.now.given)
            (G.keys self.now.given) in
            Leaves result value.new next.new (call_value p (called_as called) name.now (env_of env.now)
            lists.now next.old) }
    {
        let alloc = self.alloc;
        let found = match called {
            Called::Library(f) => library(alloc, f, env, lists),
            Called::Document => self.document(lists),
            Called::Current => current(alloc, env),
            Called::CurrentGroup => members(alloc, env),
            Called::CurrentKey => grouping_key(alloc, env),
            Called::Key => self.call_key(env, next, lists),
            Called::Declared => self.call_declared(next, name, lists),
        };
        put(found, value)
    }

    /// A FLWOR expression, with what evaluates the expressions within it (XQuery 1.0, 3.8).
    #[cycle(eval)]
    #[inline(never)]
    pub(crate) fn eval_flwor(
        &self,
        env: &Env,
        next: &mut u64,
        parts: &Flwor,
        value: &mut ItemList,
    ) -> Result<(), EvalFault>
        requires callable { F.IsAlwaysCallable self.now.calls }
        requires serves { Serves (F.post self.now.calls) (G.calls self.now.given) }
        ensures { let p = program_of self.now.fixed (G.calls self.now.given)
            (G.keys self.now.given) in
            Leaves result value.new next.new (flwor_outcome p parts.now (env_of env.now) next.old) }
    {
        let eval = |env: &Env, next: &mut u64, e: &Expr, value: &mut ItemList| -> Result<
            (),
            EvalFault,
        >
            requires callable { F.IsAlwaysCallable self.now.calls }
            requires serves { Serves (F.post self.now.calls) (G.calls self.now.given) }
            requires within { nodes e.now ≤ flwor_nodes parts.now }
            ensures { let host = self.entry.now in
                let p = program_of host.fixed (G.calls host.given) (G.keys host.given) in
                Leaves result value.new next.new (outcome p e.now (env_of env.now) next.old) }
        {
            // What is captured is what a clause can name.
            let _whole = parts;
            self.eval_into(env, next, e, value)
        };
        let flows = Flows {
            alloc: self.alloc,
            within: &*self,
            whole: &*parts,
            eval,
        };
        flows.eval_flwor(env, next, value)
    }

    /// A direct element, with what evaluates the expressions within it (XQuery 1.0, 3.7.1).
    #[cycle(eval)]
    #[inline(never)]
    pub(crate) fn eval_direct(
        &self,
        env: &Env,
        next: &mut u64,
        whole: &Expr,
        value: &mut ItemList,
    ) -> Result<(), EvalFault>
        requires callable { F.IsAlwaysCallable self.now.calls }
        requires serves { Serves (F.post self.now.calls) (G.calls self.now.given) }
        requires form { is_direct whole.now ≡ true }
        ensures { let p = program_of self.now.fixed (G.calls self.now.given)
            (G.keys self.now.given) in
            Leaves result value.new next.new (outcome p whole.now (env_of env.now) next.old) }
    {
        let eval = |env: &Env, next: &mut u64, e: &Expr, value: &mut ItemList| -> Result<
            (),
            EvalFault,
        >
            requires callable { F.IsAlwaysCallable self.now.calls }
            requires serves { Serves (F.post self.now.calls) (G.calls self.now.given) }
            requires within { nodes e.now < nodes whole.now }
            ensures { let host = self.entry.now in
                let p = program_of host.fixed (G.calls host.given) (G.keys host.given) in
                Leaves result value.new next.new (outcome p e.now (env_of env.now) next.old) }
        {
            let _whole = whole;
            self.eval_into(env, next, e, value)
        };
        let form = Form {
            alloc: self.alloc,
            fixed: &self.fixed,
            within: &*self,
            whole: &*whole,
            eval,
        };
        Constructor { form }.eval_direct(env, next, value)
    }

    /// A computed constructor, with what evaluates the expressions within it (XQuery 1.0, 3.7.3).
    #[cycle(eval)]
    #[inline(never)]
    pub(crate) fn eval_computed(
        &self,
        env: &Env,
        next: &mut u64,
        whole: &Expr,
        value: &mut ItemList,
    ) -> Result<(), EvalFault>
        requires callable { F.IsAlwaysCallable self.now.calls }
        requires serves { Serves (F.post self.now.calls) (G.calls self.now.given) }
        requires form { is_computed whole.now ≡ true }
        ensures { let p = program_of self.now.fixed (G.calls self.now.given)
            (G.keys self.now.given) in
            Leaves result value.new next.new (outcome p whole.now (env_of env.now) next.old) }
    {
        let eval = |env: &Env, next: &mut u64, e: &Expr, value: &mut ItemList| -> Result<
            (),
            EvalFault,
        >
            requires callable { F.IsAlwaysCallable self.now.calls }
            requires serves { Serves (F.post self.now.calls) (G.calls self.now.given) }
            requires within { nodes e.now < nodes whole.now }
            ensures { let host = self.entry.now in
                let p = program_of host.fixed (G.calls host.given) (G.keys host.given) in
                Leaves result value.new next.new (outcome p e.now (env_of env.now) next.old) }
        {
            let _whole = whole;
            self.eval_into(env, next, e, value)
        };
        let form = Form {
            alloc: self.alloc,
            fixed: &self.fixed,
            within: &*self,
            whole: &*whole,
            eval,
        };
        Constructor { form }.eval_computed(env, next, value)
    }

    /// A path, a step, a filter or a quantifier, with what evaluates the expressions within it (XPath
    /// 2.0, 3.2, 3.3.2 and 3.9).
    #[cycle(eval)]
    #[inline(never)]
    pub(crate) fn eval_item_form(
        &self,
        env: &Env,
        next: &mut u64,
        whole: &Expr,
        value: &mut ItemList,
    ) -> Result<(), EvalFault>
        requires callable { F.IsAlwaysCallable self.now.calls }
        requires serves { Serves (F.post self.now.calls) (G.calls self.now.given) }
        requires form { asks_at_items whole.now ≡ true }
        ensures { let p = program_of self.now.fixed (G.calls self.now.given)
            (G.keys self.now.given) in
            Leaves result value.new next.new (outcome p whole.now (env_of env.now) next.old) }
    {
        let eval = |env: &Env, next: &mut u64, e: &Expr, value: &mut ItemList| -> Result<
            (),
            EvalFault,
        >
            requires callable { F.IsAlwaysCallable self.now.calls }
            requires serves { Serves (F.post self.now.calls) (G.calls self.now.given) }
            requires within { nodes e.now < nodes whole.now }
            ensures { let host = self.entry.now in
                let p = program_of host.fixed (G.calls host.given) (G.keys host.given) in
                Leaves result value.new next.new (outcome p e.now (env_of env.now) next.old) }
        {
            let _whole = whole;
            self.eval_into(env, next, e, value)
        };
        let late = |env: &Env, next: &mut u64, e: &Expr| -> Result<Seq, EvalFault>
            requires callable { F.IsAlwaysCallable self.now.calls }
            requires serves { Serves (F.post self.now.calls) (G.calls self.now.given) }
            requires within { nodes e.now < nodes whole.now }
            ensures { let host = self.entry.now in
                let p = program_of host.fixed (G.calls host.given) (G.keys host.given) in
                AnswersLate result next.new (outcome p e.now (env_of env.now) next.old) }
        {
            let _whole = whole;
            self.eval_late(env, next, e)
        };
        let form = Form {
            alloc: self.alloc,
            fixed: &self.fixed,
            within: &*self,
            whole: &*whole,
            eval,
        };
        ItemForm { form, late }.eval_form(env, next, value)
    }
}

/// What a function of the library gives (XQuery 1.0 and XPath 2.0 Functions and Operators).
#[inline(never)]
fn library(alloc: Global, f: Builtin, env: &Env, lists: &[ItemList]) -> Result<ItemList, EvalFault>
    ensures { (k : ℕ) → Answers result k
        (step_outcome (library_value f (env_of env.now).focus lists.now) k) }
{
    Ok(call_library(alloc, f, env.focus, lists)?)
}

/// current() (XSLT 2.0, 16.6.1).
#[inline(never)]
fn current(alloc: Global, env: &Env) -> Result<ItemList, EvalFault>
    ensures { (k : ℕ) → Answers result k
        (step_outcome (current_value (env_of env.now).state.current) k) }
{
    Ok(current_item(alloc, env.state.current)?)
}

/// current-group() (XSLT 2.0, 14.1).
#[inline(never)]
fn members(alloc: Global, env: &Env) -> Result<ItemList, EvalFault>
    ensures { (k : ℕ) → Answers result k (Ends (members_of (env_of env.now).state.group) k) }
{
    Ok(group_members(alloc, env.state.group)?)
}

/// current-grouping-key() (XSLT 2.0, 14.2).
#[inline(never)]
fn grouping_key(alloc: Global, env: &Env) -> Result<ItemList, EvalFault>
    ensures { (k : ℕ) → Answers result k (Ends (key_of (env_of env.now).state.group) k) }
{
    Ok(group_key(alloc, env.state.group)?)
}
