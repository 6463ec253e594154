// The value of an expression, form by form.
ghost use Rattle.std.specs.Prelude.{map};
ghost use Rattle.eval_scopes.specs.Answers.{Answers};
ghost use Rattle.eval_steps.specs.ValueSlots.Slots.{Leaves};
ghost use Rattle.eval_scopes.specs.Scopes.{env_of, program_of};
ghost use Rattle.expr_eval.specs.Serves.{Serves};
ghost use Rattle.expr_meaning.specs.Meaning.{outcome};
ghost use Rattle.expr_meaning.specs.Values.{comma_of, unary, binary};
ghost use Rattle.operator_values.specs.Types.{instance_value, treated_value};
ghost use Rattle.eval_scopes.specs.EvalValues.Operators.{value_of_one, value_of_two};

use crate::hosts::{Callee, Host};
use eval_scopes::eval_values::{OneOperator, Operator, append};
use eval_scopes::{Env, EvalFault};
use eval_steps::value_slots::{
    apply_alone, apply_to, check_instance, put_context, put_integer, put_root, put_text,
    put_variable, treat,
};
use xdm_items::ItemList;
use xt_names::ExprName;
use xt_syntax::{Expr, Flwor};
use xt_types::SeqType;

impl<'a, G: Callee, F: Fn(&ExprName, &[ItemList], &mut u64) -> Result<ItemList, EvalFault>> Host<
    'a,
    G,
    F,
> {
    /// The value of an expression, where calls are those of the program (XPath 2.0, 3; XQuery 1.0,
    /// 3). Errors come by their codes exactly where the meaning of the expression has them, in its
    /// order.
    #[cycle(eval)]
    pub fn eval(&self, env: &Env, next: &mut u64, e: &Expr) -> Result<ItemList, EvalFault>
        requires callable { F.IsAlwaysCallable self.now.calls }
        requires serves { Serves (F.post self.now.calls) (G.calls self.now.given) }
        ensures { let p = program_of self.now.fixed (G.calls self.now.given)
            (G.keys self.now.given) in
            Answers result next.new (outcome p e.now (env_of env.now) next.old) }
    {
        let mut value = ItemList::new(self.alloc);
        self.eval_into(env, next, e, &mut value)?;
        Ok(value)
    }

    /// Puts the value of an expression in place of what is there, form by form (XPath 2.0, 3;
    /// XQuery 1.0, 3).
    #[cycle(eval)]
    #[inline(never)]
    pub(crate) fn eval_into(
        &self,
        env: &Env,
        next: &mut u64,
        e: &Expr,
        value: &mut ItemList,
    ) -> Result<(), EvalFault>
        requires callable { F.IsAlwaysCallable self.now.calls }
        requires serves { Serves (F.post self.now.calls) (G.calls self.now.given) }
        ensures { let p = program_of self.now.fixed (G.calls self.now.given)
            (G.keys self.now.given) in
            Leaves result value.new next.new (outcome p e.now (env_of env.now) next.old) }
    {
        let alloc = self.alloc;
        match e {
            Expr::Int(number) => put_integer(alloc, *number, value),
            Expr::Str(text) => put_text(alloc, text, value),
            Expr::Var(name) => put_variable(alloc, &self.fixed, env, name, value),
            Expr::Context => put_context(alloc, env, value),
            Expr::Root => put_root(alloc, env, value),
            Expr::Comma(all) => self.eval_comma(env, next, all.get().as_slice(), value),
            Expr::Or(all) => self.eval_or(env, next, all.get().as_slice(), value),
            Expr::And(all) => self.eval_and(env, next, all.get().as_slice(), value),
            Expr::If(arms, other) => {
                self.eval_if(env, next, arms.get().as_slice(), other.get(), value)
            }
            Expr::Flwor(parts) => self.eval_flwor(env, next, parts, value),
            Expr::General(op, a, b) => {
                self.eval_two(env, next, Operator::General(*op), a.get(), b.get(), value)
            }
            Expr::Value(op, a, b) => {
                self.eval_two(env, next, Operator::Value(*op), a.get(), b.get(), value)
            }
            Expr::Is(a, b) => self.eval_two(env, next, Operator::Is, a.get(), b.get(), value),
            Expr::Before(a, b) => {
                self.eval_two(env, next, Operator::Before, a.get(), b.get(), value)
            }
            Expr::After(a, b) => self.eval_two(env, next, Operator::After, a.get(), b.get(), value),
            Expr::Range(a, b) => self.eval_two(env, next, Operator::Range, a.get(), b.get(), value),
            Expr::Arith(op, a, b) => {
                self.eval_two(env, next, Operator::Arith(*op), a.get(), b.get(), value)
            }
            Expr::Minus(a) => self.eval_one(env, next, OneOperator::Minus, a.get(), value),
            Expr::Plus(a) => self.eval_one(env, next, OneOperator::Plus, a.get(), value),
            Expr::Union(a, b) => self.eval_two(env, next, Operator::Union, a.get(), b.get(), value),
            Expr::Intersect(a, b) => {
                self.eval_two(env, next, Operator::Intersect, a.get(), b.get(), value)
            }
            Expr::Except(a, b) => {
                self.eval_two(env, next, Operator::Except, a.get(), b.get(), value)
            }
            Expr::InstanceOf(a, of) => self.eval_instance(env, next, a.get(), of, value),
            Expr::Treat(a, to) => self.eval_treat(env, next, a.get(), to, value),
            Expr::Castable(a, to, empty) => {
                self.eval_one(
                    env,
                    next,
                    OneOperator::Castable(*to, *empty),
                    a.get(),
                    value,
                )
            }
            Expr::Cast(a, to, empty) => {
                self.eval_one(env, next, OneOperator::Cast(*to, *empty), a.get(), value)
            }
            Expr::Slash(_, _) | Expr::Step(_, _, _) | Expr::Filter(_, _) | Expr::Quant(_, _, _) => {
                self.eval_item_form(env, next, e, value)
            }
            Expr::Call(name, args) => self.eval_call(env, next, name, args.get().as_slice(), value),
            Expr::Direct(_, _, _) => self.eval_direct(env, next, e, value),
            _ => self.eval_computed(env, next, e, value),
        }
    }

    /// Lists, one after another (XPath 2.0, 3.3.1).
    #[cycle(eval)]
    #[inline(never)]
    pub(crate) fn eval_comma(
        &self,
        env: &Env,
        next: &mut u64,
        all: &[Expr],
        value: &mut ItemList,
    ) -> Result<(), EvalFault>
        requires callable { F.IsAlwaysCallable self.now.calls }
        requires serves { Serves (F.post self.now.calls) (G.calls self.now.given) }
        ensures { let p = program_of self.now.fixed (G.calls self.now.given)
            (G.keys self.now.given) in
            Leaves result value.new next.new (comma_of (map (outcome p) all.now) (env_of env.now) next.old) }
    {
        let mut list = ItemList::new(self.alloc);
        for e in all {
            let more = self.eval(env, next, e)?;
            list = append(list, more)?;
        }
        *value = list;
        Ok(())
    }

    /// An operator on one value (XPath 2.0, 3.4 and 3.10).
    #[cycle(eval)]
    #[inline(never)]
    pub(crate) fn eval_one(
        &self,
        env: &Env,
        next: &mut u64,
        operator: OneOperator,
        a: &Expr,
        value: &mut ItemList,
    ) -> Result<(), EvalFault>
        requires callable { F.IsAlwaysCallable self.now.calls }
        requires serves { Serves (F.post self.now.calls) (G.calls self.now.given) }
        ensures { let p = program_of self.now.fixed (G.calls self.now.given)
            (G.keys self.now.given) in
            Leaves result value.new next.new (unary (value_of_one operator) (outcome p a.now)
            (env_of env.now) next.old) }
    {
        self.eval_into(env, next, a, value)?;
        apply_alone(self.alloc, operator, value)
    }

    /// `instance of` (XPath 2.0, 3.10.1).
    #[cycle(eval)]
    #[inline(never)]
    pub(crate) fn eval_instance(
        &self,
        env: &Env,
        next: &mut u64,
        a: &Expr,
        of: &SeqType,
        value: &mut ItemList,
    ) -> Result<(), EvalFault>
        requires callable { F.IsAlwaysCallable self.now.calls }
        requires serves { Serves (F.post self.now.calls) (G.calls self.now.given) }
        ensures { let p = program_of self.now.fixed (G.calls self.now.given)
            (G.keys self.now.given) in
            Leaves result value.new next.new (unary (instance_value of.now) (outcome p a.now)
            (env_of env.now) next.old) }
    {
        self.eval_into(env, next, a, value)?;
        check_instance(self.alloc, of, value)
    }

    /// `treat as` (XPath 2.0, 3.10.5).
    #[cycle(eval)]
    #[inline(never)]
    pub(crate) fn eval_treat(
        &self,
        env: &Env,
        next: &mut u64,
        a: &Expr,
        to: &SeqType,
        value: &mut ItemList,
    ) -> Result<(), EvalFault>
        requires callable { F.IsAlwaysCallable self.now.calls }
        requires serves { Serves (F.post self.now.calls) (G.calls self.now.given) }
        ensures { let p = program_of self.now.fixed (G.calls self.now.given)
            (G.keys self.now.given) in
            Leaves result value.new next.new (unary (treated_value to.now) (outcome p a.now)
            (env_of env.now) next.old) }
    {
        self.eval_into(env, next, a, value)?;
        treat(self.alloc, to, value)
    }

    /// An operator on two values (XPath 2.0, 3.3 to 3.5).
    #[cycle(eval)]
    #[inline(never)]
    pub(crate) fn eval_two(
        &self,
        env: &Env,
        next: &mut u64,
        operator: Operator,
        a: &Expr,
        b: &Expr,
        value: &mut ItemList,
    ) -> Result<(), EvalFault>
        requires callable { F.IsAlwaysCallable self.now.calls }
        requires serves { Serves (F.post self.now.calls) (G.calls self.now.given) }
        ensures { let p = program_of self.now.fixed (G.calls self.now.given)
            (G.keys self.now.given) in
            Leaves result value.new next.new (binary (value_of_two operator) (outcome p a.now)
            (outcome p b.now) (env_of env.now) next.old) }
    {
        self.eval_into(env, next, a, value)?;
        let mut right = ItemList::new(self.alloc);
        self.eval_into(env, next, b, &mut right)?;
        apply_to(self.alloc, operator, &right, value)
    }
}
