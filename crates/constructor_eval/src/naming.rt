// Names that are computed.
ghost use Rattle.std.specs.Prelude.{◌<◌};
ghost use Rattle.eval_scopes.specs.Answers.{Answers};
ghost use Rattle.eval_steps.specs.EvalInner.Inner.{CanEvaluateBelow, Evaluates};
ghost use Rattle.eval_steps.specs.Sizes.{name_nodes, nodes};
ghost use Rattle.eval_scopes.specs.Scopes.{env_of, program_of};
ghost use Rattle.eval_steps.specs.Parts.{name_outcome};
ghost use Rattle.expr_meaning.specs.Names.{element_name_at, attribute_name_at, target_at};

use crate::constructors::Constructor;
use eval_scopes::{Env, EvalFault};
use eval_steps::eval_inner::Calling;
use eval_steps::eval_nodes::{
    checked_attribute, computed_attribute, computed_element, computed_target, fixed_target,
};
use xdm_items::ItemList;
use xt_names::{Name, Text};
use xt_syntax::{Expr, NameSource};

impl<
    'a,
    W: Calling,
    E: Fn(&Env, &mut u64, &Expr, &mut ItemList) -> Result<(), EvalFault>,
> Constructor<'a, W, E> {
    /// The name of an element (XQuery 1.0, 3.7.3.1).
    #[inline(never)]
    pub(crate) fn eval_element_name(
        &self,
        env: &Env,
        next: &mut u64,
        name: &NameSource,
    ) -> Result<Name, EvalFault>
        requires callable { CanEvaluateBelow (E.pre self.now.form.eval)
            (nodes self.now.form.whole.now) }
        requires serves { Evaluates (E.post self.now.form.eval) (program_of self.now.form.fixed.now
            (W.calls self.now.form.within.now) (W.keys self.now.form.within.now)) }
        requires within { name_nodes name.now < nodes self.now.form.whole.now }
        ensures { let p = program_of self.now.form.fixed.now (W.calls self.now.form.within.now)
            (W.keys self.now.form.within.now) in
            Answers result next.new (element_name_at p (name_outcome p name.now) (env_of env.now)
            next.old) }
    {
        match name {
            NameSource::Fixed(name) => Ok(name.copy()?),
            NameSource::Computed(e) => {
                let list = self.form.eval(env, next, e.get())?;
                let fixed = self.form.fixed;
                Ok(computed_element(
                    self.form.alloc,
                    fixed.namespaces,
                    fixed.element_default,
                    &list,
                )?)
            }
        }
    }

    /// The name of an attribute (XQuery 1.0, 3.7.3.2).
    #[inline(never)]
    pub(crate) fn eval_attribute_name(
        &self,
        env: &Env,
        next: &mut u64,
        name: &NameSource,
    ) -> Result<Name, EvalFault>
        requires callable { CanEvaluateBelow (E.pre self.now.form.eval)
            (nodes self.now.form.whole.now) }
        requires serves { Evaluates (E.post self.now.form.eval) (program_of self.now.form.fixed.now
            (W.calls self.now.form.within.now) (W.keys self.now.form.within.now)) }
        requires within { name_nodes name.now < nodes self.now.form.whole.now }
        ensures { let p = program_of self.now.form.fixed.now (W.calls self.now.form.within.now)
            (W.keys self.now.form.within.now) in
            Answers result next.new (attribute_name_at p (name_outcome p name.now)
            (env_of env.now) next.old) }
    {
        match name {
            NameSource::Fixed(name) => Ok(checked_attribute(name.copy()?)?),
            NameSource::Computed(e) => {
                let list = self.form.eval(env, next, e.get())?;
                Ok(computed_attribute(self.form.alloc, self.form.fixed.namespaces, &list)?)
            }
        }
    }

    /// The target of a processing instruction (XQuery 1.0, 3.7.3.5).
    #[inline(never)]
    pub(crate) fn eval_target(
        &self,
        env: &Env,
        next: &mut u64,
        name: &NameSource,
    ) -> Result<Text, EvalFault>
        requires callable { CanEvaluateBelow (E.pre self.now.form.eval)
            (nodes self.now.form.whole.now) }
        requires serves { Evaluates (E.post self.now.form.eval) (program_of self.now.form.fixed.now
            (W.calls self.now.form.within.now) (W.keys self.now.form.within.now)) }
        requires within { name_nodes name.now < nodes self.now.form.whole.now }
        ensures { let p = program_of self.now.form.fixed.now (W.calls self.now.form.within.now)
            (W.keys self.now.form.within.now) in
            Answers result next.new (target_at (name_outcome p name.now) (env_of env.now)
            next.old) }
    {
        match name {
            NameSource::Fixed(name) => Ok(fixed_target(name.local.copy()?)?),
            NameSource::Computed(e) => {
                let list = self.form.eval(env, next, e.get())?;
                Ok(computed_target(self.form.alloc, &list)?)
            }
        }
    }
}
