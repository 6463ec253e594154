// Computed constructors.
ghost use Rattle.std.specs.Prelude.{◌+◌, ◌<◌};
ghost use Rattle.eval_steps.specs.EvalInner.Inner.{CanEvaluateBelow, Evaluates};
ghost use Rattle.eval_steps.specs.ValueSlots.Slots.{Leaves};
ghost use Rattle.eval_steps.specs.Sizes.{name_nodes, nodes};
ghost use Rattle.eval_scopes.specs.Scopes.{env_of, program_of};
ghost use Rattle.expr_meaning.specs.Meaning.{outcome};
ghost use Rattle.eval_steps.specs.Parts.{name_outcome};
ghost use Rattle.expr_meaning.specs.Making.{element_made, document_made, attribute_made, text_made};
ghost use Rattle.expr_meaning.specs.Making.{comment_made, pi_made};

use crate::constructors::Constructor;
use eval_scopes::{Env, EvalFault};
use eval_steps::eval_inner::Calling;
use eval_steps::eval_nodes::{
    make_attribute, make_comment, make_document, make_element, make_pi, make_text, spaced_text,
};
use eval_steps::value_slots::put;
use xdm_items::ItemList;
use xt_syntax::{Expr, NameSource};

impl<
    'a,
    W: Calling,
    E: Fn(&Env, &mut u64, &Expr, &mut ItemList) -> Result<(), EvalFault>,
> Constructor<'a, W, E> {
    /// `element n { a }` (XQuery 1.0, 3.7.3.1).
    #[inline(never)]
    pub(crate) fn eval_element(
        &self,
        env: &Env,
        next: &mut u64,
        name: &NameSource,
        content: &Expr,
        made: &mut ItemList,
    ) -> Result<(), EvalFault>
        requires callable { CanEvaluateBelow (E.pre self.now.form.eval)
            (nodes self.now.form.whole.now) }
        requires serves { Evaluates (E.post self.now.form.eval) (program_of self.now.form.fixed.now
            (W.calls self.now.form.within.now) (W.keys self.now.form.within.now)) }
        requires within { name_nodes name.now + nodes content.now < nodes self.now.form.whole.now }
        ensures { let p = program_of self.now.form.fixed.now (W.calls self.now.form.within.now)
            (W.keys self.now.form.within.now) in
            Leaves result made.new next.new (element_made p (name_outcome p name.now)
            (outcome p content.now) (env_of env.now) next.old) }
    {
        let name = self.eval_element_name(env, next, name)?;
        let list = self.form.eval(env, next, content)?;
        put(make_element(self.form.alloc, next, name, &list), made)
    }

    /// `document { a }` (XQuery 1.0, 3.7.3.3).
    #[inline(never)]
    pub(crate) fn eval_document(
        &self,
        env: &Env,
        next: &mut u64,
        content: &Expr,
        made: &mut ItemList,
    ) -> Result<(), EvalFault>
        requires callable { CanEvaluateBelow (E.pre self.now.form.eval)
            (nodes self.now.form.whole.now) }
        requires serves { Evaluates (E.post self.now.form.eval) (program_of self.now.form.fixed.now
            (W.calls self.now.form.within.now) (W.keys self.now.form.within.now)) }
        requires within { nodes content.now < nodes self.now.form.whole.now }
        ensures { let p = program_of self.now.form.fixed.now (W.calls self.now.form.within.now)
            (W.keys self.now.form.within.now) in
            Leaves result made.new next.new (document_made (outcome p content.now) (env_of env.now)
            next.old) }
    {
        let list = self.form.eval(env, next, content)?;
        put(make_document(self.form.alloc, next, &list), made)
    }

    /// `attribute n { a }` (XQuery 1.0, 3.7.3.2).
    #[inline(never)]
    pub(crate) fn eval_attribute(
        &self,
        env: &Env,
        next: &mut u64,
        name: &NameSource,
        value: &Expr,
        made: &mut ItemList,
    ) -> Result<(), EvalFault>
        requires callable { CanEvaluateBelow (E.pre self.now.form.eval)
            (nodes self.now.form.whole.now) }
        requires serves { Evaluates (E.post self.now.form.eval) (program_of self.now.form.fixed.now
            (W.calls self.now.form.within.now) (W.keys self.now.form.within.now)) }
        requires within { name_nodes name.now + nodes value.now < nodes self.now.form.whole.now }
        ensures { let p = program_of self.now.form.fixed.now (W.calls self.now.form.within.now)
            (W.keys self.now.form.within.now) in
            Leaves result made.new next.new (attribute_made p (name_outcome p name.now)
            (outcome p value.now) (env_of env.now) next.old) }
    {
        let name = self.eval_attribute_name(env, next, name)?;
        let list = self.form.eval(env, next, value)?;
        let text = spaced_text(self.form.alloc, &list)?;
        put(
            make_attribute(self.form.alloc, next, name, text.as_str()),
            made,
        )
    }

    /// `text { a }`: no node of the empty list (XQuery 1.0, 3.7.3.4).
    #[inline(never)]
    pub(crate) fn eval_text(
        &self,
        env: &Env,
        next: &mut u64,
        value: &Expr,
        made: &mut ItemList,
    ) -> Result<(), EvalFault>
        requires callable { CanEvaluateBelow (E.pre self.now.form.eval)
            (nodes self.now.form.whole.now) }
        requires serves { Evaluates (E.post self.now.form.eval) (program_of self.now.form.fixed.now
            (W.calls self.now.form.within.now) (W.keys self.now.form.within.now)) }
        requires within { nodes value.now < nodes self.now.form.whole.now }
        ensures { let p = program_of self.now.form.fixed.now (W.calls self.now.form.within.now)
            (W.keys self.now.form.within.now) in
            Leaves result made.new next.new (text_made (outcome p value.now) (env_of env.now) next.old) }
    {
        let list = self.form.eval(env, next, value)?;
        if list.is_empty() {
            *made = list;
            return Ok(());
        }
        let text = spaced_text(self.form.alloc, &list)?;
        put(make_text(self.form.alloc, next, text.as_str()), made)
    }

    /// `comment { a }` (XQuery 1.0, 3.7.3.6).
    #[inline(never)]
    pub(crate) fn eval_comment(
        &self,
        env: &Env,
        next: &mut u64,
        value: &Expr,
        made: &mut ItemList,
    ) -> Result<(), EvalFault>
        requires callable { CanEvaluateBelow (E.pre self.now.form.eval)
            (nodes self.now.form.whole.now) }
        requires serves { Evaluates (E.post self.now.form.eval) (program_of self.now.form.fixed.now
            (W.calls self.now.form.within.now) (W.keys self.now.form.within.now)) }
        requires within { nodes value.now < nodes self.now.form.whole.now }
        ensures { let p = program_of self.now.form.fixed.now (W.calls self.now.form.within.now)
            (W.keys self.now.form.within.now) in
            Leaves result made.new next.new (comment_made (outcome p value.now) (env_of env.now) next.old) }
    {
        let list = self.form.eval(env, next, value)?;
        let text = spaced_text(self.form.alloc, &list)?;
        put(make_comment(self.form.alloc, next, text.as_str()), made)
    }

    /// `processing-instruction n { a }` (XQuery 1.0, 3.7.3.5).
    #[inline(never)]
    pub(crate) fn eval_pi(
        &self,
        env: &Env,
        next: &mut u64,
        name: &NameSource,
        value: &Expr,
        made: &mut ItemList,
    ) -> Result<(), EvalFault>
        requires callable { CanEvaluateBelow (E.pre self.now.form.eval)
            (nodes self.now.form.whole.now) }
        requires serves { Evaluates (E.post self.now.form.eval) (program_of self.now.form.fixed.now
            (W.calls self.now.form.within.now) (W.keys self.now.form.within.now)) }
        requires within { name_nodes name.now + nodes value.now < nodes self.now.form.whole.now }
        ensures { let p = program_of self.now.form.fixed.now (W.calls self.now.form.within.now)
            (W.keys self.now.form.within.now) in
            Leaves result made.new next.new (pi_made (name_outcome p name.now) (outcome p value.now)
            (env_of env.now) next.old) }
    {
        let target = self.eval_target(env, next, name)?;
        let list = self.form.eval(env, next, value)?;
        let text = spaced_text(self.form.alloc, &list)?;
        put(
            make_pi(self.form.alloc, next, target.as_str(), text.as_str()),
            made,
        )
    }
}
