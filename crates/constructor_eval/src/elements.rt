// Direct elements.
ghost use Rattle.std.specs.Prelude.{ℕ, [], ◌∷◌, ◌++◌, ◌+◌, ◌<◌, map};
ghost use Rattle.xt_tree.specs.declared.trees.Tree.TheVariants.{Text as text_tree};
ghost use Rattle.node_builder.specs.Trees.{element_of};
ghost use Rattle.node_builder.specs.declared.kinds.Duplicates.TheVariants.{Refuse};
ghost use Rattle.eval_scopes.specs.Answers.{Answers};
ghost use Rattle.eval_steps.specs.EvalInner.Inner.{CanEvaluateBelow, Evaluates};
ghost use Rattle.eval_steps.specs.ValueSlots.Slots.{Leaves};
ghost use Rattle.eval_steps.specs.Sizes.{attr_nodes, nodes, part_nodes};
ghost use Rattle.xt_names.specs.Lists.{total};
ghost use Rattle.eval_scopes.specs.Scopes.{env_of, program_of};
ghost use Rattle.eval_steps.specs.Parts.{attr_outcome, part_outcome};
ghost use Rattle.expr_meaning.specs.Outcomes.Outcome.{Ends, for_each};
ghost use Rattle.expr_meaning.specs.Making.{direct_made, direct_attribute, attribute_text, attribute_part, content_part, enclosed, literal_node, joined_atoms, made};
ghost use Rattle.expr_meaning.specs.Meaning.{outcome};

use crate::constructors::Constructor;
use eval_scopes::eval_values::one;
use eval_scopes::{Env, EvalFault};
use eval_steps::eval_inner::Calling;
use eval_steps::eval_nodes::{joined_atoms, make_element, spaced_text, text_node};
use eval_steps::push_attribute;
use eval_steps::value_slots::{clear, join, put};
use expr_names::no_text;
use std::alloc::Global;
use xdm_items::ItemList;
use xt_names::{List, Name, Text, TextBuilder};
use xt_syntax::{DirectAttr, Expr, Part};

impl<
    'a,
    W: Calling,
    E: Fn(&Env, &mut u64, &Expr, &mut ItemList) -> Result<(), EvalFault>,
> Constructor<'a, W, E> {
    /// A direct element as it is written (XQuery 1.0, 3.7.1).
    #[inline(always)]
    pub(crate) fn eval_written(
        &self,
        env: &Env,
        next: &mut u64,
        name: &Name,
        attributes: &List<DirectAttr>,
        parts: &List<Part>,
        value: &mut ItemList,
    ) -> Result<(), EvalFault>
        requires callable { CanEvaluateBelow (E.pre self.now.form.eval)
            (nodes self.now.form.whole.now) }
        requires serves { Evaluates (E.post self.now.form.eval) (program_of self.now.form.fixed.now
            (W.calls self.now.form.within.now) (W.keys self.now.form.within.now)) }
        requires within { total (map attr_nodes attributes.now) + total (map part_nodes parts.now)
            < nodes self.now.form.whole.now }
        ensures { let p = program_of self.now.form.fixed.now (W.calls self.now.form.within.now)
            (W.keys self.now.form.within.now) in
            Leaves result value.new next.new (direct_made name.now (map (attr_outcome p) attributes.now)
            (map (part_outcome p) parts.now) (env_of env.now) next.old) }
    {
        self.eval_attributes(env, next, attributes.as_slice(), value)?;
        let mut content = ItemList::new(self.form.alloc);
        self.eval_content(env, next, parts.as_slice(), &mut content)?;
        make_direct(self.form.alloc, next, name, &mut content, value)
    }

    /// The attributes of a direct element (XQuery 1.0, 3.7.1.1).
    #[inline(never)]
    pub(crate) fn eval_attributes(
        &self,
        env: &Env,
        next: &mut u64,
        attributes: &[DirectAttr],
        list: &mut ItemList,
    ) -> Result<(), EvalFault>
        requires callable { CanEvaluateBelow (E.pre self.now.form.eval)
            (nodes self.now.form.whole.now) }
        requires serves { Evaluates (E.post self.now.form.eval) (program_of self.now.form.fixed.now
            (W.calls self.now.form.within.now) (W.keys self.now.form.within.now)) }
        requires within { total (map attr_nodes attributes.now) < nodes self.now.form.whole.now }
        ensures { let p = program_of self.now.form.fixed.now (W.calls self.now.form.within.now)
            (W.keys self.now.form.within.now) in
            Leaves result list.new next.new (for_each (direct_attribute (env_of env.now))
            (map (attr_outcome p) attributes.now) next.old) }
    {
        clear(self.form.alloc, list);
        for attribute in attributes {
            let text = self.eval_value(env, next, attribute.parts.get().as_slice())?;
            push_attribute(self.form.alloc, list, &attribute.name, text)?;
        }
        Ok(())
    }

    /// The value of a direct attribute (XQuery 1.0, 3.7.1.1).
    #[inline(never)]
    pub(crate) fn eval_value(
        &self,
        env: &Env,
        next: &mut u64,
        parts: &[Part],
    ) -> Result<Text, EvalFault>
        requires callable { CanEvaluateBelow (E.pre self.now.form.eval)
            (nodes self.now.form.whole.now) }
        requires serves { Evaluates (E.post self.now.form.eval) (program_of self.now.form.fixed.now
            (W.calls self.now.form.within.now) (W.keys self.now.form.within.now)) }
        requires within { total (map part_nodes parts.now) < nodes self.now.form.whole.now }
        ensures { let p = program_of self.now.form.fixed.now (W.calls self.now.form.within.now)
            (W.keys self.now.form.within.now) in
            Answers result next.new (attribute_text (map (part_outcome p) parts.now)
            (env_of env.now) next.old) }
    {
        let mut value = TextBuilder::new(self.form.alloc);
        for part in parts {
            let text = self.eval_part_text(env, next, part)?;
            value.push_text(&text)?;
        }
        Ok(value.finish()?)
    }

    /// The text of a part of an attribute (XQuery 1.0, 3.7.1.1).
    #[inline(never)]
    pub(crate) fn eval_part_text(
        &self,
        env: &Env,
        next: &mut u64,
        part: &Part,
    ) -> Result<Text, EvalFault>
        requires callable { CanEvaluateBelow (E.pre self.now.form.eval)
            (nodes self.now.form.whole.now) }
        requires serves { Evaluates (E.post self.now.form.eval) (program_of self.now.form.fixed.now
            (W.calls self.now.form.within.now) (W.keys self.now.form.within.now)) }
        requires within { part_nodes part.now < nodes self.now.form.whole.now }
        ensures { let p = program_of self.now.form.fixed.now (W.calls self.now.form.within.now)
            (W.keys self.now.form.within.now) in
            Answers result next.new (attribute_part (env_of env.now) (part_outcome p part.now)
            next.old) }
    {
        match part {
            Part::Chars(text) => Ok(text.copy()?),
            Part::Enclosed(e) => {
                let list = self.form.eval(env, next, e.get())?;
                Ok(spaced_text(self.form.alloc, &list)?)
            }
            Part::Child(_) => Ok(no_text(self.form.alloc)?),
        }
    }

    /// The content of a direct element (XQuery 1.0, 3.7.1.3).
    #[inline(always)]
    pub(crate) fn eval_content(
        &self,
        env: &Env,
        next: &mut u64,
        parts: &[Part],
        list: &mut ItemList,
    ) -> Result<(), EvalFault>
        requires callable { CanEvaluateBelow (E.pre self.now.form.eval)
            (nodes self.now.form.whole.now) }
        requires serves { Evaluates (E.post self.now.form.eval) (program_of self.now.form.fixed.now
            (W.calls self.now.form.within.now) (W.keys self.now.form.within.now)) }
        requires within { total (map part_nodes parts.now) < nodes self.now.form.whole.now }
        ensures { let p = program_of self.now.form.fixed.now (W.calls self.now.form.within.now)
            (W.keys self.now.form.within.now) in
            Leaves result list.new next.new (for_each (content_part (env_of env.now))
            (map (part_outcome p) parts.now) next.old) }
    {
        let mut more = ItemList::new(self.form.alloc);
        self.eval_parts(env, next, parts, list, &mut more)
    }

    /// The parts of the content, one after another, each by way of the same list.
    #[inline(always)]
    pub(crate) fn eval_parts(
        &self,
        env: &Env,
        next: &mut u64,
        parts: &[Part],
        list: &mut ItemList,
        more: &mut ItemList,
    ) -> Result<(), EvalFault>
        requires callable { CanEvaluateBelow (E.pre self.now.form.eval)
            (nodes self.now.form.whole.now) }
        requires serves { Evaluates (E.post self.now.form.eval) (program_of self.now.form.fixed.now
            (W.calls self.now.form.within.now) (W.keys self.now.form.within.now)) }
        requires within { total (map part_nodes parts.now) < nodes self.now.form.whole.now }
        ensures { let p = program_of self.now.form.fixed.now (W.calls self.now.form.within.now)
            (W.keys self.now.form.within.now) in
            Leaves result list.new next.new (for_each (content_part (env_of env.now))
            (map (part_outcome p) parts.now) next.old) }
    {
        clear(self.form.alloc, list);
        for part in parts {
            self.eval_part(env, next, part, more)?;
            join(self.form.alloc, list, more)?;
        }
        Ok(())
    }

    /// A part of the content of a direct element (XQuery 1.0, 3.7.1.3).
    #[inline(never)]
    pub(crate) fn eval_part(
        &self,
        env: &Env,
        next: &mut u64,
        part: &Part,
        value: &mut ItemList,
    ) -> Result<(), EvalFault>
        requires callable { CanEvaluateBelow (E.pre self.now.form.eval)
            (nodes self.now.form.whole.now) }
        requires serves { Evaluates (E.post self.now.form.eval) (program_of self.now.form.fixed.now
            (W.calls self.now.form.within.now) (W.keys self.now.form.within.now)) }
        requires within { part_nodes part.now < nodes self.now.form.whole.now }
        ensures { let p = program_of self.now.form.fixed.now (W.calls self.now.form.within.now)
            (W.keys self.now.form.within.now) in
            Leaves result value.new next.new (content_part (env_of env.now) (part_outcome p part.now)
            next.old) }
    {
        match part {
            Part::Chars(text) => put_characters(self.form.alloc, text, value),
            Part::Enclosed(e) => self.eval_enclosed(env, next, e.get(), value),
            Part::Child(e) => self.form.eval_into(env, next, e.get(), value),
        }
    }

    /// An expression in braces within the content of a direct element (XQuery 1.0, 3.7.1.3).
    #[inline(never)]
    pub(crate) fn eval_enclosed(
        &self,
        env: &Env,
        next: &mut u64,
        e: &Expr,
        value: &mut ItemList,
    ) -> Result<(), EvalFault>
        requires callable { CanEvaluateBelow (E.pre self.now.form.eval)
            (nodes self.now.form.whole.now) }
        requires serves { Evaluates (E.post self.now.form.eval) (program_of self.now.form.fixed.now
            (W.calls self.now.form.within.now) (W.keys self.now.form.within.now)) }
        requires within { nodes e.now < nodes self.now.form.whole.now }
        ensures { let p = program_of self.now.form.fixed.now (W.calls self.now.form.within.now)
            (W.keys self.now.form.within.now) in
            Leaves result value.new next.new (content_part (env_of env.now) (enclosed (outcome p e.now))
            next.old) }
    {
        self.form.eval_into(env, next, e, value)?;
        join_atoms(self.form.alloc, value)
    }
}

/// Puts the text of the content of a direct element (XQuery 1.0, 3.7.1.3).
#[inline(never)]
fn put_characters(alloc: Global, text: &Text, value: &mut ItemList) -> Result<(), EvalFault>
    ensures { (k : ℕ) → Leaves result value.new k
        (Ends (literal_node (text_tree text.now) ∷ []) k) }
{
    *value = one(alloc, text_node(alloc, text.copy()?)?)?;
    Ok(())
}

/// Joins atoms that stand next to each other to texts (XQuery 1.0, 3.7.1.3).
#[inline(never)]
fn join_atoms(alloc: Global, value: &mut ItemList) -> Result<(), EvalFault>
    ensures { (k : ℕ) → Leaves result value.new k (Ends (joined_atoms value.old) k) }
{
    *value = joined_atoms(alloc, &*value)?;
    Ok(())
}

/// Puts the element with this content in place of its attributes (XQuery 1.0, 3.7.1).
#[inline(never)]
fn make_direct(
    alloc: Global,
    next: &mut u64,
    name: &Name,
    content: &mut ItemList,
    value: &mut ItemList,
) -> Result<(), EvalFault>
    ensures { Leaves result value.new next.new
        (made (element_of Refuse name.now (value.old ++ content.old)) next.old) }
{
    join(alloc, value, content)?;
    put(make_element(alloc, next, name.copy()?, &*value), value)
}
