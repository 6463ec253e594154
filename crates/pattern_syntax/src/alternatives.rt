// The alternatives that a raw value means.
ghost use Rattle.std.specs.Prelude.{◌≡◌, ◌++◌, ◌∷◌, [], IfOk, List as Items};
ghost use Rattle.std.specs.List.{list_all};
ghost use Rattle.xt_names.specs.declared.codes.Code.{Code};
ghost use Rattle.expr_names.specs.Answers.{Answers};
ghost use Rattle.expr_resolve.specs.Folds.{broken_of};
ghost use Rattle.pattern_syntax.specs.Meant.{as_step, step_of, steps_from, alternative_of};
ghost use Rattle.pattern_syntax.specs.Meant.{alternatives_from, patterns_of, steps_broken};
ghost use Rattle.pattern_syntax.specs.Meant.{alternative_broken, alternatives_broken};
ghost use Rattle.pattern_syntax.specs.Meant.{pattern_broken, has_allowed, have_allowed};

use crate::parts::{alternatives, barless, is_rooted, is_rooted_deep, steps_in};
use expr_names::ResolveFault;
use expr_resolve::{Setting, resolve};
use expr_terms::Raw;
use pattern_forms::are_pattern_predicates;
use pattern_forms::pattern_shapes::{inner_step, is_behind_slashes};
use std::alloc::{AllocError, Global};
use xt_names::List;
use xt_syntax::{Expr, Pattern, PatternStep, copy_expr_list};
use xt_types::{Axis, Test};

/// The axis step as a step of a pattern.
fn as_step(alloc: Global, deep: bool, e: &Expr) -> Result<PatternStep, AllocError>
    ensures { IfOk result (λ step. step ≡ as_step deep e.now) }
{
    match e {
        Expr::Step(axis, test, tests) => Ok(PatternStep {
            axis: *axis,
            test: test.copy()?,
            quiet: copy_expr_list(tests.get())?,
            deep,
        }),
        _ => Ok(PatternStep {
            axis: Axis::Child,
            test: Test::Node,
            quiet: List::new(alloc),
            deep,
        }),
    }
}

fn step_in(alloc: Global, deep: bool, e: Expr) -> Result<PatternStep, ResolveFault>
    ensures { Answers result [] (as_step deep e) }
{
    let step = as_step(alloc, deep, &e);
    drop(e);
    match step {
        Err(e) => Err(ResolveFault::Memory(e)),
        Ok(step) => Ok(step),
    }
}

/// The step that the raw value means.
fn step(alloc: Global, s: &Setting, deep: bool, raw: &Raw) -> Result<PatternStep, ResolveFault>
    ensures { Answers result (broken_of s.now raw.now) (step_of s.now deep raw.now) }
{
    match resolve(alloc, s, raw) {
        Err(fault) => Err(fault),
        Ok(e) => step_in(alloc, deep, e),
    }
}

/// The items with one more.
fn with_item<A: Drop>(made: List<A>, item: Result<A, ResolveFault>) -> Result<List<A>, ResolveFault>
    ensures { (codes : Items Code) (a : A) → Answers item codes a
        → Answers result codes (made ++ a ∷ []) }
{
    let mut made = made;
    match item {
        Err(fault) => {
            drop(made);
            Err(fault)
        }
        Ok(item) => match made.push(item) {
            Err(e) => {
                drop(made);
                Err(ResolveFault::Memory(e))
            }
            Ok(()) => Ok(made),
        },
    }
}

/// The steps, of which `//` may come before the first.
#[tactic(auto, using(crate::proofs::LoopLemmas::loops))]
fn steps(
    alloc: Global,
    s: &Setting,
    deep: bool,
    raws: &[Raw],
) -> Result<List<PatternStep>, ResolveFault>
    ensures { Answers result (steps_broken s.now raws.now) (steps_from s.now deep raws.now) }
{
    let mut made = List::new(alloc);
    let mut deep = deep;
    for raw in raws {
        let one = step(alloc, s, deep || is_behind_slashes(raw), inner_step(raw));
        made = with_item(made, one)?;
        deep = false;
    }
    Ok(made)
}

fn alternative(alloc: Global, s: &Setting, raw: &Raw) -> Result<Pattern, ResolveFault>
    ensures { Answers result (alternative_broken s.now raw.now) (alternative_of s.now raw.now) }
{
    match steps(alloc, s, is_rooted_deep(raw), steps_in(raw)) {
        Err(fault) => Err(fault),
        Ok(steps) => Ok(Pattern {
            rooted: is_rooted(raw),
            steps,
        }),
    }
}

#[tactic(auto, using(crate::proofs::LoopLemmas::loops))]
fn alternatives_from(
    alloc: Global,
    s: &Setting,
    raws: &[Raw],
) -> Result<List<Pattern>, ResolveFault>
    ensures { Answers result (alternatives_broken s.now raws.now)
        (alternatives_from s.now raws.now) }
{
    let mut made = List::new(alloc);
    for raw in raws {
        let one = alternative(alloc, s, barless(raw));
        made = with_item(made, one)?;
    }
    Ok(made)
}

/// The alternatives that the raw value means, or the code of the first static rule of expressions
/// that it breaks.
pub(crate) fn patterns(alloc: Global, s: &Setting, raw: &Raw) -> Result<List<Pattern>, ResolveFault>
    ensures { Answers result (pattern_broken s.now raw.now) (patterns_of s.now raw.now) }
{
    alternatives_from(alloc, s, alternatives(raw))
}

fn has_allowed(step: &PatternStep) -> bool
    ensures { result ≡ has_allowed step.now }
{
    are_pattern_predicates(step.quiet.as_slice())
}

fn have_allowed(p: &Pattern) -> bool
    ensures { result ≡ have_allowed p.now }
{
    p.steps.as_slice().iter().all(|step| has_allowed(step))
}

/// Whether each predicate is one that patterns have.
pub(crate) fn are_allowed(all: &[Pattern]) -> bool
    ensures { result ≡ list_all have_allowed all.now }
{
    all.iter().all(|p| have_allowed(p))
}
