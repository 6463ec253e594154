// Expressions as predicates of patterns.
ghost use Rattle.std.specs.Prelude.{◌≡◌, ◌<◌, ◌≤◌, ◌+◌, ◌++◌, ◌∷◌, [], ℕ, List as Items, map, if◌then◌else◌};
ghost use Rattle.std.specs.List.{list_all};
ghost use Rattle.xt_syntax.specs.declared.exprs.Clause.TheViews.{out-Expr};
ghost use Rattle.quiet_meaning.specs.Quietly.{Quietly, quietly_of, is_predicate, is_pattern_predicate, is_attribute_axis, is_attribute_name, any_of, all_of, stepped, call_gives, is_bare, is_named, is_one_name};
ghost use Rattle.pattern_forms.specs.Forms as forms;
ghost use Rattle.pattern_forms.specs.Kinds.{form_of, form_in, Tally};

use crate::combined::{all_form, called, called_with, compared, condition_if, slashed};
use crate::forms::PredicateForm;
use xt_forms::{QuietCall, is_regular, quiet_call};
use xt_syntax::Expr;
use xt_types::{Axis, NameTest, Test};

/// Whether the expression may be a predicate of a pattern: a quiet predicate, or one in which an
/// attribute, by its name, is compared with an integer as one of the conjuncts at its top.
pub fn is_pattern_predicate(e: &Expr) -> bool
    ensures { result ≡ is_pattern_predicate e.now }
{
    is_regular(e) && form(e).is_allowed()
}

/// Whether each of the expressions may be a predicate of a pattern.
pub fn are_pattern_predicates(all: &[Expr]) -> bool
    ensures { result ≡ list_all is_pattern_predicate all.now }
{
    all.iter().all(|e| is_pattern_predicate(e))
}

#[cycle(form)]
fn form(e: &Expr) -> PredicateForm
    ensures { result ≡ form_in (out-Expr e.now) }
{
    match e {
        Expr::Int(_) => PredicateForm::Integer,
        Expr::Str(_) => PredicateForm::Literal,
        Expr::Or(all) => any(all.get().as_slice()),
        Expr::And(all) => every(all.get().as_slice()),
        Expr::General(_, a, b) => compared(form(a.get()), form(b.get())),
        Expr::Slash(a, b) => slashed(form(a.get()), form(b.get())),
        Expr::Step(axis, test, tests) => step(*axis, test, tests.get().as_slice()),
        Expr::Call(name, args) => call(quiet_call(name), args.get().as_slice()),
        _ => PredicateForm::Other,
    }
}

#[cycle(form)]
fn any(all: &[Expr]) -> PredicateForm
    ensures { result ≡ form_of (any_of (map quietly_of all.now)) }
{
    for e in all {
        if !form(e).is_truth() {
            return PredicateForm::Other;
        }
    }
    PredicateForm::Condition
}

/// What is known of the conjuncts that have been looked at.
#[derive(Clone, Copy)]
struct Conjuncts {
    /// Whether all are truth values.
    truths: bool,
    /// Whether all are truth values or comparisons of an attribute with an integer.
    allowed: bool,
    /// How many are such comparisons.
    numerics: usize,
}

#[tactic(auto, using(crate::proofs::FormLemmas::tallies))]
fn with_conjunct(seen: Conjuncts, part: PredicateForm) -> Conjuncts
    requires small { seen.numerics < 18446744073709551615 }
    ensures tally { (qs : Items Quietly) (q : Quietly) → Tally qs seen.truths seen.allowed seen.numerics → part ≡ form_of q → Tally (qs ++ q ∷ []) result.truths result.allowed result.numerics }
    ensures few { result.numerics ≤ seen.numerics + 1 }
{
    let Conjuncts {
        truths,
        allowed,
        numerics,
    } = seen;
    if part.is_numeric() {
        return Conjuncts {
            truths: false,
            allowed,
            numerics: numerics + 1,
        };
    }
    if part.is_truth() {
        return Conjuncts {
            truths,
            allowed,
            numerics,
        };
    }
    Conjuncts {
        truths: false,
        allowed: false,
        numerics,
    }
}

/// One pass, since each part is looked at once.
#[cycle(form)]
fn every(all: &[Expr]) -> PredicateForm
    ensures { result ≡ form_of (all_of (map quietly_of all.now)) }
{
    let mut seen = Conjuncts {
        truths: true,
        allowed: true,
        numerics: 0,
    };
    for e in all {
        seen = with_conjunct(seen, form(e));
    }
    all_form(seen.truths, seen.allowed, seen.numerics)
}

#[tactic(auto, unfolding(quiet_meaning::specs::Quietly::is_one_name))]
fn is_one_name(name: &NameTest) -> bool
    ensures { result ≡ is_one_name name.now }
{
    match name {
        NameTest::Exact(_) => true,
        _ => false,
    }
}

/// Whether the test is for one name.
#[tactic(auto, unfolding(quiet_meaning::specs::Quietly::is_named))]
fn is_named(test: &Test) -> bool
    ensures { result ≡ is_named test.now }
{
    match test {
        Test::Named(name) => is_one_name(name),
        _ => false,
    }
}

#[tactic(auto, unfolding(quiet_meaning::specs::Quietly::is_attribute_axis))]
fn is_attribute_axis(axis: Axis) -> bool
    ensures { result ≡ is_attribute_axis axis }
{
    match axis {
        Axis::Attribute => true,
        _ => false,
    }
}

#[tactic(auto, using(crate::proofs::FormLemmas::bares))]
fn is_bare(tests: &[Expr]) -> bool
    ensures { result ≡ is_bare (map quietly_of tests.now) }
{
    tests.is_empty()
}

/// Whether the step is an attribute by its name, without predicates.
fn is_attribute_name(axis: Axis, test: &Test, tests: &[Expr]) -> bool
    ensures { result ≡ is_attribute_name axis test.now (map quietly_of tests.now) }
{
    is_attribute_axis(axis) && is_named(test) && is_bare(tests)
}

#[cycle(form)]
fn tested(tests: &[Expr]) -> PredicateForm
    ensures { result ≡ (if list_all is_predicate (map quietly_of tests.now) then forms.Step else forms.Other) }
{
    for e in tests {
        if !form(e).is_predicate() {
            return PredicateForm::Other;
        }
    }
    PredicateForm::Step
}

#[cycle(form)]
#[tactic(auto, using(crate::proofs::FormLemmas::steps_of))]
fn step(axis: Axis, test: &Test, tests: &[Expr]) -> PredicateForm
    ensures { result ≡ form_of (stepped axis test.now (map quietly_of tests.now)) }
{
    if is_attribute_name(axis, test, tests) {
        PredicateForm::Attribute
    } else {
        tested(tests)
    }
}

#[cycle(form)]
fn call(f: QuietCall, args: &[Expr]) -> PredicateForm
    ensures { (local : Items ℕ) → result ≡ form_of (call_gives f local (map quietly_of args.now)) }
{
    match args {
        [] => called(f),
        [only] => called_with(f, form(only)),
        _ => PredicateForm::Other,
    }
}
