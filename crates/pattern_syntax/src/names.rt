// The pattern that is one name, or another test of names.
ghost use Rattle.std.specs.Prelude.{◌≡◌, ◌∷◌, [], IfOk, ℕ, true};
ghost use Rattle.std.specs.Str.{chars};
ghost use Rattle.xt_names.specs.Classes.{is_ncname_text};
ghost use Rattle.expr_keys.specs.declared.productions.Language.TheVariants.{Xpath as xpath};
ghost use Rattle.expr_grammar.specs.Machine.{read_whole};
ghost use Rattle.expr_grammar.specs.declared.expr_nest.measures.Measure.TheVariants.{Predicates};
ghost use Rattle.expr_reader.specs.declared.readings.Reading.TheVariants.{Value};
ghost use Rattle.expr_reader.specs.Answers.{within_by};
ghost use Rattle.pattern_syntax.specs.Names.{named, child_step, alone, name_meant};
ghost use Rattle.pattern_syntax.specs.Names.{is_lone_test, lone_step};
ghost use Rattle.pattern_syntax.specs.Readings.{GivesText};

use expr_resolve::Setting;
use expr_terms::{Class, Production, Raw, Token as Term, fits};
use std::alloc::{AllocError, Global};
use xt_names::{ExprName, List, Text};
use xt_syntax::{ParseFault, Pattern, PatternStep};
use xt_types::{Axis, NameTest, Test};

/// The list of the item alone.
fn only<A: Drop>(alloc: Global, item: A) -> Result<List<A>, AllocError>
    ensures { IfOk result (λ list. list ≡ item ∷ []) }
{
    let mut list = List::of_vec(Vec::with_capacity(alloc, 1)?);
    list.push(item)?;
    Ok(list)
}

/// The test for an element of this name.
fn named(alloc: Global, uri: &Text, local: &str) -> Result<Test, AllocError>
    ensures { IfOk result (λ test. test ≡ named uri.now (chars local.now)) }
{
    Ok(Test::Named(NameTest::Exact(ExprName {
        uri: uri.copy()?,
        local: Text::make(alloc, local)?,
    })))
}

/// The step to the children that pass the test.
fn child_step(alloc: Global, test: Test) -> PatternStep
    ensures { result ≡ child_step test }
{
    PatternStep {
        axis: Axis::Child,
        test,
        quiet: List::new(alloc),
        deep: false,
    }
}

/// The alternative that has the step alone.
fn alone(alloc: Global, step: PatternStep) -> Result<Pattern, AllocError>
    ensures { IfOk result (λ pattern. pattern ≡ alone step) }
{
    Ok(Pattern {
        rooted: false,
        steps: only(alloc, step)?,
    })
}

/// What the name means.
fn name_meant(alloc: Global, s: &Setting, local: &str) -> Result<List<Pattern>, AllocError>
    ensures { IfOk result (λ all. all ≡ name_meant s.now (chars local.now)) }
{
    let test = named(alloc, &s.prefixes.element_default, local)?;
    let pattern = alone(alloc, child_step(alloc, test))?;
    only(alloc, pattern)
}

/// What a text is read as that is one name: a step to the children of this name. Where it stands
/// alone, a word of the grammar is such a name too.
pub(crate) fn parse_name(
    alloc: Global,
    text: &str,
    setting: &Setting,
) -> Result<List<Pattern>, ParseFault>
    requires { is_ncname_text (chars text.now) ≡ true }
    ensures { (limit : ℕ) → GivesText result setting.now limit text.now }
{
    match name_meant(alloc, setting, text) {
        Err(e) => Err(ParseFault::Memory(e)),
        Ok(all) => Ok(all),
    }
}

/// Whether the tokens are one test of names.
pub(crate) fn is_lone_test(terms: &[Term]) -> bool
    ensures { result ≡ is_lone_test terms.now }
{
    match terms {
        [only] => fits(Class::NameTest, only),
        _ => false,
    }
}

/// The step that has the test alone.
fn lone_step(alloc: Global, test: Term) -> Result<Raw, AllocError>
    ensures { IfOk result (λ raw. raw ≡ lone_step test) }
{
    Ok(Raw::Node(Production::TestStep, only(alloc, Raw::Leaf(test))?))
}

/// What one test of names is read as.
pub(crate) fn lone_raw(alloc: Global, terms: Vec<Term>) -> Result<Raw, AllocError>
    requires { is_lone_test terms.items ≡ true }
    ensures { IfOk result (λ raw. (limit : ℕ)
        → within_by Predicates limit (read_whole xpath terms.items) ≡ Value raw) }
{
    let mut terms = terms;
    match terms.pop() {
        Some(test) => {
            drop(terms);
            lone_step(alloc, test)
        }
        None => unreachable!(),
    }
}
