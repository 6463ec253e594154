// Lists of name tests.
ghost use Rattle.expr_names.specs.Answers.{Answers};
ghost use Rattle.expr_names.specs.Names.{name_test, test_broken};
ghost use Rattle.query_options.specs.Spaces.{test_or_any};
ghost use Rattle.sheet_values.specs.Rules.{as_prefix};
ghost use Rattle.sheet_values.specs.Elements.{written_broken, element_broken, element_meant};
ghost use Rattle.sheet_values.specs.Elements.{elements_broken, elements_meant};
ghost use Rattle.sheet_values.specs.Elements.{name_tests_faults, name_tests_value};

use crate::faults::{sheet_fault, tested_in_scope};
use bound_prefixes::BoundPrefixes;
use expr_names::{ResolveFault, WrittenTest, name_test};
use query_options::{words_of, written_test};
use std::alloc::Global;
use xt_names::{List, SheetStaticCode, Text};
use xt_types::NameTest;

fn in_scope(
    alloc: Global,
    bound: &BoundPrefixes,
    written: &WrittenTest,
) -> Result<NameTest, ResolveFault>
    ensures { Answers result (as_prefix (test_broken bound.now written.now))
        (name_test bound.now written.now) }
{
    tested_in_scope(name_test(alloc, bound, written))
}

#[tactic(auto, unfolding(crate::specs::Elements::written_broken, query_options::specs::Spaces::test_or_any))]
fn test_of(
    alloc: Global,
    bound: &BoundPrefixes,
    written: &Option<WrittenTest>,
) -> Result<NameTest, ResolveFault>
    ensures { Answers result (written_broken bound.now written.now)
        (name_test bound.now (test_or_any written.now)) }
{
    match written {
        None => Err(sheet_fault(SheetStaticCode::XTSE0020)),
        Some(written) => in_scope(alloc, bound, written),
    }
}

fn element(alloc: Global, bound: &BoundPrefixes, word: &Text) -> Result<NameTest, ResolveFault>
    ensures { Answers result (element_broken bound.now word.now)
        (element_meant bound.now word.now) }
{
    let written = written_test(alloc, word.as_str())?;
    test_of(alloc, bound, &written)
}

fn elements(
    alloc: Global,
    bound: &BoundPrefixes,
    words: &[Text],
) -> Result<List<NameTest>, ResolveFault>
    ensures { Answers result (elements_broken bound.now words.now)
        (elements_meant bound.now words.now) }
{
    let mut made = List::new(alloc);
    let mut left = words;
    while let [word, rest @ ..] = left {
        made.push(element(alloc, bound, word)?)?;
        left = rest;
    }
    Ok(made)
}

/// The name tests that the text lists, in which a name without a prefix has no uri (XSLT 2.0, 4.4).
/// XTSE0020 where a word is no name test, and XTSE0280 where its prefix is not declared. The list
/// may be empty.
pub fn name_tests(
    alloc: Global,
    bound: &BoundPrefixes,
    text: &Text,
) -> Result<List<NameTest>, ResolveFault>
    ensures { Answers result (name_tests_faults bound.now text.now)
        (name_tests_value bound.now text.now) }
{
    let words = words_of(alloc, text.as_str())?;
    elements(alloc, bound, words.as_slice())
}
