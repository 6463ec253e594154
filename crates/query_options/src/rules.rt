// The rules of white space that a text means.
ghost use Rattle.std.specs.Prelude.{◌≡◌, ◌++◌, []};
ghost use Rattle.expr_names.specs.Answers.{Answers};
ghost use Rattle.expr_names.specs.Names.{name_test, test_broken};
ghost use Rattle.query_options.specs.Spaces.{word_broken, test_word_broken, test_or_any};
ghost use Rattle.query_options.specs.Spaces.{pair_broken};
ghost use Rattle.query_options.specs.Spaces.{pair_meant, pairs_broken, pairs_meant, space_broken};
ghost use Rattle.query_options.specs.Spaces.{space_meant};
ghost use Rattle.query_options.specs.Spaces.{not_taken};

use crate::tests_of_words::written_test;
use crate::words::words_of;
use bound_prefixes::BoundPrefixes;
use expr_names::xt_types::{NameTest, SpaceRule};
use expr_names::{ResolveFault, WrittenTest, name_test, static_fault};
use std::alloc::Global;
use xt_names::{List, QueryStaticCode, Text, is_ascii_text};

/// XTOP0001, of a text that the option does not take.
/// (XQuery 1.0, 4.16)
pub(crate) fn refused() -> Result<(), ResolveFault>
    ensures { Answers result not_taken tt }
{
    Err(static_fault(QueryStaticCode::XTOP0001))
}

fn check_word(word: &Text) -> Result<(), ResolveFault>
    ensures { Answers result (word_broken word.now) tt }
{
    if is_ascii_text(word.as_str(), "strip") || is_ascii_text(word.as_str(), "preserve") {
        return Ok(());
    }
    refused()
}

#[tactic(auto, unfolding(crate::specs::Spaces::test_word_broken, crate::specs::Spaces::test_or_any))]
fn test_of(
    alloc: Global,
    bound: &BoundPrefixes,
    written: Option<WrittenTest>,
) -> Result<NameTest, ResolveFault>
    ensures { Answers result (test_word_broken bound.now written)
        (name_test bound.now (test_or_any written)) }
{
    match written {
        None => Err(static_fault(QueryStaticCode::XTOP0001)),
        Some(written) => name_test(alloc, bound, &written),
    }
}

#[tactic(auto, using(expr_names::proofs::Follow::fault_first, expr_names::proofs::Follow::fault_next))]
fn rule_of(
    alloc: Global,
    bound: &BoundPrefixes,
    word: &Text,
    text: &Text,
) -> Result<SpaceRule, ResolveFault>
    ensures { Answers result (pair_broken bound.now word.now text.now)
        (pair_meant bound.now word.now text.now) }
{
    check_word(word)?;
    let written = written_test(alloc, text.as_str())?;
    let test = test_of(alloc, bound, written)?;
    Ok(SpaceRule {
        strip: is_ascii_text(word.as_str(), "strip"),
        test,
    })
}

#[tactic(auto, using(expr_names::proofs::Follow::fault_first, expr_names::proofs::Follow::fault_next))]
fn rules_of(
    alloc: Global,
    bound: &BoundPrefixes,
    words: &[Text],
) -> Result<List<SpaceRule>, ResolveFault>
    ensures { Answers result (pairs_broken bound.now words.now) (pairs_meant bound.now words.now) }
{
    let mut made = List::new(alloc);
    let mut left = words;
    while let [word, text, rest @ ..] = left {
        made.push(rule_of(alloc, bound, word, text)?)?;
        left = rest;
    }
    if !left.is_empty() {
        refused()?;
    }
    Ok(made)
}

/// The rules of white space that the text of the option means. XTOP0001 where it is no list of
/// pairs of `strip` or `preserve` and a name test, and XPST0081 where the prefix of one is not
/// declared; the first that is broken counts.
/// (XQuery 1.0, 4.16; XSLT 2.0, 4.4)
pub fn space_rules(
    alloc: Global,
    bound: &BoundPrefixes,
    text: &Text,
) -> Result<List<SpaceRule>, ResolveFault>
    ensures { Answers result (space_broken bound.now text.now) (space_meant bound.now text.now) }
{
    let words = words_of(alloc, text.as_str())?;
    rules_of(alloc, bound, words.as_slice())
}
