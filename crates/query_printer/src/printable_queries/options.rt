// Namespaces and options.
ghost use Rattle.std.specs.Prelude.{◌≡◌, [], map, is_some, IfOk, IsTrue, nat_lt};
ghost use Rattle.std.specs.List.{list_all};
ghost use Rattle.expr_raws.specs.PathRaws.Names.{name_token};
ghost use Rattle.printed_laws.specs.QueryRaws.Prologs.{namespace, option_name, space_option, omit_option, means_rules};
ghost use Rattle.printed_laws.specs.QueryRaws.Queries.{all_can};

use crate::printable_queries::rules::means_rules;
use crate::prolog_drafts::rules_text;
use expr_drafts::name_prefixes::NamePrefixes;
use expr_drafts::name_tokens::word_term;
use expr_rules::expr_meant::written_in;
use expr_terms::fits_word;
use printable_forms::has_name;
use std::alloc::{AllocError, Global};
use xt_names::{Binding, ExprName, Text};
use xt_types::SpaceRule;

/// `declare namespace p = "u"`, where the prefix is a word.
fn can_namespace(alloc: Global, binding: &Binding) -> Result<bool, AllocError>
    ensures { IfOk result (λ can. can ≡ (namespace binding.now).can) }
{
    let token = word_term(&binding.prefix)?;
    let written = written_in(alloc, &token)?;
    Ok(fits_word(&token) && written.local == binding.prefix)
}

pub(crate) fn can_namespaces(alloc: Global, bindings: &[Binding]) -> Result<bool, AllocError>
    ensures { IfOk result (λ can. can ≡ all_can (map (λ b. namespace b) bindings.now)) }
{
    for binding in bindings {
        if !can_namespace(alloc, binding)? {
            return Ok(false);
        }
    }
    Ok(true)
}

/// A text of ASCII.
#[tactic(auto, using(xt_names::proofs::TextLemmas::ascii_same))]
fn ascii_text(alloc: Global, text: &str) -> Result<Text, AllocError>
    requires { IsTrue (list_all (λ b. nat_lt b 128) text.now) }
    ensures { IfOk result (λ made. made ≡ text.now) }
{
    Text::make(alloc, text)
}

/// Whether some token means the name of an option that has an effect.
fn has_option(alloc: Global, prefixes: &NamePrefixes, local: &str) -> Result<bool, AllocError>
    requires { IsTrue (list_all (λ b. nat_lt b 128) local.now) }
    ensures { IfOk result (λ has. has
        ≡ is_some (name_token prefixes.now.bound [] (option_name local.now))) }
{
    let uri = ascii_text(alloc, "urn:xslt2xq")?;
    let local = ascii_text(alloc, local)?;
    let name = ExprName { uri, local };
    let has = has_name(alloc, prefixes, &name)?;
    Ok(has)
}

/// Whether the text, read under the prefixes, breaks no rule and means these.
fn are_read_back(
    alloc: Global,
    prefixes: &NamePrefixes,
    text: &Text,
    rules: &[SpaceRule],
) -> Result<bool, AllocError>
    ensures { IfOk result (λ means. means ≡ means_rules prefixes.now.bound text.now rules.now) }
{
    let plain = prefixes.plain();
    let means = means_rules(alloc, &plain.bound, text, rules)?;
    Ok(means)
}

/// The option `space`, where there are rules: its text means just these.
/// (XQuery 1.0, 4.16)
#[tactic(auto, using(crate::proofs::PrintableQueries::CodeLemmas::alone))]
pub(crate) fn can_space(
    alloc: Global,
    prefixes: &NamePrefixes,
    rules: &[SpaceRule],
) -> Result<bool, AllocError>
    ensures { IfOk result (λ can. can ≡ all_can (space_option prefixes.now rules.now)) }
{
    match rules {
        [] => Ok(true),
        _ => {
            let text = rules_text(alloc, prefixes, rules)?;
            Ok(
                has_option(alloc, prefixes, "space")?
                    && are_read_back(alloc, prefixes, &text, rules)?,
            )
        }
    }
}

/// The option `declaration`, where the declaration is left out.
/// (XQuery 1.0, 4.16)
#[tactic(auto, using(crate::proofs::PrintableQueries::CodeLemmas::alone))]
pub(crate) fn can_omit(
    alloc: Global,
    prefixes: &NamePrefixes,
    omit: bool,
) -> Result<bool, AllocError>
    ensures { IfOk result (λ can. can ≡ all_can (omit_option prefixes.now omit)) }
{
    if omit {
        return has_option(alloc, prefixes, "declaration");
    }
    Ok(true)
}
