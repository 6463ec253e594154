// Rules of white space that are read back.
ghost use Rattle.std.specs.Prelude.{◌≡◌, IfOk};
ghost use Rattle.printed_laws.specs.QueryRaws.Prologs.{same_rule, same_rules, means_rules};

use bound_prefixes::BoundPrefixes;
use expr_drafts::name_tokens::same_test;
use expr_names::ResolveFault;
use query_options::space_rules;
use std::alloc::{AllocError, Global};
use xt_names::Text;
use xt_types::SpaceRule;

fn same_rule(a: &SpaceRule, b: &SpaceRule) -> bool
    ensures { result ≡ same_rule a.now b.now }
{
    if a.strip {
        b.strip && same_test(&a.test, &b.test)
    } else if b.strip {
        false
    } else {
        same_test(&a.test, &b.test)
    }
}

fn same_rules(all: &[SpaceRule], others: &[SpaceRule]) -> bool
    ensures { result ≡ same_rules all.now others.now }
{
    let mut left = all;
    let mut right = others;
    while let [x, xs @ ..] = left {
        match right {
            [] => return false,
            [y, ys @ ..] => {
                if !same_rule(x, y) {
                    return false;
                }
                left = xs;
                right = ys;
            }
        }
    }
    match right {
        [] => true,
        _ => false,
    }
}

/// Whether the text breaks no rule and means these.
/// (XQuery 1.0, 4.16)
#[tactic(auto, using(crate::proofs::PrintableQueries::CodeLemmas::kept))]
pub(crate) fn means_rules(
    alloc: Global,
    bound: &BoundPrefixes,
    text: &Text,
    rules: &[SpaceRule],
) -> Result<bool, AllocError>
    ensures { IfOk result (λ means. means ≡ means_rules bound.now text.now rules.now) }
{
    match space_rules(alloc, bound, text) {
        Ok(meant) => Ok(same_rules(meant.as_slice(), rules)),
        Err(ResolveFault::Static(_)) => Ok(false),
        Err(ResolveFault::Memory(e)) => Err(e),
    }
}
