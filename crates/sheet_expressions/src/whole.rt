// Expressions as they are written, with the calls in them.
ghost use Rattle.std.specs.Prelude.{◌≡◌, map, option_map, option_and_then, IfOk};
ghost use Rattle.sheet_expressions.specs.Parts.{call_asks};
ghost use Rattle.sheet_expressions.specs.Checked.{allowed_call, checked_node, all_some, checked};

use crate::calls::SheetCall;
use crate::parts::{call_asks, key_call};
use expr_terms::{Production, Raw};
use std::alloc::{AllocError, Global};
use xt_names::List;
use xt_syntax::Prefixes;

#[tactic(auto, unfolding(crate::specs::Checked::allowed_call))]
fn allowed_call(
    alloc: Global,
    prefixes: &Prefixes,
    in_group: bool,
    asked: SheetCall,
    parts: List<Raw>,
) -> Result<Option<Raw>, AllocError>
    ensures { IfOk result (λ made. made ≡ allowed_call prefixes.now in_group asked parts) }
{
    match asked {
        SheetCall::Plain => Ok(Some(Raw::Node(Production::Call, parts))),
        SheetCall::LeftOut => {
            drop(parts);
            Ok(None)
        }
        SheetCall::InGroup => {
            if in_group {
                return Ok(Some(Raw::Node(Production::Call, parts)));
            }
            drop(parts);
            Ok(None)
        }
        SheetCall::Key => key_call(alloc, &prefixes.bound, parts),
    }
}

fn checked_call(
    alloc: Global,
    prefixes: &Prefixes,
    in_group: bool,
    parts: List<Raw>,
) -> Result<Option<Raw>, AllocError>
    ensures { IfOk result (λ made. made
        ≡ allowed_call prefixes.now in_group (call_asks prefixes.now parts) parts) }
{
    let asked = call_asks(alloc, prefixes, parts.as_slice())?;
    allowed_call(alloc, prefixes, in_group, asked, parts)
}

#[tactic(auto, unfolding(crate::specs::Checked::checked_node))]
fn checked_node(
    alloc: Global,
    prefixes: &Prefixes,
    in_group: bool,
    production: Production,
    parts: List<Raw>,
) -> Result<Option<Raw>, AllocError>
    ensures { IfOk result (λ made. made
        ≡ checked_node prefixes.now in_group production parts) }
{
    match production {
        Production::Call => checked_call(alloc, prefixes, in_group, parts),
        _ => Ok(Some(Raw::Node(production, parts))),
    }
}

fn checked_whole(
    alloc: Global,
    prefixes: &Prefixes,
    in_group: bool,
    production: Production,
    parts: Option<List<Raw>>,
) -> Result<Option<Raw>, AllocError>
    ensures { IfOk result (λ made. made
        ≡ option_and_then (checked_node prefixes.now in_group production) parts) }
{
    match parts {
        None => Ok(None),
        Some(parts) => checked_node(alloc, prefixes, in_group, production, parts),
    }
}

/// The same value with the names of keys in place of the literals that write them; None exactly
/// where a call is in it that may not: one of a function that is left out, one of
/// current-group() or current-grouping-key() where it is not in an `xsl:for-each-group`, or
/// one of key() whose first argument is no literal (XSLT 2.0, 14.1, 16.3 and 16.6).
#[cycle(checked)]
pub fn checked(
    alloc: Global,
    prefixes: &Prefixes,
    in_group: bool,
    raw: &Raw,
) -> Result<Option<Raw>, AllocError>
    ensures { IfOk result (λ made. made ≡ checked prefixes.now in_group raw.now) }
{
    match raw {
        Raw::Leaf(token) => Ok(Some(Raw::Leaf(token.copy()?))),
        Raw::Node(production, parts) => {
            let parts = checked_parts(alloc, prefixes, in_group, parts.as_slice())?;
            checked_whole(alloc, prefixes, in_group, *production, parts)
        }
    }
}

#[cycle(checked)]
#[tactic(auto, using(crate::proofs::PartLemmas::parts))]
fn checked_parts(
    alloc: Global,
    prefixes: &Prefixes,
    in_group: bool,
    raws: &[Raw],
) -> Result<Option<List<Raw>>, AllocError>
    ensures { IfOk result (λ made. made
        ≡ all_some (map (checked prefixes.now in_group) raws.now)) }
{
    let mut made = Vec::with_capacity(alloc, raws.len())?;
    for raw in raws {
        match checked(alloc, prefixes, in_group, raw)? {
            Some(part) => made.push(part)?,
            None => return Ok(None),
        }
    }
    Ok(Some(List::of_vec(made)))
}
