// What the answers of parts make together. Each call takes an answer and whatever it is an answer
// to, so that the recursion itself holds nothing that an early return would have to end.
ghost use Rattle.std.specs.Prelude.{◌≡◌, ◌++◌, ◌∷◌, [], reverse, List as Items};
ghost use Rattle.xt_names.specs.declared.codes.Code.{Code};
ghost use Rattle.expr_primaries.specs.ExprRules.declared.expr_meant.meant.Meant.{Meant};
ghost use Rattle.expr_primaries.specs.ExprNames.Answers.{Answers};
ghost use Rattle.expr_resolve.specs.Tables.{act, own, end, is_tag, before_last};
ghost use Rattle.xt_names.specs.Lists.{is_none};

use crate::acts::{act, before_last, end, own};
use crate::families::is_tag;
use crate::setting::Setting;
use expr_primaries::expr_names::ResolveFault;
use expr_primaries::expr_rules::expr_meant::Meant;
use expr_terms::Production;
use std::alloc::Global;
use xt_names::List;

/// A part with its own rules.
fn checked(
    alloc: Global,
    s: &Setting,
    production: Production,
    first: bool,
    part: Result<Meant, ResolveFault>,
) -> Result<Meant, ResolveFault>
    ensures { (codes : Items Code) (m : Meant) → Answers part codes m → Answers result (codes ++ own s.now production first m) m }
{
    match part {
        Err(fault) => Err(fault),
        Ok(part) => match own(alloc, s, production, first, &part) {
            Err(fault) => {
                drop(part);
                Err(fault)
            }
            Ok(()) => Ok(part),
        },
    }
}

/// The parts with one more.
fn with_part(
    made: List<Meant>,
    part: Result<Meant, ResolveFault>,
) -> Result<List<Meant>, ResolveFault>
    ensures { (codes : Items Code) (m : Meant) → Answers part codes m → Answers result codes (made ++ m ∷ []) }
{
    let mut made = made;
    match part {
        Err(fault) => {
            drop(made);
            Err(fault)
        }
        Ok(part) => match made.push(part) {
            Err(e) => {
                drop(made);
                Err(ResolveFault::Memory(e))
            }
            Ok(()) => Ok(made),
        },
    }
}

/// The parts with one more, which is the last one or not.
pub(crate) fn stepped(
    alloc: Global,
    s: &Setting,
    production: Production,
    last: bool,
    made: List<Meant>,
    part: Result<Meant, ResolveFault>,
) -> Result<List<Meant>, ResolveFault>
    ensures { (codes : Items Code) (m : Meant) → Answers part codes m → Answers result (before_last (is_tag production) last made ++ (codes ++ own s.now production (is_none made) m)) (made ++ m ∷ []) }
{
    match before_last(alloc, is_tag(production), last, made.as_slice()) {
        Err(fault) => {
            drop(part);
            drop(made);
            Err(fault)
        }
        Ok(()) => {
            let first = made.is_empty();
            with_part(made, checked(alloc, s, production, first, part))
        }
    }
}

/// The parts with one more, whose rules come before theirs.
pub(crate) fn stepped_back(
    made: Result<List<Meant>, ResolveFault>,
    part: Result<Meant, ResolveFault>,
) -> Result<List<Meant>, ResolveFault>
    ensures { (codes others : Items Code) (ms : Items Meant) (m : Meant) → Answers made others ms → Answers part codes m → Answers result (codes ++ others) (ms ++ m ∷ []) }
{
    match made {
        Ok(made) => with_part(made, part),
        Err(fault) => match part {
            Err(first) => Err(first),
            Ok(part) => {
                drop(part);
                Err(fault)
            }
        },
    }
}

/// The parts in reverse order.
pub(crate) fn turned(parts: Result<List<Meant>, ResolveFault>) -> Result<List<Meant>, ResolveFault>
    ensures { (codes : Items Code) (ms : Items Meant) → Answers parts codes ms → Answers result codes (reverse ms) }
{
    match parts {
        Err(fault) => Err(fault),
        Ok(parts) => {
            let mut parts = parts.into_vec();
            parts.reverse();
            Ok(List::of_vec(parts))
        }
    }
}

fn made_of(
    alloc: Global,
    s: &Setting,
    production: Production,
    parts: List<Meant>,
) -> Result<Meant, ResolveFault>
    ensures { Answers result [] (act s.now production parts) }
{
    let made = act(alloc, s, production, parts.as_slice());
    drop(parts);
    match made {
        Err(e) => Err(ResolveFault::Memory(e)),
        Ok(made) => Ok(made),
    }
}

fn ended(
    alloc: Global,
    s: &Setting,
    production: Production,
    parts: List<Meant>,
) -> Result<Meant, ResolveFault>
    ensures { Answers result (end s.now production parts) (act s.now production parts) }
{
    match end(alloc, s, production, parts.as_slice()) {
        Err(fault) => {
            drop(parts);
            Err(fault)
        }
        Ok(()) => made_of(alloc, s, production, parts),
    }
}

/// What the production means, from what its parts mean.
pub(crate) fn finished(
    alloc: Global,
    s: &Setting,
    production: Production,
    parts: Result<List<Meant>, ResolveFault>,
) -> Result<Meant, ResolveFault>
    ensures { (codes : Items Code) (ms : Items Meant) → Answers parts codes ms → Answers result (codes ++ end s.now production ms) (act s.now production ms) }
{
    match parts {
        Err(fault) => Err(fault),
        Ok(parts) => ended(alloc, s, production, parts),
    }
}
