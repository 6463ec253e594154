// Whole expressions and whole types.
ghost use Rattle.std.specs.Prelude.{◌≡◌, ◌++◌, [], List as Items};
ghost use Rattle.xt_names.specs.declared.codes.Code.{Code};
ghost use Rattle.expr_primaries.specs.ExprRules.declared.expr_meant.meant.Meant.{Meant};
ghost use Rattle.expr_primaries.specs.ExprRules.ExprMeant.Parts.{expr_of};
ghost use Rattle.expr_primaries.specs.ExprNames.Answers.{Answers};
ghost use Rattle.expr_primaries.specs.ExprRules.Rules.{type_broken_of};
ghost use Rattle.expr_control.specs.Types.{sequence_of};
ghost use Rattle.expr_resolve.specs.Folds.{broken_of, expr_meant, type_broken, type_meant};

use crate::resolving::part_of;
use crate::setting::Setting;
use bound_prefixes::BoundPrefixes;
use expr_control::sequence_of;
use expr_primaries::expr_names::ResolveFault;
use expr_primaries::expr_rules::expr_meant::{Meant, expr_of};
use expr_primaries::expr_rules::type_rule;
use expr_terms::Raw;
use std::alloc::Global;
use xt_names::Shared;
use xt_syntax::{Expr, SeqType};

fn copied(e: Shared<Expr>) -> Result<Expr, ResolveFault>
    ensures { Answers result [] e }
{
    let copy = e.get().copy();
    drop(e);
    match copy {
        Err(e) => Err(ResolveFault::Memory(e)),
        Ok(copy) => Ok(copy),
    }
}

fn expr_in_part(alloc: Global, part: Meant) -> Result<Expr, ResolveFault>
    ensures { Answers result [] (expr_of part) }
{
    let e = expr_of(alloc, &part);
    drop(part);
    match e {
        Err(e) => Err(ResolveFault::Memory(e)),
        Ok(e) => copied(e),
    }
}

fn as_whole(alloc: Global, part: Result<Meant, ResolveFault>) -> Result<Expr, ResolveFault>
    ensures { (codes : Items Code) (m : Meant) → Answers part codes m → Answers result codes (expr_of m) }
{
    match part {
        Err(fault) => Err(fault),
        Ok(part) => expr_in_part(alloc, part),
    }
}

/// The expression that the raw value means, or the code of the first static rule that it breaks.
pub fn resolve(alloc: Global, s: &Setting, raw: &Raw) -> Result<Expr, ResolveFault>
    ensures { Answers result (broken_of s.now raw.now) (expr_meant s.now raw.now) }
{
    as_whole(alloc, part_of(alloc, s, raw))
}

fn type_in_part(alloc: Global, bound: &BoundPrefixes, part: Meant) -> Result<SeqType, ResolveFault>
    ensures { Answers result [] (sequence_of bound.now part) }
{
    let kind = sequence_of(alloc, bound, &part);
    drop(part);
    match kind {
        Err(e) => Err(ResolveFault::Memory(e)),
        Ok(kind) => Ok(kind),
    }
}

fn known_type(alloc: Global, bound: &BoundPrefixes, part: Meant) -> Result<SeqType, ResolveFault>
    ensures { Answers result (type_broken_of bound.now part) (sequence_of bound.now part) }
{
    match type_rule(alloc, bound, &part) {
        Err(fault) => {
            drop(part);
            Err(fault)
        }
        Ok(()) => type_in_part(alloc, bound, part),
    }
}

fn as_type(
    alloc: Global,
    bound: &BoundPrefixes,
    part: Result<Meant, ResolveFault>,
) -> Result<SeqType, ResolveFault>
    ensures { (codes : Items Code) (m : Meant) → Answers part codes m → Answers result (codes ++ type_broken_of bound.now m) (sequence_of bound.now m) }
{
    match part {
        Err(fault) => Err(fault),
        Ok(part) => known_type(alloc, bound, part),
    }
}

/// The sequence type that the raw value means, or the code of the first static rule that it breaks.
pub fn resolve_type(alloc: Global, s: &Setting, raw: &Raw) -> Result<SeqType, ResolveFault>
    ensures { Answers result (type_broken s.now raw.now) (type_meant s.now raw.now) }
{
    let part = part_of(alloc, s, raw);
    as_type(alloc, &s.prefixes.bound, part)
}
