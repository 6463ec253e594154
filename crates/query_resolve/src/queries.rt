// Whole queries.
ghost use Rattle.std.specs.Prelude.{◌≡◌, ◌++◌, [], IfOk, List as Items};
ghost use Rattle.xt_names.specs.declared.codes.Code.{Code};
ghost use Rattle.xt_syntax.specs.declared.exprs.Expr.{Expr};
ghost use Rattle.query_resolve.specs.declared.late.Late.{Late};
ghost use Rattle.query_resolve.specs.declared.queries.Parts.{Parts};
ghost use Rattle.query_resolve.specs.Late.{late_meant};
ghost use Rattle.expr_names.specs.Answers.{Answers};
ghost use Rattle.expr_resolve.specs.Folds.{broken_of, expr_meant};
ghost use Rattle.closed_queries.specs.PrologRules.Declarations.{query_broken};
ghost use Rattle.query_resolve.specs.Queries.{setting_behind, query_by, rest_broken};
ghost use Rattle.query_resolve.specs.Meaning.{Resolved};
ghost use Rattle.query_resolve.specs.Queries.{rules_broken, query_meant, resolved, Gives};

use crate::late::{Late, late_of};
use crate::parts::{functions_in, variables_in};
use crate::query_prologs::{
    answer_to, checked_setters, declared_bindings, is_stripped, prefixes_of,
};
use closed_queries::prolog_rules::{Declaration, Setter, broken_query};
use expr_names::ResolveFault;
use expr_resolve::{Setting, resolve};
use query_grammar::RawQuery;
use std::alloc::{AllocError, Global};
use xt_names::List;
use xt_syntax::{Expr, Query};

fn setting_behind(alloc: Global, setters: &[Setter]) -> Result<Setting, AllocError>
    ensures { IfOk result (λ s. s ≡ setting_behind setters.now) }
{
    Ok(Setting {
        prefixes: prefixes_of(alloc, setters)?,
        strip: is_stripped(setters),
    })
}

fn check_names(declarations: &List<Declaration>, body: &Expr) -> Result<(), ResolveFault>
    ensures { Answers result (query_broken declarations.now body.now) tt }
{
    let found = broken_query(declarations, body)?;
    answer_to(found)
}

/// What comes after the setters.
#[derive(Drop)]
struct Parts {
    late: Late,
    body: Expr,
}

fn with_body(late: Late, body: Result<Expr, ResolveFault>) -> Result<Parts, ResolveFault>
    ensures { (codes : Items Code) (e : Expr) → Answers body codes e
        → Answers result codes (record { late = late; body = e }) }
{
    match body {
        Err(fault) => {
            drop(late);
            Err(fault)
        }
        Ok(body) => Ok(Parts { late, body }),
    }
}

fn with_late(
    late: Result<Late, ResolveFault>,
    body: Result<Expr, ResolveFault>,
) -> Result<Parts, ResolveFault>
    ensures { (codes others : Items Code) (l : Late) (e : Expr) → Answers late codes l
        → Answers body others e → Answers result (codes ++ others) (record { late = l; body = e }) }
{
    match late {
        Err(fault) => {
            drop(body);
            Err(fault)
        }
        Ok(late) => with_body(late, body),
    }
}

fn checked(parts: Parts) -> Result<Parts, ResolveFault>
    ensures { Answers result (query_broken parts.late.declarations parts.body) parts }
{
    match check_names(&parts.late.declarations, &parts.body) {
        Err(fault) => {
            drop(parts);
            Err(fault)
        }
        Ok(()) => Ok(parts),
    }
}

fn checked_parts(parts: Result<Parts, ResolveFault>) -> Result<Parts, ResolveFault>
    ensures { (codes : Items Code) (p : Parts) → Answers parts codes p
        → Answers result (codes ++ query_broken p.late.declarations p.body) p }
{
    match parts {
        Err(fault) => Err(fault),
        Ok(parts) => checked(parts),
    }
}

fn query_of(
    alloc: Global,
    setters: &[Setter],
    setting: &Setting,
    parts: Parts,
) -> Result<Query, AllocError>
    ensures { IfOk result (λ q. q ≡ query_by setters.now setting.now parts.late parts.body) }
{
    let prefixes = declared_bindings(alloc, setters)?;
    let element_default = setting.prefixes.element_default.copy()?;
    let variables = variables_in(alloc, parts.late.declarations.as_slice())?;
    let functions = functions_in(alloc, parts.late.declarations.as_slice())?;
    Ok(Query {
        prefixes,
        element_default,
        variables,
        functions,
        body: parts.body,
        space: parts.late.options.rules,
        omit: parts.late.options.omit,
    })
}

fn made_query(
    alloc: Global,
    setters: &[Setter],
    setting: &Setting,
    parts: Result<Parts, ResolveFault>,
) -> Result<Query, ResolveFault>
    ensures { (codes : Items Code) (p : Parts) → Answers parts codes p
        → Answers result codes (query_by setters.now setting.now p.late p.body) }
{
    match parts {
        Err(fault) => Err(fault),
        Ok(parts) => match query_of(alloc, setters, setting, parts) {
            Err(e) => Err(ResolveFault::Memory(e)),
            Ok(query) => Ok(query),
        },
    }
}

fn behind_setters(
    alloc: Global,
    setters: &[Setter],
    s: &Setting,
    raw: &RawQuery,
) -> Result<Query, ResolveFault>
    ensures { Answers result (rest_broken s.now raw.now)
        (query_by setters.now s.now (late_meant s.now raw.now.declared)
        (expr_meant s.now raw.now.body)) }
{
    let late = late_of(alloc, s, raw.declared.as_slice());
    let body = resolve(alloc, s, &raw.body);
    made_query(alloc, setters, s, checked_parts(with_late(late, body)))
}

fn in_setting(alloc: Global, setters: &[Setter], raw: &RawQuery) -> Result<Query, ResolveFault>
    ensures { Answers result (rest_broken (setting_behind setters.now) raw.now)
        (query_by setters.now (setting_behind setters.now)
        (late_meant (setting_behind setters.now) raw.now.declared)
        (expr_meant (setting_behind setters.now) raw.now.body)) }
{
    let setting = setting_behind(alloc, setters)?;
    behind_setters(alloc, setters, &setting, raw)
}

#[tactic(auto, using(expr_names::proofs::Follow::fault_first, expr_names::proofs::Follow::fault_next))]
fn query_in(alloc: Global, raw: &RawQuery) -> Result<Query, ResolveFault>
    ensures { Answers result (rules_broken raw.now) (query_meant raw.now) }
{
    let setters = checked_setters(alloc, raw.declared.as_slice())?;
    in_setting(alloc, setters.as_slice(), raw)
}

/// The query that is meant, or the code of the first static rule that is broken: of those on
/// version, namespaces and setters (XQST0031, XQST0033, XQST0066, XQST0068, XQST0070), of those on
/// how options, variables, functions and expressions are written (XPST0010, XPST0017 of the name
/// of a type, XPST0051, XPST0080, XPST0081, XQST0040, XQST0089, XTOP0001), and of those on what is
/// declared where it is named (XPST0008, XPST0017, XQST0034, XQST0039, XQST0045, XQST0049,
/// XQST0060).
/// (XQuery 1.0, 2.3.1, 3.1, 3.7.1, 3.8.1 and 4.1 to 4.16)
#[tactic(auto, using(crate::proofs::MeaningLemmas::resolving))]
pub fn resolve_query(alloc: Global, raw: &RawQuery) -> Result<Query, ResolveFault>
    ensures meant { Resolved result raw.now }
    ensures value { Gives result (resolved raw.now) }
{
    query_in(alloc, raw)
}
