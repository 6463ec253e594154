// Uses of names that are not declared.
ghost use Rattle.std.specs.Prelude.{◌≡◌, ◌++◌, IfOk, OnOk, IsTrue, nat_lt, Some, None};
ghost use Rattle.std.specs.Prelude.{if◌then◌else◌};
ghost use Rattle.std.specs.List.{list_all};
ghost use Rattle.xt_names.specs.declared.codes.Code.{Code};
ghost use Rattle.sheet_expressions.specs.SheetNames.Uses.{is_called, is_of_sheets, is_key_call, is_callable};
ghost use Rattle.sheet_expressions.specs.SheetNames.Uses.{broken_key, broken_call, broken_use};
ghost use Rattle.sheet_expressions.specs.SheetNames.Uses.{broken_in, broken_uses};

use crate::sheet_names::names::{Names, has_key};
use function_table::is_in_fn;
use sheet_uses::Use;
use std::alloc::{AllocError, Global};
use xt_names::{Code, ExprName, List, QueryStaticCode, SheetStaticCode, Text, is_ascii_text};

fn is_called(name: &ExprName, arity: usize, local: &str, wanted: usize) -> bool
    requires { IsTrue (list_all (λ b. nat_lt b 128) local.now) }
    ensures { result ≡ is_called name.now arity local.now wanted }
{
    is_ascii_text(name.local.as_str(), local) && arity == wanted
}

/// Whether it is one of the functions that stylesheets alone may call (XSLT 2.0, 14.1, 16.1, 16.3 and
/// 16.6).
fn is_of_sheets(name: &ExprName, arity: usize) -> bool
    ensures { result ≡ is_of_sheets name.now arity }
{
    is_in_fn(name)
        && (is_called(name, arity, "current", 0)
            || is_called(name, arity, "current-group", 0)
            || is_called(name, arity, "current-grouping-key", 0)
            || is_called(name, arity, "key", 2)
            || is_called(name, arity, "document", 1))
}

fn is_key_call(name: &ExprName, arity: usize) -> bool
    ensures { result ≡ is_key_call name.now arity }
{
    is_in_fn(name) && is_called(name, arity, "key", 2)
}

fn is_callable(names: &Names, name: &ExprName, arity: usize) -> Result<bool, AllocError>
    ensures { IfOk result (λ may. may ≡ is_callable names.now name.now arity) }
{
    if is_of_sheets(name, arity) {
        return Ok(true);
    }
    names.functions.may_be_called(name, arity)
}

#[tactic(auto, unfolding(crate::specs::SheetNames::Uses::broken_key))]
fn broken_key(
    alloc: Global,
    names: &Names,
    literal: &Option<Text>,
) -> Result<Option<Code>, AllocError>
    ensures { IfOk result (λ code. code ≡ broken_key names.now literal.now) }
{
    match literal {
        None => Ok(None),
        Some(text) => {
            let declared = has_key(alloc, &names.keys, text)?;
            Ok(code_unless(declared, Code::SheetStatic(SheetStaticCode::XTDE1260)))
        }
    }
}

fn code_unless(kept: bool, code: Code) -> Option<Code>
    ensures { result ≡ (if kept then None else Some code) }
{
    if kept { None } else { Some(code) }
}

fn broken_call(
    alloc: Global,
    names: &Names,
    name: &ExprName,
    arity: usize,
    literal: &Option<Text>,
) -> Result<Option<Code>, AllocError>
    ensures { IfOk result (λ code. code ≡ broken_call names.now name.now arity literal.now) }
{
    if !is_callable(names, name, arity)? {
        return Ok(Some(Code::QueryStatic(QueryStaticCode::XPST0017)));
    }
    if is_key_call(name, arity) {
        return broken_key(alloc, names, literal);
    }
    Ok(None)
}

/// The rule that the use breaks, or None: XPST0008 where a variable is not declared (XPath 2.0,
/// 3.1.2), XPST0017 where no function with so many parameters is, and it is none that every
/// stylesheet may call (3.1.5), XTDE1260 where a literal names a key that is not (XSLT 2.0, 16.3), and
/// XTSE0650 where a template is called that is not (10.1). A call of key() whose first argument is no
/// literal breaks none here.
#[tactic(auto, unfolding(crate::specs::SheetNames::Uses::broken_use))]
pub fn broken_use(alloc: Global, names: &Names, one: &Use) -> Result<Option<Code>, AllocError>
    ensures { IfOk result (λ code. code ≡ broken_use names.now one.now) }
{
    match one {
        Use::Variable(name) => {
            let declared = names.variables.has(name);
            Ok(code_unless(declared, Code::QueryStatic(QueryStaticCode::XPST0008)))
        }
        Use::Call(name, arity, literal) => broken_call(alloc, names, name, *arity, literal),
        Use::Template(number, _) => {
            let declared = *number < names.templates;
            Ok(code_unless(declared, Code::SheetStatic(SheetStaticCode::XTSE0650)))
        }
        Use::Apply(_) => Ok(None),
    }
}

fn push_some(codes: &mut List<Code>, code: Option<Code>) -> Result<(), AllocError>
    ensures { OnOk result (codes.new ≡ codes.old ++ broken_in code) }
{
    match code {
        None => Ok(()),
        Some(code) => codes.push(code),
    }
}

/// Puts the rules that the uses break after the others, in order; `broken_use` tells which they
/// are.
pub fn push_broken_uses(
    alloc: Global,
    names: &Names,
    uses: &[Use],
    codes: &mut List<Code>,
) -> Result<(), AllocError>
    ensures { OnOk result (codes.new ≡ codes.old ++ broken_uses names.now uses.now) }
{
    for one in uses {
        let code = broken_use(alloc, names, one)?;
        push_some(codes, code)?;
    }
    Ok(())
}
