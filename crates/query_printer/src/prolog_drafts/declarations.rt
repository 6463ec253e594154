// Variables and functions on a draft.
ghost use Rattle.std.specs.Prelude.{◌≡◌, ◌∷◌, [], ◌++◌, ◌<◌, ◌≤◌, ◌+◌, true, map, codes};
ghost use Rattle.std.specs.Prelude.{IfOk, OnOk};
ghost use Rattle.expr_keys.specs.declared.keys.Key.TheVariants as key_of;
ghost use Rattle.expr_keys.specs.declared.tokens.Token.TheVariants as token_of;
ghost use Rattle.expr_raws.specs.ControlRaws.Bindings.{typing, typing_tokens, may};
ghost use Rattle.printed_laws.specs.QueryRaws.Declarations.{variable, function, variable_token, named_by};
ghost use Rattle.printed_laws.specs.QueryRaws.Declarations.{typed_tokens, typed_can, value_tokens, value_can};
ghost use Rattle.printed_laws.specs.QueryRaws.Declarations.{params_tokens, params_can, signature_tokens};
ghost use Rattle.printed_laws.specs.QueryRaws.Queries.{prolog_tokens, all_can};

use crate::prolog_drafts::words::{push_declare, push_word, token_or};
use expr_drafts::expr_places::SINGLE;
use expr_drafts::name_prefixes::NamePrefixes;
use expr_drafts::name_tokens::{function_token, name_token};
use expr_drafts::{Draft, Spot, push_comma};
use expr_terms::{Key, Token};
use form_drafts::leaf_pages::push_typing;
use query_pages::Gap;
use std::alloc::{AllocError, Global};
use xt_names::ExprName;
use xt_syntax::{Expr, QueryFunction, QueryParam, QueryVar};
use xt_types::SeqType;

/// The token of a variable or a parameter.
fn variable_token(
    alloc: Global,
    prefixes: &NamePrefixes,
    name: &ExprName,
) -> Result<Token, AllocError>
    ensures { IfOk result (λ token. token ≡ variable_token prefixes.now name.now) }
{
    Ok(token_or(name_token(alloc, prefixes, name)?))
}

fn named_by(alloc: Global, prefixes: &NamePrefixes, name: &ExprName) -> Result<Token, AllocError>
    ensures { IfOk result (λ token. token ≡ named_by prefixes.now name.now) }
{
    let plain = prefixes.plain();
    let default = &plain.function_default;
    Ok(token_or(function_token(alloc, prefixes, default, name)?))
}

/// `$v as T`.
fn push_typed(
    alloc: Global,
    draft: &mut Draft<'_>,
    prefixes: &NamePrefixes,
    name: &ExprName,
    kind: &Option<SeqType>,
) -> Result<(), AllocError>
    requires { typed_can prefixes.now name.now kind.now ≡ true }
    ensures { OnOk result (draft.new ≡ typed_tokens prefixes.now name.now kind.now ++ draft.old) }
{
    push_typing(alloc, draft, prefixes, kind)?;
    draft.push(Gap::Space, variable_token(alloc, prefixes, name)?)?;
    draft.push_key(Gap::Space, Key::Dollar)?;
    Ok(())
}

/// `external`, or `:= a`.
fn push_value<'a>(
    alloc: Global,
    draft: &mut Draft<'a>,
    prefixes: &'a NamePrefixes,
    value: &'a Option<Expr>,
) -> Result<(), AllocError>
    requires { value_can prefixes.now value.now ≡ true }
    ensures { OnOk result (draft.new ≡ value_tokens prefixes.now value.now ++ draft.old) }
{
    match value {
        None => push_word(alloc, draft, Gap::Space, "external"),
        Some(e) => {
            draft.push_part(prefixes, Spot::behind_space(0), SINGLE, e)?;
            draft.push_key(Gap::Space, Key::Assign)?;
            Ok(())
        }
    }
}

/// `declare variable $v as T := a;`.
fn push_variable<'a>(
    alloc: Global,
    draft: &mut Draft<'a>,
    prefixes: &'a NamePrefixes,
    declared: &'a QueryVar,
) -> Result<(), AllocError>
    requires { (variable prefixes.now declared.now).can ≡ true }
    ensures { OnOk result (draft.new ≡ (variable prefixes.now declared.now).tokens
        ++ token_of.Key key_of.Semicolon ∷ draft.old) }
{
    draft.push_key(Gap::Space, Key::Semicolon)?;
    push_value(alloc, draft, prefixes, &declared.value)?;
    push_typed(alloc, draft, prefixes, &declared.name, &declared.kind)?;
    push_declare(alloc, draft, "variable")?;
    Ok(())
}

/// The variables, in order.
/// (XQuery 1.0, 4.14)
pub fn push_variables<'a>(
    alloc: Global,
    draft: &mut Draft<'a>,
    prefixes: &'a NamePrefixes,
    variables: &'a [QueryVar],
) -> Result<(), AllocError>
    requires { all_can (map (λ v. variable prefixes.now v) variables.now) ≡ true }
    ensures { OnOk result (draft.new
        ≡ prolog_tokens (map (λ v. variable prefixes.now v) variables.now) draft.old) }
{
    let mut left = variables.len();
    while left > 0 {
        left -= 1;
        push_variable(alloc, draft, prefixes, &variables[left])?;
    }
    Ok(())
}

/// Parameters, with commas between them.
fn push_params(
    alloc: Global,
    draft: &mut Draft<'_>,
    prefixes: &NamePrefixes,
    params: &[QueryParam],
) -> Result<(), AllocError>
    requires { params_can prefixes.now params.now ≡ true }
    ensures { OnOk result (draft.new ≡ params_tokens prefixes.now params.now ++ draft.old) }
{
    let mut left = params.len();
    while left > 0 {
        left -= 1;
        push_comma(draft, left, params.len())?;
        let param = &params[left];
        push_typed(alloc, draft, prefixes, &param.name, &param.kind)?;
    }
    Ok(())
}

/// `f($a as T, ..) as T`.
fn push_signature(
    alloc: Global,
    draft: &mut Draft<'_>,
    prefixes: &NamePrefixes,
    declared: &QueryFunction,
) -> Result<(), AllocError>
    requires params { params_can prefixes.now declared.now.params ≡ true }
    requires kind { may (typing prefixes.now declared.now.kind) ≡ true }
    ensures { OnOk result (draft.new
        ≡ signature_tokens prefixes.now declared.now ++ draft.old) }
{
    push_typing(alloc, draft, prefixes, &declared.kind)?;
    draft.push_key(Gap::Space, Key::CloseParen)?;
    push_params(alloc, draft, prefixes, declared.params.as_slice())?;
    draft.push_key(Gap::Space, Key::OpenParen)?;
    draft.push(Gap::Space, named_by(alloc, prefixes, &declared.name)?)?;
    Ok(())
}

/// `declare function f($a as T, ..) as T { a };`.
fn push_function<'a>(
    alloc: Global,
    draft: &mut Draft<'a>,
    prefixes: &'a NamePrefixes,
    declared: &'a QueryFunction,
) -> Result<(), AllocError>
    requires { (function prefixes.now declared.now).can ≡ true }
    ensures { OnOk result (draft.new ≡ (function prefixes.now declared.now).tokens
        ++ token_of.Key key_of.Semicolon ∷ draft.old) }
{
    draft.push_key(Gap::Space, Key::Semicolon)?;
    draft.push_key(Gap::Line(0), Key::CloseBrace)?;
    draft.push_expr(prefixes, Spot::on_line(2), &declared.body)?;
    draft.push_key(Gap::Space, Key::OpenBrace)?;
    push_signature(alloc, draft, prefixes, declared)?;
    push_declare(alloc, draft, "function")?;
    Ok(())
}

/// The functions, in order.
/// (XQuery 1.0, 4.15)
pub fn push_functions<'a>(
    alloc: Global,
    draft: &mut Draft<'a>,
    prefixes: &'a NamePrefixes,
    functions: &'a [QueryFunction],
) -> Result<(), AllocError>
    requires { all_can (map (λ f. function prefixes.now f) functions.now) ≡ true }
    ensures { OnOk result (draft.new
        ≡ prolog_tokens (map (λ f. function prefixes.now f) functions.now) draft.old) }
{
    let mut left = functions.len();
    while left > 0 {
        left -= 1;
        push_function(alloc, draft, prefixes, &functions[left])?;
    }
    Ok(())
}
