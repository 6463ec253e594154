#![tactic(auto, using(name_rules::proofs::FaultLemmas::first_of_two))]
// The rules of the second part of a prolog.
ghost use Rattle.std.specs.Prelude.{◌≡◌, [], IfOk};
ghost use Rattle.name_rules.specs.Faults.{first};
ghost use Rattle.closed_queries.specs.PrologRules.Declarations.{is_reserved_uri, params_broken, body_broken, function_name_broken, value_broken, variable_broken, function_broken, declaration_broken, scope_behind, functions_behind, all_behind, declarations_broken, query_broken};

use crate::prolog_rules::declarations::Declaration;
use crate::prolog_rules::faults::broken_if;
use name_rules::{Functions, VariableScope, broken_names, earlier, names_differ, param_names};
use std::alloc::{AllocError, Global};
use xt_names::{Code, List, QueryStaticCode, Text, is_ascii_text};
use xt_syntax::{Expr, QueryFunction, QueryParam, QueryVar};

/// The first rule, in reading order, that the variables and functions of a prolog and the body of the query break; None
/// exactly where they break none (XQuery 1.0, 4.14 and 4.15).
///
/// - XQST0049: a variable has the name of one before it.
/// - XQST0034, XQST0045, XQST0060: a function has name and number of parameters of one before it, is in a reserved
///   namespace, or in none. XQST0039: two of its parameters have one name.
/// - XPST0008: a variable is named that is not bound there, no parameter and not declared before. XPST0017: a function is
///   called that is neither declared anywhere in the query nor known to all.
pub fn broken_query(
    declarations: &List<Declaration>,
    body: &Expr,
) -> Result<Option<Code>, AllocError>
    ensures { IfOk result (λ fault. fault ≡ first (query_broken declarations.now body.now)) }
{
    let alloc = declarations.allocator();
    let functions = all_functions(alloc, declarations.as_slice())?;
    check_declarations(alloc, declarations.as_slice(), body, &functions)
}

fn all_functions(alloc: Global, declarations: &[Declaration]) -> Result<Functions, AllocError>
    ensures { IfOk result (λ functions. functions ≡ all_behind [] declarations.now) }
{
    let mut functions = Functions::new(alloc);
    for declaration in declarations {
        functions = functions_behind(functions, declaration)?;
    }
    Ok(functions)
}

#[tactic(auto, unfolding(crate::specs::PrologRules::Declarations::functions_behind))]
fn functions_behind(
    functions: Functions,
    declaration: &Declaration,
) -> Result<Functions, AllocError>
    ensures { IfOk result (λ behind. behind ≡ functions_behind functions declaration.now) }
{
    let mut behind = functions;
    match declaration {
        Declaration::Variable(_) => Ok(behind),
        Declaration::Function(function) => {
            let _new = behind.declare(&function.name, function.params.len())?;
            Ok(behind)
        }
    }
}

#[tactic(auto, unfolding(crate::specs::PrologRules::Declarations::scope_behind))]
fn scope_behind(
    scope: VariableScope,
    declaration: &Declaration,
) -> Result<VariableScope, AllocError>
    ensures { IfOk result (λ behind. behind ≡ scope_behind scope declaration.now) }
{
    match declaration {
        Declaration::Variable(variable) => scope.with(variable.name.copy()?),
        Declaration::Function(_) => Ok(scope),
    }
}

#[tactic(auto, unfolding(name_rules::specs::Faults::earlier))]
fn check_declarations(
    alloc: Global,
    declarations: &[Declaration],
    body: &Expr,
    functions: &Functions,
) -> Result<Option<Code>, AllocError>
    ensures { IfOk result (λ fault. fault ≡ first (declarations_broken functions.now [] [] declarations.now body.now)) }
{
    let mut fault = None;
    let mut scope = VariableScope::new(alloc)?;
    let mut declared = Functions::new(alloc);
    for declaration in declarations {
        let found = check_declaration(declaration, functions, &scope, &declared)?;
        fault = earlier(fault, found);
        scope = scope_behind(scope, declaration)?;
        declared = functions_behind(declared, declaration)?;
    }
    let last = broken_names(body, functions, &scope)?;
    Ok(earlier(fault, last))
}

#[tactic(auto, unfolding(crate::specs::PrologRules::Declarations::declaration_broken))]
fn check_declaration(
    declaration: &Declaration,
    functions: &Functions,
    scope: &VariableScope,
    declared: &Functions,
) -> Result<Option<Code>, AllocError>
    ensures { IfOk result (λ fault. fault ≡ first (declaration_broken functions.now scope.now declared.now declaration.now)) }
{
    match declaration {
        Declaration::Variable(variable) => check_variable(variable, functions, scope),
        Declaration::Function(function) => check_function(function, functions, scope, declared),
    }
}

#[tactic(auto, using(name_rules::proofs::FaultLemmas::first_of_two), unfolding(crate::specs::PrologRules::Declarations::variable_broken))]
fn check_variable(
    variable: &QueryVar,
    functions: &Functions,
    scope: &VariableScope,
) -> Result<Option<Code>, AllocError>
    ensures { IfOk result (λ fault. fault ≡ first (variable_broken functions.now scope.now variable.now)) }
{
    let twice = broken_if(scope.has(&variable.name), QueryStaticCode::XQST0049);
    let value = check_value(&variable.value, functions, scope)?;
    Ok(earlier(twice, value))
}

#[tactic(auto, using(name_rules::proofs::FaultLemmas::first_of_none), unfolding(crate::specs::PrologRules::Declarations::value_broken))]
fn check_value(
    value: &Option<Expr>,
    functions: &Functions,
    scope: &VariableScope,
) -> Result<Option<Code>, AllocError>
    ensures { IfOk result (λ fault. fault ≡ first (value_broken functions.now scope.now value.now)) }
{
    match value {
        None => Ok(None),
        Some(e) => broken_names(e, functions, scope),
    }
}

#[tactic(auto, using(name_rules::proofs::FaultLemmas::first_of_two), unfolding(crate::specs::PrologRules::Declarations::function_broken))]
fn check_function(
    function: &QueryFunction,
    functions: &Functions,
    scope: &VariableScope,
    declared: &Functions,
) -> Result<Option<Code>, AllocError>
    ensures { IfOk result (λ fault. fault ≡ first (function_broken functions.now scope.now declared.now function.now)) }
{
    let name = check_function_name(function, declared)?;
    let params = check_params(&function.params)?;
    let body = check_body(function, functions, scope)?;
    let rest = earlier(params, body);
    Ok(earlier(name, rest))
}

fn check_params(params: &List<QueryParam>) -> Result<Option<Code>, AllocError>
    ensures { IfOk result (λ fault. fault ≡ first (params_broken params.now)) }
{
    let names = param_names(params)?;
    let differ = names_differ(&names)?;
    Ok(broken_if(!differ, QueryStaticCode::XQST0039))
}

fn check_body(
    function: &QueryFunction,
    functions: &Functions,
    scope: &VariableScope,
) -> Result<Option<Code>, AllocError>
    ensures { IfOk result (λ fault. fault ≡ first (body_broken functions.now scope.now function.now)) }
{
    let params = param_names(&function.params)?;
    let inner = scope.inside()?.with_all(&params)?;
    broken_names(&function.body, functions, &inner)
}

#[tactic(auto, using(name_rules::proofs::FaultLemmas::first_of_two), unfolding(crate::specs::PrologRules::Declarations::function_name_broken))]
fn check_function_name(
    function: &QueryFunction,
    declared: &Functions,
) -> Result<Option<Code>, AllocError>
    ensures { IfOk result (λ fault. fault ≡ first (function_name_broken declared.now function.now)) }
{
    let is_declared = declared.has(&function.name, function.params.len())?;
    let twice = broken_if(is_declared, QueryStaticCode::XQST0034);
    let reserved = broken_if(
        is_reserved_uri(&function.name.uri),
        QueryStaticCode::XQST0045,
    );
    let bare = broken_if(function.name.uri.is_empty(), QueryStaticCode::XQST0060);
    let rest = earlier(reserved, bare);
    Ok(earlier(twice, rest))
}

#[tactic(auto, unfolding(crate::specs::PrologRules::Declarations::is_reserved_uri))]
fn is_reserved_uri(uri: &Text) -> bool
    ensures { result ≡ is_reserved_uri uri.now }
{
    is_ascii_text(uri.as_str(), "http://www.w3.org/XML/1998/namespace")
        || is_ascii_text(uri.as_str(), "http://www.w3.org/2001/XMLSchema")
        || is_ascii_text(uri.as_str(), "http://www.w3.org/2001/XMLSchema-instance")
        || is_ascii_text(uri.as_str(), "http://www.w3.org/2005/xpath-functions")
}
