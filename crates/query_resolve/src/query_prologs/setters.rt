// The version, the namespaces and the setters.
ghost use Rattle.std.specs.Prelude.{◌≡◌, ◌++◌, [], IfOk};
ghost use Rattle.std.specs.List.{list_any};
ghost use Rattle.expr_rules.specs.ExprMeant.Names.{written_in};
ghost use Rattle.expr_names.specs.Answers.{Answers};
ghost use Rattle.closed_queries.specs.PrologRules.Setters.{broken_if, nothing_seen, setters_broken};
ghost use Rattle.query_resolve.specs.QueryPrologs.Setters.{setter_of, setters_of, is_other_version};
ghost use Rattle.query_resolve.specs.QueryPrologs.Setters.{version_broken, first_part_broken};

use crate::query_prologs::answers::answer_to;
use closed_queries::prolog_rules::{Setter, broken_setter};
use expr_names::{ResolveFault, static_fault};
use expr_rules::expr_meant::written_in;
use expr_terms::Token;
use query_grammar::Declared;
use std::alloc::{AllocError, Global};
use xt_names::{Binding, List, QueryStaticCode, Text, is_ascii_text};

fn binding_of(alloc: Global, prefix: &Token, uri: &Text) -> Result<Binding, AllocError>
    ensures { IfOk result (λ b. b
        ≡ record { prefix = (written_in prefix.now).local; uri = uri.now }) }
{
    let written = written_in(alloc, prefix)?;
    Ok(Binding {
        prefix: written.local,
        uri: uri.copy()?,
    })
}

#[tactic(auto, unfolding(crate::specs::QueryPrologs::Setters::setter_of))]
fn setter_of(alloc: Global, declared: &Declared) -> Result<Setter, AllocError>
    ensures { IfOk result (λ s. s ≡ setter_of declared.now) }
{
    match declared {
        Declared::Namespace(prefix, uri) => Ok(Setter::Namespace(binding_of(alloc, prefix, uri)?)),
        Declared::ElementDefault(uri) => Ok(Setter::ElementDefault(uri.copy()?)),
        Declared::FunctionDefault(uri) => Ok(Setter::FunctionDefault(uri.copy()?)),
        Declared::BoundarySpace(preserve) => Ok(Setter::BoundarySpace(*preserve)),
        _ => Ok(Setter::Other),
    }
}

fn setters_of(alloc: Global, declared: &[Declared]) -> Result<List<Setter>, AllocError>
    ensures { IfOk result (λ ss. ss ≡ setters_of declared.now) }
{
    let mut setters = Vec::with_capacity(alloc, declared.len())?;
    for d in declared {
        setters.push(setter_of(alloc, d)?)?;
    }
    Ok(List::of_vec(setters))
}

#[tactic(auto, unfolding(crate::specs::QueryPrologs::Setters::is_other_version))]
fn is_other_version(declared: &Declared) -> bool
    ensures { result ≡ is_other_version declared.now }
{
    match declared {
        Declared::Version(text) => !is_ascii_text(text.as_str(), "1.0"),
        _ => false,
    }
}

fn has_other_version(declared: &[Declared]) -> bool
    ensures { result ≡ list_any is_other_version declared.now }
{
    declared.iter().any(|d| is_other_version(d))
}

#[tactic(auto, unfolding(closed_queries::specs::PrologRules::Setters::broken_if))]
fn check_version(declared: &[Declared]) -> Result<(), ResolveFault>
    ensures { Answers result (version_broken declared.now) tt }
{
    if has_other_version(declared) {
        return Err(static_fault(QueryStaticCode::XQST0031));
    }
    Ok(())
}

fn check_setters(alloc: Global, setters: &[Setter]) -> Result<(), ResolveFault>
    ensures { Answers result (setters_broken nothing_seen setters.now) tt }
{
    let found = broken_setter(alloc, setters)?;
    answer_to(found)
}

/// The setters of a prolog, one for each declaration, or the code of the first rule that version,
/// namespaces and setters break: XQST0031, of a version other than 1.0, and then, in the order in
/// which they stand, XQST0033, of a prefix that is declared twice, XQST0066, of a default namespace
/// that is, XQST0068, of boundary-space, and XQST0070, of xml, of xmlns or of one of their uris.
/// (XQuery 1.0, 4.1, 4.3, 4.12 and 4.13)
#[tactic(auto, using(expr_names::proofs::Follow::fault_first, expr_names::proofs::Follow::fault_next))]
pub fn checked_setters(alloc: Global, declared: &[Declared]) -> Result<List<Setter>, ResolveFault>
    ensures { Answers result (first_part_broken declared.now) (setters_of declared.now) }
{
    check_version(declared)?;
    let setters = setters_of(alloc, declared)?;
    check_setters(alloc, setters.as_slice())?;
    Ok(setters)
}
