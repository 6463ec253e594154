#![tactic(auto, using(name_rules::proofs::FaultLemmas::first_of_two, name_rules::proofs::FaultLemmas::earlier_at_end))]
// The rules of the first part of a prolog.
ghost use Rattle.std.specs.Prelude.{◌≡◌, IfOk};
ghost use Rattle.name_rules.specs.Faults.{first};
ghost use Rattle.closed_queries.specs.PrologRules.Setters.{default_broken, is_kept_uri, is_kept_binding, nothing_seen, setter_broken, setters_broken};

use crate::prolog_rules::faults::broken_if;
use crate::prolog_rules::seen::Seen;
use crate::prolog_rules::setters::Setter;
use name_rules::earlier;
use std::alloc::{AllocError, Global};
use xt_names::{Binding, Code, QueryStaticCode, Text, is_ascii_text};

/// The first rule, in reading order, that the namespaces and setters of a prolog break; None exactly where they break
/// none (XQuery 1.0, 4). The rules are XQST0033, of a prefix that is declared twice, XQST0066, of a default namespace
/// that is, XQST0068, of boundary-space, and XQST0070, of a declaration of xml, of xmlns or of one of their uris, as a
/// default too.
#[tactic(auto, using(name_rules::proofs::FaultLemmas::earlier_at_end), unfolding(name_rules::specs::Faults::first, name_rules::specs::Faults::earlier))]
pub fn broken_setter(alloc: Global, setters: &[Setter]) -> Result<Option<Code>, AllocError>
    ensures { IfOk result (λ fault. fault ≡ first (setters_broken nothing_seen setters.now)) }
{
    let mut fault = None;
    let mut seen = Seen::nothing(alloc);
    for setter in setters {
        let found = check_setter(&seen, setter);
        fault = earlier(fault, found);
        seen = seen.behind(setter)?;
    }
    Ok(fault)
}

#[tactic(auto, using(name_rules::proofs::FaultLemmas::first_of_two, name_rules::proofs::FaultLemmas::first_of_none), unfolding(crate::specs::PrologRules::Setters::setter_broken))]
fn check_setter(seen: &Seen, setter: &Setter) -> Option<Code>
    ensures { result ≡ first (setter_broken seen.now setter.now) }
{
    match setter {
        Setter::Namespace(binding) => {
            let twice = broken_if(
                seen.prefixes.has(&binding.prefix),
                QueryStaticCode::XQST0033,
            );
            let kept = broken_if(is_kept_binding(binding), QueryStaticCode::XQST0070);
            earlier(twice, kept)
        }
        Setter::ElementDefault(uri) => check_default(seen.element_default, uri),
        Setter::FunctionDefault(uri) => check_default(seen.function_default, uri),
        Setter::BoundarySpace(_) => broken_if(seen.boundary_space, QueryStaticCode::XQST0068),
        Setter::Other => None,
    }
}

fn check_default(is_declared: bool, uri: &Text) -> Option<Code>
    ensures { result ≡ first (default_broken is_declared uri.now) }
{
    let twice = broken_if(is_declared, QueryStaticCode::XQST0066);
    let kept = broken_if(is_kept_uri(uri), QueryStaticCode::XQST0070);
    earlier(twice, kept)
}

#[tactic(auto, unfolding(crate::specs::PrologRules::Setters::is_kept_binding))]
fn is_kept_binding(binding: &Binding) -> bool
    ensures { result ≡ is_kept_binding binding.now }
{
    is_ascii_text(binding.prefix.as_str(), "xml")
        || is_ascii_text(binding.prefix.as_str(), "xmlns")
        || is_kept_uri(&binding.uri)
}

#[tactic(auto, unfolding(crate::specs::PrologRules::Setters::is_kept_uri))]
fn is_kept_uri(uri: &Text) -> bool
    ensures { result ≡ is_kept_uri uri.now }
{
    is_ascii_text(uri.as_str(), "http://www.w3.org/XML/1998/namespace")
        || is_ascii_text(uri.as_str(), "http://www.w3.org/2000/xmlns/")
}
