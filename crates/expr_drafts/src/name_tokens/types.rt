// Atomic types.
ghost use Rattle.std.specs.Prelude.{◌≡◌, IfOk, IsTrue, nat_lt};
ghost use Rattle.std.specs.List.{list_all};
ghost use Rattle.expr_raws.specs.ControlRaws.Types.{local_name, type_token};

use crate::name_prefixes::NamePrefixes;
use crate::name_tokens::prefixed::qualified_token;
use expr_terms::{Class, Token};
use std::alloc::{AllocError, Global};
use xt_names::{AtomType, Text};

#[tactic(auto, using(xt_names::proofs::TextLemmas::ascii_same))]
fn ascii_text(alloc: Global, text: &str) -> Result<Text, AllocError>
    requires { IsTrue (list_all (λ b. nat_lt b 128) text.now) }
    ensures { IfOk result (λ made. made ≡ text.now) }
{
    Text::make(alloc, text)
}

fn local_name(alloc: Global, kind: AtomType) -> Result<Text, AllocError>
    ensures { IfOk result (λ name. name ≡ local_name kind) }
{
    match kind {
        AtomType::Str => ascii_text(alloc, "string"),
        AtomType::Untyped => ascii_text(alloc, "untypedAtomic"),
        AtomType::Int => ascii_text(alloc, "integer"),
        AtomType::Bool => ascii_text(alloc, "boolean"),
        AtomType::QName => ascii_text(alloc, "QName"),
        AtomType::Any => ascii_text(alloc, "anyAtomicType"),
    }
}

/// The token of an atomic type; None where no prefix is bound to the uri of the types.
/// (XPath 2.0, 2.5.3)
pub fn type_token(
    alloc: Global,
    prefixes: &NamePrefixes,
    kind: AtomType,
) -> Result<Option<Token>, AllocError>
    ensures { IfOk result (λ token. token ≡ type_token prefixes.now.bound kind) }
{
    let uri = ascii_text(alloc, "http://www.w3.org/2001/XMLSchema")?;
    let local = local_name(alloc, kind)?;
    qualified_token(Class::Name, prefixes, &uri, &local)
}
