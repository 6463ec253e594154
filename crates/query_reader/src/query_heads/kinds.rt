// Types that may be left out.
ghost use Rattle.std.specs.Prelude.{◌≡◌, IfOk};
ghost use Rattle.query_grammar.specs.Machine.{typing_of, typed_of};
ghost use Rattle.expr_grammar.specs.Machine.{read_type};
ghost use Rattle.expr_keys.specs.declared.productions.Language.TheVariants.{Xquery as xquery};

use expr_reader::{Reading, parse_type};
use expr_terms::{Key, Language, Raw, Token, fits_key, fits_name};
use query_grammar::Typed;
use std::alloc::{AllocError, Global};

/// The type that the tokens spell. None nests, so none is too deep.
#[tactic(auto, using(crate::proofs::QueryHeads::TypeLemmas::types))]
fn type_of(alloc: Global, tokens: &[Token]) -> Result<Option<Raw>, AllocError>
    ensures { IfOk result (λ kind. kind ≡ read_type xquery tokens.now) }
{
    match parse_type(alloc, Language::Xquery, tokens, 1)? {
        Reading::Value(raw) => Ok(Some(raw)),
        Reading::Nothing => Ok(None),
        Reading::TooDeep => Ok(None),
    }
}

/// `as` and a type, or nothing.
pub fn typing_of(alloc: Global, tokens: &[Token]) -> Result<Option<Option<Raw>>, AllocError>
    ensures { IfOk result (λ typing. typing ≡ typing_of tokens.now) }
{
    match tokens {
        [] => Ok(Some(None)),
        [word, kind @ ..] => {
            if !fits_key(Key::AsWord, word) {
                return Ok(None);
            }
            match type_of(alloc, kind)? {
                None => Ok(None),
                Some(raw) => Ok(Some(Some(raw))),
            }
        }
    }
}

/// `$`, a name, and a type where one is written.
pub fn typed_of(alloc: Global, tokens: &[Token]) -> Result<Option<Typed>, AllocError>
    ensures { IfOk result (λ typed. typed ≡ typed_of tokens.now) }
{
    match tokens {
        [dollar, name, kind @ ..] => {
            if !(fits_key(Key::Dollar, dollar) && fits_name(name)) {
                return Ok(None);
            }
            match typing_of(alloc, kind)? {
                None => Ok(None),
                Some(kind) => Ok(Some(Typed {
                    name: name.copy()?,
                    kind,
                })),
            }
        }
        _ => Ok(None),
    }
}
