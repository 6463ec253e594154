// Functions, before their bodies.
ghost use Rattle.std.specs.Prelude.{◌≡◌, [], IfOk, option_and_then};
ghost use Rattle.query_grammar.specs.Machine.{inside, signature_in, signature_of, inner_start};
ghost use Rattle.query_reader.specs.QueryHeads.Closing.{Closes};

use crate::query_heads::kinds::typing_of;
use crate::query_heads::params::params_of;
use expr_terms::{Key, Token, fits_function, fits_key};
use query_grammar::{Opening, Signature};
use std::alloc::{AllocError, Global};

/// The place of the `)` that closes what comes before it.
#[tactic(auto, using(crate::proofs::QueryHeads::SliceLemmas::insides))]
fn closing(tokens: &[Token]) -> Option<usize>
    ensures { Closes result tokens.now }
{
    let mut depth: usize = 0;
    for i in 0..tokens.len() {
        if fits_key(Key::CloseParen, &tokens[i]) {
            if depth == 0 {
                return Some(i);
            }
            depth -= 1;
        } else if fits_key(Key::OpenParen, &tokens[i]) {
            depth += 1;
        }
    }
    None
}

/// The parameters and the type of a function, after its name and `(`.
#[tactic(auto, using(crate::proofs::QueryHeads::SliceLemmas::parts))]
fn signature_in(
    alloc: Global,
    name: &Token,
    behind: &[Token],
) -> Result<Option<Signature>, AllocError>
    ensures { IfOk result (λ found. found ≡
        option_and_then (signature_in name.now) (inside 0 [] behind.now)) }
{
    match closing(behind) {
        None => Ok(None),
        Some(place) => match params_of(alloc, &behind[..place])? {
            None => Ok(None),
            Some(params) => match typing_of(alloc, &behind[place + 1..])? {
                None => Ok(None),
                Some(kind) => Ok(Some(Signature {
                    name: name.copy()?,
                    params,
                    kind,
                })),
            },
        },
    }
}

fn signature_of(alloc: Global, tokens: &[Token]) -> Result<Option<Signature>, AllocError>
    ensures { IfOk result (λ found. found ≡ signature_of tokens.now) }
{
    match tokens {
        [name, open, behind @ ..] => {
            if fits_function(name) && fits_key(Key::OpenParen, open) {
                signature_in(alloc, name, behind)
            } else {
                Ok(None)
            }
        }
        _ => Ok(None),
    }
}

/// The function whose body follows the tokens after the two words of its declaration; None where
/// no body may follow them.
pub fn inner_start(
    alloc: Global,
    opening: Opening,
    tokens: &[Token],
) -> Result<Option<Signature>, AllocError>
    ensures { IfOk result (λ found. found ≡ inner_start opening tokens.now) }
{
    match opening {
        Opening::Function => signature_of(alloc, tokens),
        _ => Ok(None),
    }
}
