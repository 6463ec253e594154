// Variables, before their values.
ghost use Rattle.std.specs.Prelude.{◌≡◌, IfOk};
ghost use Rattle.query_grammar.specs.Machine.{is_outside, but_last, outside_of, value_start};

use crate::query_heads::kinds::typed_of;
use crate::query_heads::words::is_named;
use expr_terms::Token;
use query_grammar::{Declared, Opening, Typed};
use std::alloc::{AllocError, Global};

/// A variable that is given from outside: its last word is `external`.
#[tactic(auto, using(crate::proofs::QueryHeads::SliceLemmas::lasts))]
pub fn outside_of(alloc: Global, tokens: &[Token]) -> Result<Option<Declared>, AllocError>
    ensures { IfOk result (λ found. found ≡ outside_of tokens.now) }
{
    match tokens {
        [] => Ok(None),
        [front @ .., last] => {
            if !is_named(last, "external") {
                return Ok(None);
            }
            match typed_of(alloc, front)? {
                None => Ok(None),
                Some(variable) => Ok(Some(Declared::Variable(variable, None))),
            }
        }
    }
}

/// The variable whose value follows the tokens after the two words of its declaration; None where
/// no value may follow them.
pub fn value_start(
    alloc: Global,
    opening: Opening,
    tokens: &[Token],
) -> Result<Option<Typed>, AllocError>
    ensures { IfOk result (λ found. found ≡ value_start opening tokens.now) }
{
    match opening {
        Opening::Variable => typed_of(alloc, tokens),
        _ => Ok(None),
    }
}
