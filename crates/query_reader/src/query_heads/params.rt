// The parameters of functions.
ghost use Rattle.std.specs.Prelude.{◌≡◌, IfOk};
ghost use Rattle.query_grammar.specs.Machine.{params_of};

use crate::query_heads::kinds::typed_of;
use expr_terms::{Key, Token, fits_key};
use query_grammar::Typed;
use std::alloc::{AllocError, Global};
use xt_names::List;

/// The parameters, with commas between them.
#[tactic(auto, using(crate::proofs::QueryHeads::SliceLemmas::params))]
pub fn params_of(alloc: Global, tokens: &[Token]) -> Result<Option<List<Typed>>, AllocError>
    ensures { IfOk result (λ params. params ≡ params_of tokens.now) }
{
    let mut params = List::new(alloc);
    if tokens.is_empty() {
        return Ok(Some(params));
    }
    let mut from = 0;
    for i in 0..tokens.len() {
        if fits_key(Key::Comma, &tokens[i]) {
            match typed_of(alloc, &tokens[from..i])? {
                None => return Ok(None),
                Some(param) => params.push(param)?,
            }
            from = i + 1;
        }
    }
    match typed_of(alloc, &tokens[from..])? {
        None => Ok(None),
        Some(param) => {
            params.push(param)?;
            Ok(Some(params))
        }
    }
}
