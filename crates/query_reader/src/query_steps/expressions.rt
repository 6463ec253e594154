// The expressions of a query.
ghost use Rattle.std.specs.Prelude.{◌≡◌, ◌∷◌, [], ℕ, List, IfOk, Some, option_map};
ghost use Rattle.expr_keys.specs.declared.tokens.Token.{Token as Term};
ghost use Rattle.expr_keys.specs.declared.productions.Language.TheVariants.{Xquery as xquery};
ghost use Rattle.expr_terms.specs.Choices.{second_of};
ghost use Rattle.expr_grammar.specs.Machine.{Frame as Open, advance, finish};
ghost use Rattle.query_grammar.specs.declared.declared.Declared.TheVariants.{Variable};
ghost use Rattle.query_grammar.specs.Machine.{to_mode, body, value, inner, to_end, to_closed};
ghost use Rattle.query_grammar.specs.Machine.{function_of};
ghost use Rattle.query_reader.specs.QuerySteps.Stands.{Holds, Moves, Turned, semicolon_key, brace_key};

use crate::query_steps::stages::{ReaderState, StepResult};
use expr_reader::{ExprParser, Reading};
use expr_terms::{Second, Token};
use query_grammar::{Declared, Signature, Typed};
use std::alloc::{AllocError, Global};

/// Leads the token into the expression.
/// (XQuery 1.0, 3 and A.1)
#[tactic(auto, using(crate::proofs::QuerySteps::ExpressionLemmas::expressions))]
pub fn lead(
    alloc: Global,
    reader: ExprParser,
    token: &Token,
    second: Second,
) -> Result<Option<ExprParser>, AllocError>
    ensures { IfOk result (λ led. (k : ℕ) (fs : List Open) (ts : List Term) →
        second_of ts ≡ second → Holds k reader fs (token.now ∷ ts) →
        Moves k led (advance xquery token.now second fs) ts) }
{
    let mut reader = reader;
    if reader.advance(alloc, token, second)? {
        Ok(Some(reader))
    } else {
        Ok(None)
    }
}

/// In the body of the query.
/// (XQuery 1.0, 3 and A.1)
#[tactic(auto, using(crate::proofs::QuerySteps::ExpressionLemmas::expressions))]
pub fn body_step(
    alloc: Global,
    reader: ExprParser,
    token: &Token,
    second: Second,
) -> Result<StepResult, AllocError>
    ensures { IfOk result (λ turn. (k : ℕ) (fs : List Open) (ts : List Term) →
        second_of ts ≡ second → Holds k reader fs (token.now ∷ ts) →
        Turned k turn (to_mode body (advance xquery token.now second fs)) ts) }
{
    match lead(alloc, reader, token, second)? {
        None => Ok(StepResult::Refused),
        Some(reader) => Ok(StepResult::Onto(ReaderState::Body(reader))),
    }
}

/// In the value of a variable, before a token of it.
/// (XQuery 1.0, 4.14)
#[tactic(auto, using(crate::proofs::QuerySteps::ExpressionLemmas::expressions))]
pub fn value_on(
    alloc: Global,
    variable: Typed,
    reader: ExprParser,
    token: &Token,
    second: Second,
) -> Result<StepResult, AllocError>
    ensures { IfOk result (λ turn. (k : ℕ) (fs : List Open) (ts : List Term) →
        second_of ts ≡ second → Holds k reader fs (token.now ∷ ts) →
        Turned k turn (to_mode (value variable) (advance xquery token.now second fs)) ts) }
{
    match lead(alloc, reader, token, second)? {
        None => Ok(StepResult::Refused),
        Some(reader) => Ok(StepResult::Onto(ReaderState::Value(variable, reader))),
    }
}

/// After the value of a variable.
/// (XQuery 1.0, 4.14)
#[tactic(auto, using(crate::proofs::QuerySteps::ExpressionLemmas::expressions))]
pub fn value_end(variable: Typed, reader: ExprParser) -> Result<StepResult, AllocError>
    ensures { IfOk result (λ turn. (k : ℕ) (fs : List Open) (ts : List Term) →
        Holds k reader fs (semicolon_key ∷ ts) →
        Turned k turn (to_end (option_map (λ w. Variable variable (Some w)) (finish fs))) ts) }
{
    match reader.finish()? {
        Reading::Nothing => Ok(StepResult::Refused),
        Reading::TooDeep => Ok(StepResult::Ends(None)),
        Reading::Value(raw) => Ok(StepResult::Ends(Some(Declared::Variable(variable, Some(raw))))),
    }
}

/// In the body of a function, before a token of it.
/// (XQuery 1.0, 4.15)
#[tactic(auto, using(crate::proofs::QuerySteps::ExpressionLemmas::expressions))]
pub fn inner_on(
    alloc: Global,
    signature: Signature,
    reader: ExprParser,
    token: &Token,
    second: Second,
) -> Result<StepResult, AllocError>
    ensures { IfOk result (λ turn. (k : ℕ) (fs : List Open) (ts : List Term) →
        second_of ts ≡ second → Holds k reader fs (token.now ∷ ts) →
        Turned k turn (to_mode (inner signature) (advance xquery token.now second fs)) ts) }
{
    match lead(alloc, reader, token, second)? {
        None => Ok(StepResult::Refused),
        Some(reader) => Ok(StepResult::Onto(ReaderState::Inner(signature, reader))),
    }
}

/// After the body of a function.
/// (XQuery 1.0, 4.15)
#[tactic(auto, using(crate::proofs::QuerySteps::ExpressionLemmas::expressions))]
pub fn inner_end(signature: Signature, reader: ExprParser) -> Result<StepResult, AllocError>
    ensures { IfOk result (λ turn. (k : ℕ) (fs : List Open) (ts : List Term) →
        Holds k reader fs (brace_key ∷ ts) →
        Turned k turn (to_closed (option_map (function_of signature) (finish fs))) ts) }
{
    match reader.finish()? {
        Reading::Nothing => Ok(StepResult::Refused),
        Reading::TooDeep => Ok(StepResult::Onto(ReaderState::Closed(None))),
        Reading::Value(raw) => {
            let Signature { name, params, kind } = signature;
            let declared = Declared::Function(name, params, kind, raw);
            Ok(StepResult::Onto(ReaderState::Closed(Some(declared))))
        }
    }
}
