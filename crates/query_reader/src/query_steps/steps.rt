// One token of a query.
ghost use Rattle.std.specs.Prelude.{◌≡◌, ◌∷◌, [], ℕ, List, Option, IfOk};
ghost use Rattle.expr_keys.specs.declared.tokens.Token.{Token as Term};
ghost use Rattle.expr_terms.specs.Choices.{second_of};
ghost use Rattle.expr_grammar.specs.Machine.{Frame as Open};
ghost use Rattle.expr_reader.specs.Answers.{within};
ghost use Rattle.query_grammar.specs.Machine.{Mode, value, inner, closed, step, ended, wants};
ghost use Rattle.query_reader.specs.QuerySteps.Stands.{Holds, Behind, Stands, Turned};

use crate::query_steps::expressions::{body_step, inner_end, inner_on, value_end, value_on};
use crate::query_steps::fronts::{front_step, head_step, held_end, held_step};
use crate::query_steps::stages::{ReaderState, StepResult};
use crate::{may_end, wants_operand};
use expr_reader::{ExprParser, Reading};
use expr_terms::{Key, Second, Token, fits_key};
use query_grammar::{Declared, Signature, Typed};
use std::alloc::{AllocError, Global};

/// In the value of a variable.
#[tactic(auto, using(crate::proofs::QuerySteps::StepLemmas::steps))]
fn value_step(
    alloc: Global,
    variable: Typed,
    reader: ExprParser,
    token: &Token,
    second: Second,
) -> Result<StepResult, AllocError>
    ensures { IfOk result (λ turn. (k : ℕ) (fs : List Open) (ts : List Term) →
        second_of ts ≡ second → Holds k reader fs (token.now ∷ ts) →
        Turned k turn (step (value variable fs) token.now second) ts) }
{
    if fits_key(Key::Semicolon, token) {
        value_end(variable, reader)
    } else {
        value_on(alloc, variable, reader, token, second)
    }
}

/// In the body of a function.
#[tactic(auto, using(crate::proofs::QuerySteps::StepLemmas::steps))]
fn inner_step(
    alloc: Global,
    signature: Signature,
    reader: ExprParser,
    token: &Token,
    second: Second,
) -> Result<StepResult, AllocError>
    ensures { IfOk result (λ turn. (k : ℕ) (fs : List Open) (ts : List Term) →
        second_of ts ≡ second → Holds k reader fs (token.now ∷ ts) →
        Turned k turn (step (inner signature fs) token.now second) ts) }
{
    if !fits_key(Key::CloseBrace, token) {
        return inner_on(alloc, signature, reader, token, second);
    }
    if may_end(&reader) {
        inner_end(signature, reader)
    } else {
        inner_on(alloc, signature, reader, token, second)
    }
}

/// After the body of a function.
#[tactic(auto, using(crate::proofs::QuerySteps::StepLemmas::steps))]
fn closed_step(declared: Option<Declared>, token: &Token) -> StepResult
    ensures { (k : ℕ) (m : Mode) (s : Second) (ts : List Term) → Behind k declared m →
        Turned k result (step m token.now s) ts }
{
    if fits_key(Key::Semicolon, token) {
        StepResult::Ends(declared)
    } else {
        StepResult::Refused
    }
}

/// What the token leads to, where the tokens after it tell so much of it. A value that nests
/// deeper than the limit is dropped as soon as its expression ends.
/// (XQuery 1.0, 4 and A.1)
#[tactic(auto, using(crate::proofs::QuerySteps::StepLemmas::steps))]
pub fn step(
    alloc: Global,
    stage: ReaderState,
    limit: u16,
    token: Token,
    second: Second,
) -> Result<StepResult, AllocError>
    ensures { IfOk result (λ turn. (m : Mode) (ts : List Term) → second_of ts ≡ second →
        Stands limit stage m (token ∷ ts) → Turned limit turn (step m token second) ts) }
{
    match stage {
        ReaderState::Front => front_step(alloc, limit, token, second),
        ReaderState::Held(first, behind) => held_step(alloc, limit, &first, behind, &token, second),
        ReaderState::Head(opening, tokens) => head_step(alloc, limit, opening, tokens, token),
        ReaderState::Body(reader) => body_step(alloc, reader, &token, second),
        ReaderState::Value(variable, reader) => value_step(alloc, variable, reader, &token, second),
        ReaderState::Inner(signature, reader) => inner_step(
            alloc, signature, reader, &token, second,
        ),
        ReaderState::Closed(declared) => Ok(closed_step(declared, &token)),
    }
}

/// The value of the body, where the query ends here.
/// (XQuery 1.0, 2.1 and A.1)
#[tactic(auto, using(crate::proofs::QuerySteps::StepLemmas::steps))]
pub fn finish(alloc: Global, stage: ReaderState, limit: u16) -> Result<Reading, AllocError>
    ensures { IfOk result (λ reading. (m : Mode) → Stands limit stage m [] →
        reading ≡ within limit (ended m)) }
{
    match stage {
        ReaderState::Front => Ok(Reading::Nothing),
        ReaderState::Held(first, behind) => held_end(alloc, limit, &first, behind),
        ReaderState::Head(_opening, tokens) => {
            drop(tokens);
            Ok(Reading::Nothing)
        }
        ReaderState::Body(reader) => reader.finish(),
        ReaderState::Value(variable, reader) => {
            drop(variable);
            drop(reader);
            Ok(Reading::Nothing)
        }
        ReaderState::Inner(signature, reader) => {
            drop(signature);
            drop(reader);
            Ok(Reading::Nothing)
        }
        ReaderState::Closed(declared) => {
            drop(declared);
            Ok(Reading::Nothing)
        }
    }
}

/// Whether an operand may come next, so that `<` directly before a name begins a direct element
/// there (XQuery 1.0, 3.7.1).
#[tactic(auto, using(crate::proofs::QuerySteps::StepLemmas::steps))]
pub fn wants(stage: &ReaderState) -> bool
    ensures { (k : ℕ) (m : Mode) (ts : List Term) → Stands k stage.now m ts →
        result ≡ wants m }
{
    match stage {
        ReaderState::Front => true,
        ReaderState::Held(_, _) => false,
        ReaderState::Head(_, _) => false,
        ReaderState::Body(reader) => wants_operand(reader),
        ReaderState::Value(_, reader) => wants_operand(reader),
        ReaderState::Inner(_, reader) => wants_operand(reader),
        ReaderState::Closed(_) => false,
    }
}
