// The front of a declaration or of the body, and what comes before the expression of a
// declaration.
ghost use Rattle.std.specs.Prelude.{◌≡◌, ◌∷◌, [], ℕ, List, None, IfOk};
ghost use Rattle.expr_keys.specs.declared.tokens.Token.{Token as Term};
ghost use Rattle.expr_terms.specs.Choices.{second_of};
ghost use Rattle.query_grammar.specs.Words.{opening_of};
ghost use Rattle.query_grammar.specs.Machine.{front, step, held_step, head_step, to_end, to_value};
ghost use Rattle.query_grammar.specs.Machine.{to_inner, whole_of, value_start, inner_start};
ghost use Rattle.query_grammar.specs.Machine.{held, ended};
ghost use Rattle.expr_reader.specs.Answers.{within};
ghost use Rattle.query_reader.specs.QuerySteps.Stands.{Turned};

use crate::query_heads::{inner_start, is_head, may_open, opening_of, value_start, whole_of};
use crate::query_steps::expressions::{body_step, lead};
use crate::query_steps::stages::{ReaderState, StepResult};
use expr_reader::{ExprParser, Reading};
use expr_terms::{Key, Language, Second, Token, fits_key};
use query_grammar::Opening;
use std::alloc::{AllocError, Global};

/// At the front.
/// (XQuery 1.0, 4 and A.1)
#[tactic(auto, using(crate::proofs::QuerySteps::FrontLemmas::fronts))]
pub fn front_step(
    alloc: Global,
    limit: u16,
    token: Token,
    second: Second,
) -> Result<StepResult, AllocError>
    ensures { IfOk result (λ turn. (ts : List Term) → second_of ts ≡ second →
        Turned limit turn (step front token second) ts) }
{
    if may_open(&token) {
        return Ok(StepResult::Onto(ReaderState::Held(token, second)));
    }
    let reader = ExprParser::whole(alloc, Language::Xquery, limit)?;
    body_step(alloc, reader, &token, second)
}

/// Both tokens into the body.
#[tactic(auto, using(crate::proofs::QuerySteps::FrontLemmas::fronts))]
fn both_steps(
    alloc: Global,
    limit: u16,
    first: &Token,
    behind: Second,
    token: &Token,
    second: Second,
) -> Result<StepResult, AllocError>
    ensures { IfOk result (λ turn. (ts : List Term) → behind ≡ second_of (token.now ∷ ts) →
        second_of ts ≡ second →
        Turned limit turn (held_step first.now behind token.now second None) ts) }
{
    let reader = ExprParser::whole(alloc, Language::Xquery, limit)?;
    match lead(alloc, reader, first, behind)? {
        None => Ok(StepResult::Refused),
        Some(reader) => body_step(alloc, reader, token, second),
    }
}

/// After a word that may open a declaration.
/// (XQuery 1.0, 4 and A.1)
#[tactic(auto, using(crate::proofs::QuerySteps::FrontLemmas::fronts))]
pub fn held_step(
    alloc: Global,
    limit: u16,
    first: &Token,
    behind: Second,
    token: &Token,
    second: Second,
) -> Result<StepResult, AllocError>
    ensures { IfOk result (λ turn. (ts : List Term) → behind ≡ second_of (token.now ∷ ts) →
        second_of ts ≡ second →
        Turned limit turn
        (held_step first.now behind token.now second (opening_of first.now token.now)) ts) }
{
    match opening_of(first, token) {
        None => both_steps(alloc, limit, first, behind, token, second),
        Some(opening) => Ok(StepResult::Onto(ReaderState::Head(opening, Vec::new(alloc)))),
    }
}

/// The body that the one token is, where the query ends after it.
/// (XQuery 1.0, 3 and A.1)
#[tactic(auto, using(crate::proofs::QuerySteps::FrontLemmas::fronts))]
pub fn held_end(
    alloc: Global,
    limit: u16,
    first: &Token,
    behind: Second,
) -> Result<Reading, AllocError>
    ensures { IfOk result (λ reading. behind ≡ second_of [] →
        reading ≡ within limit (ended (held first.now behind))) }
{
    let reader = ExprParser::whole(alloc, Language::Xquery, limit)?;
    match lead(alloc, reader, first, behind)? {
        None => Ok(Reading::Nothing),
        Some(reader) => reader.finish(),
    }
}

/// After a declaration without an expression.
#[tactic(auto, using(crate::proofs::QuerySteps::FrontLemmas::fronts))]
fn whole_end(alloc: Global, opening: Opening, tokens: &[Token]) -> Result<StepResult, AllocError>
    ensures { IfOk result (λ turn. (k : ℕ) (ts : List Term) →
        Turned k turn (to_end (whole_of opening tokens.now)) ts) }
{
    match whole_of(alloc, opening, tokens)? {
        None => Ok(StepResult::Refused),
        Some(declared) => Ok(StepResult::Ends(Some(declared))),
    }
}

/// Before the value of a variable.
#[tactic(auto, using(crate::proofs::QuerySteps::FrontLemmas::fronts))]
fn value_front(
    alloc: Global,
    limit: u16,
    opening: Opening,
    tokens: &[Token],
) -> Result<StepResult, AllocError>
    ensures { IfOk result (λ turn. (ts : List Term) →
        Turned limit turn (to_value (value_start opening tokens.now)) ts) }
{
    match value_start(alloc, opening, tokens)? {
        None => Ok(StepResult::Refused),
        Some(variable) => {
            let reader = ExprParser::single(alloc, Language::Xquery, limit)?;
            Ok(StepResult::Onto(ReaderState::Value(variable, reader)))
        }
    }
}

/// Before the body of a function.
#[tactic(auto, using(crate::proofs::QuerySteps::FrontLemmas::fronts))]
fn inner_front(
    alloc: Global,
    limit: u16,
    opening: Opening,
    tokens: &[Token],
) -> Result<StepResult, AllocError>
    ensures { IfOk result (λ turn. (ts : List Term) →
        Turned limit turn (to_inner (inner_start opening tokens.now)) ts) }
{
    match inner_start(alloc, opening, tokens)? {
        None => Ok(StepResult::Refused),
        Some(signature) => {
            let reader = ExprParser::whole(alloc, Language::Xquery, limit)?;
            Ok(StepResult::Onto(ReaderState::Inner(signature, reader)))
        }
    }
}

/// After the two words of a declaration and these tokens.
/// (XQuery 1.0, 4.1 to 4.16)
#[tactic(auto, using(crate::proofs::QuerySteps::FrontLemmas::fronts))]
pub fn head_step(
    alloc: Global,
    limit: u16,
    opening: Opening,
    tokens: Vec<Token>,
    token: Token,
) -> Result<StepResult, AllocError>
    ensures { IfOk result (λ turn. (ts : List Term) →
        Turned limit turn (head_step opening tokens.items token) ts) }
{
    let mut tokens = tokens;
    if is_head(&token) {
        tokens.push(token)?;
        Ok(StepResult::Onto(ReaderState::Head(opening, tokens)))
    } else if fits_key(Key::Semicolon, &token) {
        whole_end(alloc, opening, tokens.as_slice())
    } else if fits_key(Key::Assign, &token) {
        value_front(alloc, limit, opening, tokens.as_slice())
    } else if fits_key(Key::OpenBrace, &token) {
        inner_front(alloc, limit, opening, tokens.as_slice())
    } else {
        Ok(StepResult::Refused)
    }
}
