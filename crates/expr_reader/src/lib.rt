//! The reader of expressions and of sequence types over tokens.
//!
//! A value is given exactly where the tokens spell it within the limit of nesting, none exactly where
//! they spell nothing, and `TooDeep` exactly where they spell what nests deeper. The open productions
//! stand on a stack of frames, so no depth of nesting takes stack of the machine; a value is dropped as
//! soon as it nests too deep, so none is ever deeper than the limit. Of a pattern the levels within
//! predicates alone count; what stands outside of them nests a few levels deep in any case.
//!
//! Example: the tokens `1`, `-`, `2`, `-`, `3` are read as the one level of `-` with its three
//! operands; `1`, `=`, `2`, `=`, `3` spell nothing.
#![tactic(auto)]

ghost use Rattle.std.specs.Prelude.{◌≡◌, IfOk};
ghost use Rattle.expr_grammar.specs.Machine.{run, start, read_whole, read_type};
ghost use Rattle.expr_grammar.specs.declared.expr_nest.measures.Measure.TheVariants.{Predicates};
ghost use Rattle.expr_reader.specs.Answers.{within, within_by, Parsed, ParsedAsPattern, ParsedType};

mod counts;
mod frames;
mod fronts;
mod parts;
mod passing;
mod readings;
mod running;
mod steps;

use expr_grammar::expr_nest::Measure;
use expr_terms::{Language, Production, Token, second_of};
pub use frames::Frame;
pub use readings::Reading;
pub use running::ExprParser;
use std::alloc::{AllocError, Global};

/// What the tokens lead to from the production alone.
#[tactic(auto, using(crate::proofs::ClimbLemmas::running))]
fn read(
    alloc: Global,
    language: Language,
    production: Production,
    tokens: &[Token],
    measure: Measure,
    limit: u16,
) -> Result<Reading, AllocError>
    ensures { IfOk result (λ reading. reading ≡ within_by measure limit (run language tokens.now (start production))) }
{
    let mut frames = parts::start(alloc, production)?;
    let mut is_deep = false;
    for i in 0..tokens.len() {
        let second = second_of(&tokens[i + 1..]);
        let token = &tokens[i];
        if !steps::advance(
            alloc,
            &mut frames,
            &mut is_deep,
            measure,
            limit,
            language,
            token,
            second,
        )? {
            return Ok(Reading::Nothing);
        }
    }
    steps::finish(frames, measure, limit, is_deep)
}

/// The expression that the tokens spell, where it nests no deeper than the limit.
#[tactic(auto, using(crate::proofs::ClimbLemmas::answers))]
pub fn parse(
    alloc: Global,
    language: Language,
    tokens: &[Token],
    limit: u16,
) -> Result<Reading, AllocError>
    ensures spelled { IfOk result (λ reading. Parsed language tokens.now limit reading) }
    ensures value { IfOk result (λ reading. reading ≡ within limit (read_whole language tokens.now)) }
{
    read(
        alloc,
        language,
        Production::WholeExpr,
        tokens,
        Measure::Whole,
        limit,
    )
}

/// The expression that the tokens spell, where no predicate of a step outside of other forms nests
/// deeper than the limit: a pattern nests as deep as the deepest of its predicates (XSLT 2.0,
/// 5.5.2). What is no pattern counts as a whole, but for its outermost alternatives and paths.
#[tactic(auto, using(crate::proofs::ClimbLemmas::answers))]
pub fn parse_as_pattern(
    alloc: Global,
    language: Language,
    tokens: &[Token],
    limit: u16,
) -> Result<Reading, AllocError>
    ensures spelled { IfOk result (λ reading. ParsedAsPattern language tokens.now limit reading) }
    ensures value { IfOk result (λ reading. reading
        ≡ within_by Predicates limit (read_whole language tokens.now)) }
{
    read(
        alloc,
        language,
        Production::WholeExpr,
        tokens,
        Measure::Predicates,
        limit,
    )
}

/// The sequence type that the tokens spell. No limit of nesting comes near it.
#[tactic(auto, using(crate::proofs::ClimbLemmas::answers))]
pub fn parse_type(
    alloc: Global,
    language: Language,
    tokens: &[Token],
    limit: u16,
) -> Result<Reading, AllocError>
    ensures spelled { IfOk result (λ reading. ParsedType language tokens.now limit reading) }
    ensures value { IfOk result (λ reading. reading ≡ within limit (read_type language tokens.now)) }
{
    read(
        alloc,
        language,
        Production::WholeSequenceType,
        tokens,
        Measure::Whole,
        limit,
    )
}
