// An expression read token by token, for those who do not have all of its tokens yet.
ghost use Rattle.std.specs.Prelude.{◌≡◌, [], ◌∷◌, List, IfOk};
ghost use Rattle.expr_terms.specs.Choices.{second_of};
ghost use Rattle.expr_keys.specs.declared.tokens.Token.{Token as Term};
ghost use Rattle.expr_keys.specs.declared.productions.Production.TheVariants.{WholeExpr as whole_expr};
ghost use Rattle.expr_keys.specs.declared.productions.Production.TheVariants.{NextExprSingle};
ghost use Rattle.expr_keys.specs.declared.productions.Nonterminal.TheVariants.{ExprSingle};
ghost use Rattle.expr_keys.specs.declared.productions.Symbol.TheVariants.{One};
ghost use Rattle.expr_grammar.specs.Machine.{Frame as Open, doing, start, advance, finish};
ghost use Rattle.expr_reader.specs.Answers.{within};
ghost use Rattle.expr_reader.specs.Tracks.{Tracks, Led};

use crate::frames::Frame;
use crate::readings::Reading;
use crate::{parts, steps};
use expr_grammar::expr_nest::Measure;
use expr_terms::{Language, Production, Second, Token};
use std::alloc::{AllocError, Global};

/// The reading of an expression, as far as it has come.
#[derive(Drop)]
pub struct ExprParser {
    frames: Vec<Frame>,
    is_deep: bool,
    language: Language,
    limit: u16,
}

impl ExprParser {
    /// Before the first token of an expression.
    #[tactic(auto, using(crate::proofs::TrackLemmas::tracking))]
    pub fn whole(alloc: Global, language: Language, limit: u16) -> Result<ExprParser, AllocError>
        ensures tracks { IfOk result (λ reader. (ts : List Term) → Tracks reader (start whole_expr) ts) }
        ensures language { IfOk result (λ reader. reader.language ≡ language) }
        ensures limit { IfOk result (λ reader. reader.limit ≡ limit) }
    {
        let frames = parts::start(alloc, Production::WholeExpr)?;
        Ok(ExprParser {
            frames,
            is_deep: false,
            language,
            limit,
        })
    }

    /// Before the first token of a single expression, one without commas outside of brackets.
    #[tactic(auto, using(crate::proofs::TrackLemmas::tracking))]
    pub fn single(alloc: Global, language: Language, limit: u16) -> Result<ExprParser, AllocError>
        ensures tracks { IfOk result (λ reader. (ts : List Term) →
            Tracks reader (doing NextExprSingle [] (One ExprSingle ∷ []) ∷ []) ts) }
        ensures language { IfOk result (λ reader. reader.language ≡ language) }
        ensures limit { IfOk result (λ reader. reader.limit ≡ limit) }
    {
        let frames = parts::start_behind(alloc, Production::NextExprSingle)?;
        Ok(ExprParser {
            frames,
            is_deep: false,
            language,
            limit,
        })
    }

    /// Takes the next token, with what the tokens after it tell; false where it cannot go on so,
    /// and then nothing is to be read from here on.
    #[tactic(auto, using(crate::proofs::TrackLemmas::tracking))]
    pub fn advance(
        &mut self,
        alloc: Global,
        token: &Token,
        second: Second,
    ) -> Result<bool, AllocError>
        ensures led { IfOk result (λ went. (fs : List Open) (ts : List Term) →
            second_of ts ≡ second → Tracks self.old fs (token.now ∷ ts) →
            Led went (advance self.old.language token.now second fs) self.new ts) }
        ensures language { IfOk result (λ went. self.new.language ≡ self.old.language) }
        ensures limit { IfOk result (λ went. self.new.limit ≡ self.old.limit) }
    {
        steps::advance(
            alloc,
            &mut self.frames,
            &mut self.is_deep,
            Measure::Whole,
            self.limit,
            self.language,
            token,
            second,
        )
    }

    /// What has been read, where the expression ends here.
    #[tactic(auto, using(crate::proofs::TrackLemmas::tracking))]
    pub fn finish(self) -> Result<Reading, AllocError>
        ensures { IfOk result (λ reading. (fs : List Open) → Tracks self fs [] →
            reading ≡ within self.limit (finish fs)) }
    {
        let ExprParser {
            frames,
            is_deep,
            language: _,
            limit,
        } = self;
        steps::finish(frames, Measure::Whole, limit, is_deep)
    }

    /// The productions that are open, the topmost last.
    pub fn open(&self) -> &[Frame]
        ensures { result.now ≡ self.now.frames.items }
    {
        self.frames.as_slice()
    }
}
