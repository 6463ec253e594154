// The text of tokens.
ghost use Rattle.std.specs.Prelude.{◌≡◌, ◌++◌, IfOk, OnOk, length};
ghost use Rattle.query_pages.specs.TokenTexts.Spellings.{token_text};
ghost use Rattle.query_pages.specs.TokenTexts.Texts.{text_of, behind_token};
ghost use Rattle.query_pages.specs.Gaps.{gap_text};
ghost use Rattle.query_pages.specs.Laid.{gap_at, laid, IsTextOf};
ghost use Rattle.query_pages.specs.Nexts.{next_text, next_open};
ghost use Rattle.query_pages.specs.Placed.{tokens_of};

use crate::changes::{piece_change, token_change};
use crate::gaps::{Gap, push_gap};
use crate::placed::Placed;
use crate::stacks::Stack;
use crate::token_writer::{push_piece, push_token};
use expr_terms::Token;
use std::alloc::{AllocError, Global};
use xt_names::{Text, TextBuilder};

/// The gap at the place; a space where there is none.
#[tactic(auto, using(crate::proofs::Layouts::gaps))]
fn gap_of(gaps: &[Gap], place: usize) -> Gap
    ensures { gap_text result ≡ gap_at gaps.now place }
{
    if place < gaps.len() {
        gaps[place]
    } else {
        Gap::Space
    }
}

/// Writes the first token.
fn push_first(
    alloc: Global,
    out: &mut TextBuilder,
    stack: &mut Stack,
    token: &Token,
) -> Result<(), AllocError>
    ensures text { OnOk result (out.new ≡ out.old ++ token_text token.now) }
    ensures open { OnOk result (stack.new ≡ behind_token stack.old token.now) }
{
    push_token(alloc, out, token)?;
    stack.change(token_change(token))?;
    Ok(())
}

/// Writes a token with what comes before it, or a piece.
fn push_next(
    alloc: Global,
    out: &mut TextBuilder,
    stack: &mut Stack,
    gap: Gap,
    token: &Token,
) -> Result<(), AllocError>
    ensures text { OnOk result (out.new ≡ out.old
        ++ next_text stack.old (gap_text gap) token.now) }
    ensures open { OnOk result (stack.new ≡ next_open stack.old token.now) }
{
    if stack.in_expression() {
        push_gap(out, gap)?;
        push_token(alloc, out, token)?;
        stack.change(token_change(token))?;
        Ok(())
    } else {
        push_piece(out, stack.innermost(), token)?;
        stack.change(piece_change(token))?;
        Ok(())
    }
}

/// The text of the tokens with these gaps before them.
fn laid_text(alloc: Global, items: &[Placed], gaps: &[Gap]) -> Result<Text, AllocError>
    ensures { IfOk result (λ text. text
        ≡ text_of (laid (length items.now) gaps.now) (tokens_of items.now)) }
{
    let mut out = TextBuilder::new(alloc);
    if items.is_empty() {
        return out.finish();
    }
    let mut stack = Stack::new(alloc);
    let mut i = items.len() - 1;
    push_first(alloc, &mut out, &mut stack, &items[i].token)?;
    while i > 0 {
        i -= 1;
        let gap = gap_of(gaps, items.len() - 1 - i);
        push_next(alloc, &mut out, &mut stack, gap, &items[i].token)?;
    }
    out.finish()
}

/// The text of the tokens, with these gaps before them.
pub(crate) fn written(alloc: Global, items: &[Placed], gaps: &[Gap]) -> Result<Text, AllocError>
    ensures { IfOk result (λ text. IsTextOf (tokens_of items.now) text) }
{
    let text = laid_text(alloc, items, gaps)?;
    Ok(text)
}
