// Characters of direct elements on a draft.
ghost use Rattle.std.specs.Prelude.{◌≡◌, ◌∷◌, [], ◌++◌, ◌==◌, IfOk, OnOk};
ghost use Rattle.std.specs.List.{list_any};
ghost use Rattle.std.specs.Str.{chars};
ghost use Rattle.expr_raws.specs.ElementRaws.Runs.{is_markup, is_itself, is_doubled, run_token, run_tokens, run};
ghost use Rattle.expr_pages.specs.ElementDrafts.Runs.{flushed, turned, waiting};

use expr_drafts::Draft;
use expr_terms::Token;
use query_pages::Gap;
use std::alloc::{AllocError, Global};
use xt_names::{Text, TextBuilder, is_xml_char};

fn is_markup(value: bool, c: char) -> bool
    ensures { result ≡ is_markup value c }
{
    if value {
        matches!(c, '"' | '<' | '&' | '{' | '}' | '\t' | '\n' | '\r')
    } else {
        matches!(c, '<' | '&' | '{' | '}' | '\r')
    }
}

/// Whether the character stands for itself, in a value or in content.
#[tactic(auto, unfolding(xt_names::specs::Characters::is_char))]
fn is_itself(value: bool, c: char) -> bool
    ensures { result ≡ is_itself value c }
{
    is_xml_char(c) && !is_markup(value, c)
}

fn is_doubled(value: bool, c: char) -> bool
    ensures { result ≡ is_doubled value c }
{
    if value {
        matches!(c, '"' | '{' | '}')
    } else {
        matches!(c, '{' | '}')
    }
}

/// A character that does not stand for itself.
fn alone(alloc: Global, value: bool, c: char) -> Result<Token, AllocError>
    ensures { IfOk result (λ token. token ≡ run_token (run (c ∷ []) (is_doubled value c))) }
{
    let mut text = TextBuilder::new(alloc);
    text.push(c)?;
    Ok(Token::Chars(text.finish()?, is_doubled(value, c)))
}

/// The characters that wait as one token.
#[tactic(auto, using(crate::proofs::ElementDrafts::Parted::flushes))]
fn flush(tokens: &mut Vec<Token>, pending: TextBuilder) -> Result<(), AllocError>
    ensures { OnOk result (tokens.new.items ≡ tokens.old.items ++ flushed pending) }
{
    let text = pending.finish()?;
    if !text.is_empty() {
        tokens.push(Token::Chars(text, true))?;
    }
    Ok(())
}

/// One character more: the tokens, and the characters that wait.
fn turn(
    alloc: Global,
    value: bool,
    tokens: &mut Vec<Token>,
    pending: TextBuilder,
    c: char,
) -> Result<TextBuilder, AllocError>
    ensures tokens { IfOk result (λ left. tokens.new.items
        ≡ turned value tokens.old.items pending c) }
    ensures left { IfOk result (λ left. left ≡ waiting value pending c) }
{
    if is_itself(value, c) {
        let mut left = pending;
        left.push(c)?;
        return Ok(left);
    }
    flush(tokens, pending)?;
    tokens.push(alone(alloc, value, c)?)?;
    Ok(TextBuilder::new(alloc))
}

/// The tokens of the characters.
fn tokens_of(alloc: Global, value: bool, chars: &[char]) -> Result<Vec<Token>, AllocError>
    ensures { IfOk result (λ tokens. tokens.items ≡ run_tokens value chars.now) }
{
    let mut tokens = Vec::new(alloc);
    let mut pending = TextBuilder::new(alloc);
    for c in chars {
        pending = turn(alloc, value, &mut tokens, pending, *c)?;
    }
    flush(&mut tokens, pending)?;
    Ok(tokens)
}

fn push_tokens(draft: &mut Draft<'_>, tokens: Vec<Token>) -> Result<(), AllocError>
    ensures { OnOk result (draft.new ≡ tokens.items ++ draft.old) }
{
    let mut left = tokens;
    while let Some(token) = left.pop() {
        draft.push(Gap::Space, token)?;
    }
    Ok(())
}

fn chars_of(alloc: Global, text: &str) -> Result<Vec<char>, AllocError>
    ensures { IfOk result (λ v. v.items ≡ chars text.now) }
{
    text.chars().collect(alloc)
}

/// Characters of the value of an attribute, or of content, in runs.
pub(crate) fn push_run(
    alloc: Global,
    draft: &mut Draft<'_>,
    value: bool,
    text: &Text,
) -> Result<(), AllocError>
    ensures { OnOk result (draft.new ≡ run_tokens value text.now ++ draft.old) }
{
    let chars = chars_of(alloc, text.as_str())?;
    let tokens = tokens_of(alloc, value, chars.as_slice())?;
    push_tokens(draft, tokens)
}
