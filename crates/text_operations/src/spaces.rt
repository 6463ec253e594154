// White space normalized.
ghost use Rattle.std.specs.Prelude.{◌≡◌, ◌++◌, OnOk, IfOk};
ghost use Rattle.xt_names.specs.Marks.{is_white};
ghost use Rattle.text_operations.specs.Spaces.{normalized, spaced};

use std::alloc::{AllocError, Global};
use xt_atoms::trimmed;
use xt_names::{Text, TextBuilder};

/// The text without white space at its ends and with each run of white space as one space (Functions and Operators, 7.4.5).
#[tactic(auto, unfolding(crate::specs::Spaces::normalized))]
pub fn normalized(alloc: Global, text: &Text) -> Result<Text, AllocError>
    ensures { IfOk result (λ made. made ≡ normalized text.now) }
{
    let mut made = TextBuilder::new(alloc);
    let mut after_white = false;
    for c in trimmed(text.as_str()).chars() {
        push_spaced(&mut made, after_white, c)?;
        after_white = is_white(c);
    }
    made.finish()
}

fn push_spaced(made: &mut TextBuilder, after_white: bool, c: char) -> Result<(), AllocError>
    ensures { OnOk result (made.new ≡ made.old ++ spaced after_white c) }
{
    if !is_white(c) {
        return made.push(c);
    }
    if after_white {
        return Ok(());
    }
    made.push(' ')
}

fn is_white(c: char) -> bool
    ensures { result ≡ is_white c }
{
    c == ' ' || c == '\t' || c == '\n' || c == '\r'
}
