// The parts of attribute value templates.
ghost use Rattle.std.specs.Prelude.{◌≡◌, ◌++◌, ◌∷◌, ◌≤◌, ◌<◌, ◌+◌, [], IfOk, List as Items, ℕ};
ghost use Rattle.std.specs.Str.{chars};
ghost use Rattle.sheet_values.specs.declared.templates.Piece.TheVariants.{Code};
ghost use Rattle.sheet_values.specs.declared.templates.BraceState.TheVariants.{Fixed};
ghost use Rattle.sheet_values.specs.Templates.{Turn, fixed_part, fixed_turn, code_turn, open_turn};
ghost use Rattle.sheet_values.specs.Templates.{close_turn, turn, last_pieces, place_depth};
ghost use Rattle.sheet_values.specs.Templates.{pieces_from, pieces_of, Turned};
ghost use Rattle.sheet_values.specs.Within.{depth};

use crate::characters::chars_of;
use crate::within::{Within, is_outside, next_within};
use std::alloc::{AllocError, Global};
use xt_names::{List, Text, TextBuilder};

/// A part of an attribute value template (XSLT 2.0, 5.6).
#[derive(Drop)]
pub enum Piece {
    /// Characters, in which each doubled brace is single.
    Chars(Text),
    /// The text of an expression, without its braces.
    Code(Text),
    /// A `{` without its `}`.
    LoneOpen,
    /// A `}` without its `{`.
    LoneClose,
}

/// Where a character of a template stands.
#[derive(Clone, Copy)]
pub enum BraceState {
    /// In a fixed part.
    Fixed,
    /// Directly after a `{` of a fixed part.
    Open,
    /// Directly after a `}` of a fixed part.
    Close,
    /// In an expression.
    Expression(Within),
}

/// The parts so far, where the next character stands, and the characters of its part.
#[derive(Drop)]
struct Reading {
    made: List<Piece>,
    place: BraceState,
    run: TextBuilder,
}

fn with_chars(made: List<Piece>, run: TextBuilder) -> Result<List<Piece>, AllocError>
    ensures { IfOk result (λ more. more ≡ made ++ fixed_part run) }
{
    let text = run.finish()?;
    if text.is_empty() {
        return Ok(made);
    }
    let mut more = made;
    more.push(Piece::Chars(text))?;
    Ok(more)
}

fn with_lone(made: List<Piece>, run: TextBuilder, lone: Piece) -> Result<List<Piece>, AllocError>
    ensures { IfOk result (λ more. more ≡ made ++ (fixed_part run ++ lone ∷ [])) }
{
    let mut more = with_chars(made, run)?;
    more.push(lone)?;
    Ok(more)
}

fn pushed(
    made: List<Piece>,
    run: TextBuilder,
    place: BraceState,
    c: char,
) -> Result<Reading, AllocError>
    ensures { IfOk result (λ more. (more.made ≡ made) × (more.place ≡ place)
        × (more.run ≡ run ++ c ∷ [])) }
{
    let mut run = run;
    run.push(c)?;
    Ok(Reading { made, place, run })
}

fn in_fixed(made: List<Piece>, run: TextBuilder, c: char) -> Result<Reading, AllocError>
    ensures turned { IfOk result (λ more.
        Turned made (fixed_turn run c) more.made more.place more.run) }
    ensures small { IfOk result (λ more. place_depth more.place ≤ 0) }
{
    if c == '{' {
        return Ok(Reading {
            made,
            place: BraceState::Open,
            run,
        });
    }
    if c == '}' {
        return Ok(Reading {
            made,
            place: BraceState::Close,
            run,
        });
    }
    pushed(made, run, BraceState::Fixed, c)
}

fn with_code(alloc: Global, made: List<Piece>, run: TextBuilder) -> Result<Reading, AllocError>
    ensures { IfOk result (λ more. (more.made ≡ made ++ Code run ∷ []) × (more.place ≡ Fixed)
        × (more.run ≡ [])) }
{
    let text = run.finish()?;
    let mut more = made;
    more.push(Piece::Code(text))?;
    Ok(Reading {
        made: more,
        place: BraceState::Fixed,
        run: TextBuilder::new(alloc),
    })
}

fn in_code(
    alloc: Global,
    made: List<Piece>,
    run: TextBuilder,
    within: Within,
    c: char,
) -> Result<Reading, AllocError>
    requires { depth within < 18446744073709551615 }
    ensures turned { IfOk result (λ more.
        Turned made (code_turn within run c) more.made more.place more.run) }
    ensures small { IfOk result (λ more. place_depth more.place ≤ depth within + 1) }
{
    if c == '}' && is_outside(within) {
        return with_code(alloc, made, run);
    }
    pushed(made, run, BraceState::Expression(next_within(within, c)), c)
}

fn behind_open(
    alloc: Global,
    made: List<Piece>,
    run: TextBuilder,
    c: char,
) -> Result<Reading, AllocError>
    ensures turned { IfOk result (λ more.
        Turned made (open_turn run c) more.made more.place more.run) }
    ensures small { IfOk result (λ more. place_depth more.place ≤ 1) }
{
    if c == '{' {
        return pushed(made, run, BraceState::Fixed, c);
    }
    let made = with_chars(made, run)?;
    in_code(alloc, made, TextBuilder::new(alloc), Within::Outside, c)
}

fn behind_close(
    alloc: Global,
    made: List<Piece>,
    run: TextBuilder,
    c: char,
) -> Result<Reading, AllocError>
    ensures turned { IfOk result (λ more.
        Turned made (close_turn run c) more.made more.place more.run) }
    ensures small { IfOk result (λ more. place_depth more.place ≤ 0) }
{
    if c == '}' {
        return pushed(made, run, BraceState::Fixed, c);
    }
    let made = with_lone(made, run, Piece::LoneClose)?;
    in_fixed(made, TextBuilder::new(alloc), c)
}

#[tactic(auto, unfolding(crate::specs::Templates::turn))]
fn with_char(alloc: Global, reading: Reading, c: char) -> Result<Reading, AllocError>
    requires { place_depth reading.place < 18446744073709551615 }
    ensures turned { IfOk result (λ more. Turned reading.made
        (turn reading.place reading.run c) more.made more.place more.run) }
    ensures small { IfOk result (λ more.
        place_depth more.place ≤ place_depth reading.place + 1) }
{
    match reading.place {
        BraceState::Fixed => in_fixed(reading.made, reading.run, c),
        BraceState::Open => behind_open(alloc, reading.made, reading.run, c),
        BraceState::Close => behind_close(alloc, reading.made, reading.run, c),
        BraceState::Expression(within) => in_code(alloc, reading.made, reading.run, within, c),
    }
}

#[tactic(auto, unfolding(crate::specs::Templates::last_pieces))]
fn finished(reading: Reading) -> Result<List<Piece>, AllocError>
    ensures { IfOk result (λ all. all
        ≡ reading.made ++ last_pieces reading.place reading.run) }
{
    match reading.place {
        BraceState::Fixed => with_chars(reading.made, reading.run),
        BraceState::Open => with_lone(reading.made, reading.run, Piece::LoneOpen),
        BraceState::Close => with_lone(reading.made, reading.run, Piece::LoneClose),
        BraceState::Expression(_) => {
            let mut made = reading.made;
            made.push(Piece::LoneOpen)?;
            Ok(made)
        }
    }
}

#[tactic(auto, using(crate::proofs::TemplateLemmas::turned_goes_on))]
fn pieces_of(alloc: Global, text: &[char]) -> Result<List<Piece>, AllocError>
    ensures { IfOk result (λ pieces. pieces ≡ pieces_of text.now) }
{
    let mut reading = Reading {
        made: List::new(alloc),
        place: BraceState::Fixed,
        run: TextBuilder::new(alloc),
    };
    for c in text {
        reading = with_char(alloc, reading, *c)?;
    }
    finished(reading)
}

/// The parts of the text of an attribute value template (XSLT 2.0, 5.6): characters, in which a
/// doubled brace is single, and expressions, each up to the first `}` outside of its literals and
/// comments. A brace that has no partner is a part of its own; after a `{` that has none nothing
/// follows.
pub fn template_pieces(alloc: Global, text: &str) -> Result<List<Piece>, AllocError>
    ensures { IfOk result (λ pieces. pieces ≡ pieces_of (chars text.now)) }
{
    let all = chars_of(alloc, text)?;
    pieces_of(alloc, all.as_slice())
}
