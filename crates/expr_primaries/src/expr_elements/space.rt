// Boundary white space.
ghost use Rattle.std.specs.Prelude.{◌≡◌, ◌++◌, ◌∷◌, [], true, List as Items, OnOk, IfOk};
ghost use Rattle.std.specs.Str.{chars};
ghost use Rattle.xt_names.specs.Marks.{is_white};
ghost use Rattle.expr_primaries.specs.declared.expr_elements.space.Piece.{Piece};
ghost use Rattle.expr_primaries.specs.ExprElements.Space.{is_white_text, run_part, with_pieces, piece_in, piece_of, parts_of};

use expr_rules::expr_meant::Meant;
use expr_rules::expr_names::no_text;
use expr_terms::Token;
use std::alloc::{AllocError, Global};
use xt_names::{List, Shared, Text, TextBuilder};
use xt_syntax::Part;

/// Characters and whether they are literal, or a part that ends a run of them.
#[derive(Drop)]
pub enum Piece {
    Run(Text, bool),
    Whole(Part),
}

/// The content so far.
#[derive(Drop)]
pub struct Joined {
    pub parts: List<Part>,
    /// The characters after the last part.
    pub run: TextBuilder,
    /// Whether all of them are literal white space.
    pub blank: bool,
}

fn is_white(c: char) -> bool
    ensures { result ≡ is_white c }
{
    c == ' ' || c == '\t' || c == '\n' || c == '\r'
}

fn is_white_text(s: &str) -> bool
    ensures { result ≡ is_white_text (chars s.now) }
{
    s.chars().all(|c| is_white(c))
}

/// Puts a run at the end, unless it is empty or goes.
#[tactic(auto, unfolding(crate::specs::ExprElements::Space::run_part))]
fn push_run(parts: &mut List<Part>, run: Text, goes: bool, blank: bool) -> Result<(), AllocError>
    ensures { OnOk result (parts.new ≡ parts.old ++ run_part goes run blank) }
{
    if run.is_empty() || (goes && blank) {
        return Ok(());
    }
    parts.push(Part::Chars(run))
}

impl Joined {
    fn new(alloc: Global) -> Joined
        ensures { result ≡ record { parts = []; run = []; blank = true } }
    {
        Joined {
            parts: List::new(alloc),
            run: TextBuilder::new(alloc),
            blank: true,
        }
    }

    /// Puts a piece at the end.
    #[tactic(auto, unfolding(crate::specs::ExprElements::Space::with_pieces))]
    fn add(self, alloc: Global, strip: bool, piece: Piece) -> Result<Joined, AllocError>
        ensures { IfOk result (λ c. (ps : Items Piece) → with_pieces strip c ps ≡ with_pieces strip self (piece ∷ ps)) }
    {
        let Joined {
            mut parts,
            mut run,
            blank,
        } = self;
        match piece {
            Piece::Run(text, literal) => {
                run.push_text(&text)?;
                let blank = blank && (literal && is_white_text(text.as_str()));
                Ok(Joined { parts, run, blank })
            }
            Piece::Whole(part) => {
                let text = run.finish()?;
                push_run(&mut parts, text, strip, blank)?;
                parts.push(part)?;
                Ok(Joined {
                    parts,
                    run: TextBuilder::new(alloc),
                    blank: true,
                })
            }
        }
    }

    /// All parts.
    #[tactic(auto, unfolding(crate::specs::ExprElements::Space::with_pieces))]
    fn finish(self, strip: bool) -> Result<List<Part>, AllocError>
        ensures { IfOk result (λ parts. parts ≡ with_pieces strip self []) }
    {
        let Joined {
            mut parts,
            run,
            blank,
        } = self;
        let text = run.finish()?;
        push_run(&mut parts, text, strip, blank)?;
        Ok(parts)
    }
}

#[tactic(auto, unfolding(crate::specs::ExprElements::Space::piece_in))]
fn piece_in(alloc: Global, token: &Token) -> Result<Piece, AllocError>
    ensures { IfOk result (λ piece. piece ≡ piece_in token.now) }
{
    match token {
        Token::Chars(text, literal) => Ok(Piece::Run(text.copy()?, *literal)),
        _ => Ok(Piece::Run(no_text(alloc)?, true)),
    }
}

#[tactic(auto, unfolding(crate::specs::ExprElements::Space::piece_of))]
fn piece_of(alloc: Global, part: &Meant) -> Result<Piece, AllocError>
    ensures { IfOk result (λ piece. piece ≡ piece_of part.now) }
{
    match part {
        Meant::Token(token) => piece_in(alloc, token),
        Meant::Part(whole) => Ok(Piece::Whole(whole.copy()?)),
        _ => Ok(Piece::Run(no_text(alloc)?, true)),
    }
}

fn join_all(alloc: Global, strip: bool, parts: &[Meant]) -> Result<List<Part>, AllocError>
    ensures { IfOk result (λ all. all ≡ parts_of strip parts.now) }
{
    let mut joined = Joined::new(alloc);
    for part in parts {
        joined = join_one(alloc, strip, joined, part)?;
    }
    joined.finish(strip)
}

fn join_one(alloc: Global, strip: bool, joined: Joined, part: &Meant) -> Result<Joined, AllocError>
    ensures { IfOk result (λ c. (ps : Items Piece) → with_pieces strip c ps ≡ with_pieces strip joined (piece_of part.now ∷ ps)) }
{
    match piece_of(alloc, part) {
        Err(e) => {
            drop(joined);
            Err(e)
        }
        Ok(piece) => joined.add(alloc, strip, piece),
    }
}

/// The parts of content: characters that stand beside each other are one, and where `strip` is set
/// those go that are literal white space alone.
pub(crate) fn parts_of(
    alloc: Global,
    strip: bool,
    parts: &[Meant],
) -> Result<Shared<List<Part>>, AllocError>
    ensures { IfOk result (λ all. all ≡ parts_of strip parts.now) }
{
    Shared::make(alloc, join_all(alloc, strip, parts)?)
}
