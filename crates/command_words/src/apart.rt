// The words after a command, told apart.
ghost use Rattle.std.specs.Prelude.{◌≡◌, ◌≤◌, ◌∷◌, map, length, None, false};
ghost use Rattle.std.specs.Prelude.{option_map, MatchOption, IfOk, OnOk, codes};
ghost use Rattle.std.specs.Str.{bytes_eq};
ghost use Rattle.std.specs.String.{string_bytes};
ghost use Rattle.command_words.specs.Apart.{told_apart, told_of, piece_of, with_piece};
ghost use Rattle.command_words.specs.Apart.{with_last, with_operands};

use crate::pieces::{Piece, parted_piece, whole_piece};
use std::alloc::{AllocError, Global};

/// The values of `--depth` and of `--doc`, and the operands, each in the order of the words.
#[derive(Drop)]
pub(crate) struct Told<'a> {
    pub depths: Vec<&'a str>,
    pub files: Vec<&'a str>,
    pub operands: Vec<&'a str>,
}

// The first piece of words of which this is the first and these are the rest, and the words after
// it.
fn next<'a>(word: &'a str, rest: &'a [String]) -> Option<(Piece<'a>, &'a [String])>
    requires { bytes_eq word.now (codes "--") ≡ false }
    ensures piece { MatchOption result
        (told_apart (word.now ∷ map string_bytes rest.now) ≡ None)
        (λ p. told_apart (word.now ∷ map string_bytes rest.now)
        ≡ option_map (with_piece (piece_of p.0)) (told_apart (map string_bytes p.1.now))) }
    ensures fewer { MatchOption result (None ≡ result) (λ p. length p.1.now ≤ length rest.now) }
{
    if let Some(piece) = whole_piece(word) {
        return Some((piece, rest));
    }
    let [value, more @ ..] = rest else {
        return None;
    };
    match parted_piece(word, value.as_str()) {
        Some(piece) => Some((piece, more)),
        None => None,
    }
}

fn push<'a>(told: &mut Told<'a>, piece: Piece<'a>) -> Result<(), AllocError>
    ensures { OnOk result (told_of told.new ≡ with_last (piece_of piece.entry) (told_of told.old)) }
{
    match piece {
        Piece::Depth(number) => told.depths.push(number)?,
        Piece::Doc(file) => told.files.push(file)?,
        Piece::Operand(word) => told.operands.push(word)?,
    }
    Ok(())
}

fn push_operands<'a>(told: &mut Told<'a>, words: &'a [String]) -> Result<(), AllocError>
    ensures { OnOk result (told_of told.new
        ≡ with_operands (map string_bytes words.now) (told_of told.old)) }
{
    for word in words {
        push(told, Piece::Operand(word.as_str()))?;
    }
    Ok(())
}

/// What the words after a command say, if anything.
pub(crate) fn tell_apart(alloc: Global, words: &[String]) -> Result<Option<Told<'_>>, AllocError>
    ensures { IfOk result
        (λ told. option_map told_of told ≡ told_apart (map string_bytes words.now)) }
{
    let mut told = Told {
        depths: Vec::new(alloc),
        files: Vec::new(alloc),
        operands: Vec::new(alloc),
    };
    let mut left = words;
    while let [word, rest @ ..] = left {
        if word.as_str() == "--" {
            push_operands(&mut told, rest)?;
            return Ok(Some(told));
        }
        let Some((piece, more)) = next(word.as_str(), rest) else {
            return Ok(None);
        };
        push(&mut told, piece)?;
        left = more;
    }
    Ok(Some(told))
}
