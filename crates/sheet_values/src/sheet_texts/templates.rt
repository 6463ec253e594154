// Attribute value templates.
ghost use Rattle.std.specs.Prelude.{map};
ghost use Rattle.expr_names.specs.Answers.{Answers};
ghost use Rattle.sheet_values.specs.Rules.{each};
ghost use Rattle.sheet_values.specs.SheetTexts.Templates.{piece_faults, piece_value};
ghost use Rattle.sheet_values.specs.SheetTexts.Templates.{template_faults, template_value};

use crate::sheet_texts::places::StaticContext;
use crate::sheet_texts::readers::Reader;
use crate::{Piece, sheet_fault, template_pieces};
use expr_names::ResolveFault;
use std::alloc::Global;
use xt_names::{List, SheetStaticCode, Text};
use xt_sheets::values::{Avt, AvtPart};

fn part<R: Reader>(
    alloc: Global,
    reader: &R,
    place: &StaticContext,
    piece: &Piece,
) -> Result<AvtPart<R::Expr>, ResolveFault>
    ensures { Answers result (piece_faults (R.reads reader.now) place.now piece.now)
        (piece_value (R.reads reader.now) place.now piece.now) }
{
    match piece {
        Piece::Chars(text) => Ok(AvtPart::Chars(text.copy()?)),
        Piece::Code(text) => Ok(AvtPart::Code(reader.expr(alloc, place, text)?)),
        Piece::LoneOpen => Err(sheet_fault(SheetStaticCode::XTSE0350)),
        Piece::LoneClose => Err(sheet_fault(SheetStaticCode::XTSE0370)),
    }
}

fn parts<R: Reader>(
    alloc: Global,
    reader: &R,
    place: &StaticContext,
    pieces: &[Piece],
) -> Result<Avt<R::Expr>, ResolveFault>
    ensures { Answers result (each (piece_faults (R.reads reader.now) place.now) pieces.now)
        (map (piece_value (R.reads reader.now) place.now) pieces.now) }
{
    let mut made = List::new(alloc);
    let mut left = pieces;
    while let [piece, rest @ ..] = left {
        made.push(part(alloc, reader, place, piece)?)?;
        left = rest;
    }
    Ok(made)
}

/// The parts of the attribute value template (XSLT 2.0, 5.6). XTSE0350 comes of a `{` without its
/// `}`, XTSE0370 of a `}` without its `{`, and else the code of the first rule that one of its
/// expressions breaks, in the order of the text.
pub fn template<R: Reader>(
    alloc: Global,
    reader: &R,
    place: &StaticContext,
    text: &Text,
) -> Result<Avt<R::Expr>, ResolveFault>
    ensures { Answers result (template_faults (R.reads reader.now) place.now text.now)
        (template_value (R.reads reader.now) place.now text.now) }
{
    let pieces = template_pieces(alloc, text.as_str())?;
    parts(alloc, reader, place, pieces.as_slice())
}
