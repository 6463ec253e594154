// What attribute value templates mean, in the words of the Recommendation.
ghost use Rattle.sheet_values.specs.SheetTexts.Laws.{CharactersStand, ExpressionsAreParts};

use crate::sheet_texts::readers::Reader;

/// A template of characters whose braces are doubled breaks no rule and has these characters as its
/// one part; an expression in braces is a part between those before and after it (XSLT 2.0, 5.6).
pub fn templates_mean_their_parts<R: Reader>(reader: &R)
    ensures characters { CharactersStand (R.reads reader.now) }
    ensures expressions { ExpressionsAreParts (R.reads reader.now) }
{}
