// What the parts of attribute value templates are, in the words of the Recommendation.
ghost use Rattle.sheet_values.specs.TemplateLaws.{FixedPartsAreRead, ExpressionsAreRead};

/// Characters of which each brace is doubled stand for themselves, and an expression in braces is a
/// part between what comes before and after it (XSLT 2.0, 5.6).
pub fn templates_are_read()
    ensures fixed { FixedPartsAreRead }
    ensures expressions { ExpressionsAreRead }
{}
