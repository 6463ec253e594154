//! What operators, functions and steps make of sound values is sound: a law alone, nothing runs.
//!
//! Example: what `translate` gives of texts of XML is a text of XML, and `codepoints-to-string`
//! gives one or fails, whatever integers it takes.

ghost use Rattle.expr_laws.specs.Carrier.{IsKept};
ghost use Rattle.meaning_laws.specs.SoundValues.Sound.{IsSound};

/// Operators, functions of the library and steps give sound values of sound values, and so does
/// document order (XPath 2.0, 3; XQuery 1.0 and XPath 2.0 Functions and Operators).
pub fn operators_and_functions_keep_values_sound()
    ensures { IsKept IsSound }
{}
