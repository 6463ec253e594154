// What texts spell.
ghost use Rattle.std.specs.Prelude.{◌≡◌, ◌↔◌, ℕ, List};
ghost use Rattle.std.specs.Str.{chars, IsUtf8};
ghost use Rattle.xt_syntax.specs.declared.patterns.Pattern.{Pattern};
ghost use Rattle.expr_resolve.specs.declared.setting.Setting.{Setting};
ghost use Rattle.expr_tokens.specs.TextTokens.Lexed.{lexed};
ghost use Rattle.pattern_syntax.specs.Readings.{value, IsLexed};
ghost use Rattle.pattern_syntax.specs.Spelled.{SpellsWithin};
ghost use Rattle.pattern_syntax.specs.PatternReadings.Readings.{text_reading};

/// Each text has the tokens that the function gives, or none begins somewhere where it gives none
/// (XPath 2.0, A.2).
pub fn each_text_is_lexed()
    ensures { (text : List ℕ) → IsUtf8 text → IsLexed text (lexed (chars text)) }
{}

/// The reading of a text gives alternatives exactly where the text spells them within the limit (XSLT
/// 2.0, 5.5.2).
pub fn reads_what_is_spelled()
    ensures { (s : Setting) (k : ℕ) (text : List ℕ) (ps : List Pattern) → IsUtf8 text
        → SpellsWithin s k text ps ↔ (text_reading s k (chars text) ≡ value ps) }
{}
