//! Whatever a stylesheet makes is sound: a law alone, nothing runs.
//!
//! On sound documents a closed stylesheet gives a sound tree: its names and texts are those that XML
//! allows, no text in it is empty or beside another, and it is within the limits.
//!
//! Example: `<xsl:comment select="$text"/>` fails where the text holds `--`, and else gives a sound
//! comment.
#![tactic(auto)]

ghost use Rattle.std.specs.Prelude.{◌≡◌, ℕ, true};
ghost use Rattle.xt_tree.specs.Sound.{is_sound_tree};
ghost use Rattle.expr_meaning.specs.Outcomes.Outcome.{OnEnds};
ghost use Rattle.transform_meaning.specs.Sheets.{transform_outcome};
ghost use Rattle.transform_meaning.specs.Templates.{Run};
ghost use Rattle.sound_transforms.specs.Sound.{IsSoundRun};

/// On a sound document, with sound further documents and values from outside of characters of XML, a
/// stylesheet whose texts and names XML allows, as is every closed one, gives a sound tree with any
/// number of calls, or fails, or needs one more call (XSLT 2.0, 2.4).
pub fn what_a_stylesheet_gives_is_sound()
    ensures { (run : Run) → IsSoundRun run → (n : ℕ) →
        OnEnds (λ t. is_sound_tree t ≡ true) (transform_outcome run n) }
{}
