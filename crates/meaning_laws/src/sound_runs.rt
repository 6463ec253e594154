//! Whatever a query makes is sound: laws alone, nothing runs.
//!
//! A value is sound where its nodes stand in sound trees, its texts have characters of XML alone
//! and its names are those that XML and its namespaces allow. Where all that an expression can read
//! is sound, so is all that it gives: no constructor makes a tree that no text of XML could stand
//! for.
//!
//! Example: `comment { $text }` fails where the text holds `--`, and else gives a sound comment.

ghost use Rattle.std.specs.Prelude.{◌≡◌, ℕ, true};
ghost use Rattle.xdm_items.specs.declared.items.Item.{Item};
ghost use Rattle.xt_syntax.specs.declared.exprs.Expr.{Expr};
ghost use Rattle.closed_queries.specs.ExprTexts.{has_sound_texts};
ghost use Rattle.expr_meaning.specs.Env.{Env, Program};
ghost use Rattle.expr_meaning.specs.Meaning.{outcome};
ghost use Rattle.expr_meaning.specs.Queries.{Run, query_outcome};
ghost use Rattle.meaning_laws.specs.SoundValues.Sound.{IsSound};
ghost use Rattle.meaning_laws.specs.SoundRuns.Sound.{EndsSound, IsSoundEnv, IsSoundProgram, IsSoundRun};

/// In a program whose calls, documents and variables are sound, an expression whose texts and names
/// XML allows gives sound values wherever all is sound that it can read (XPath 2.0, 2.1;
/// XQuery 1.0, 3.7).
pub fn what_an_expression_gives_is_sound()
    ensures { (p : Program) → IsSoundProgram p → (x : Expr) → has_sound_texts x ≡ true →
        (env : Env) → IsSoundEnv env → (k : ℕ) → EndsSound (outcome p x env k) }
{}

/// On a sound document, with sound further documents and values from outside of characters of XML,
/// a query whose texts and names XML allows, as is every closed one, gives sound values with any
/// number of calls: each node is in a sound tree (XQuery 1.0, 2.2.3).
pub fn what_a_query_gives_is_sound()
    ensures { (run : Run) → IsSoundRun run → (document : Item) → IsSound document → (n k : ℕ) →
        EndsSound (query_outcome run document n k) }
{}
