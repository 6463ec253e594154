// The productions that are open, as the reader holds them, and what has been read.
ghost use Rattle.std.specs.Prelude.{◌≤◌};
ghost use Rattle.expr_grammar.specs.ExprNest.Held.{held};
ghost use Rattle.expr_grammar.specs.ExprNest.Measures.{widest, predicate_nest_of};
ghost use Rattle.expr_terms.specs.Nest.{raw_nest_of};
ghost use Rattle.expr_reader.specs.Counts.{SameCount};

use expr_terms::{Production, Raw};

/// A production that is open, with how many of its parts stand behind.
#[derive(Drop)]
pub struct Frame {
    pub production: Production,
    pub place: usize,
    pub kids: Vec<Raw>,
    /// The levels of the parts so far.
    pub nest: u32,
    /// The greatest of their levels within predicates.
    pub within: u32,
    ghost counted: { SameCount nest (held production kids.items) },
    ghost counted_within: { SameCount within (widest kids.items) },
    ghost small: { nest ≤ 70000 },
    ghost small_within: { within ≤ 70000 },
}

/// A value with its levels, and those within predicates.
#[derive(Drop)]
pub struct Value {
    pub raw: Raw,
    pub levels: u32,
    pub within: u32,
    ghost counted: { SameCount levels (raw_nest_of raw) },
    ghost counted_within: { SameCount within (predicate_nest_of raw) },
    ghost small: { levels ≤ 70002 },
    ghost small_within: { within ≤ 70002 },
}
