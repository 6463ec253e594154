//! How deep the values of the grammar of expressions nest, as a whole and within the predicates of
//! steps: laws alone.
//!
//! Example: the value of `a/b | c[d]` nests three levels deep as a whole, and one level within
//! predicates.

ghost use Rattle.std.specs.Prelude.{◌≡◌, ◌≤◌, ◌∷◌, List, Some};
ghost use Rattle.expr_keys.specs.declared.tokens.Token.{Token};
ghost use Rattle.expr_keys.specs.declared.productions.Language.{Language};
ghost use Rattle.expr_keys.specs.declared.productions.Production.{Production};
ghost use Rattle.expr_keys.specs.declared.productions.Symbol.{Symbol};
ghost use Rattle.expr_terms.specs.declared.raws.Raw.{Raw};
ghost use Rattle.expr_terms.specs.Raws.{build};
ghost use Rattle.expr_terms.specs.Nest.{raw_nest_of};
ghost use Rattle.expr_grammar.specs.Machine.{Frame, doing, run};
ghost use Rattle.expr_grammar.specs.ExprNest.Held.{held, is_alone, built_nest};
ghost use Rattle.expr_grammar.specs.declared.expr_nest.measures.Measure.{Measure};
ghost use Rattle.expr_grammar.specs.ExprNest.Measures.{widest, held_by, built_within, nest_by};
ghost use Rattle.expr_grammar.specs.ExprNest.Measures.{predicate_nest_of};

mod measures;

pub use measures::Measure;

/// The nest of a value from that of its parts.
pub fn nest_of_build()
    ensures { (p : Production) (vs : List Raw)
        → raw_nest_of (build p vs) ≡ built_nest p (held p vs) vs }
{}

/// The same of the levels within predicates, of which there are no more than of all.
pub fn within_of_build()
    ensures value { (p : Production) (vs : List Raw) → predicate_nest_of (build p vs)
        ≡ built_within p (held p vs) (widest vs) (built_nest p (held p vs) vs) (is_alone vs) }
    ensures less { (v : Raw) → predicate_nest_of v ≤ raw_nest_of v }
{}

/// What is read nests no less deep than what any open production has so far.
pub fn parts_nest_no_deeper()
    ensures { (m : Measure) (l : Language) (ts : List Token) (p : Production) (vs : List Raw)
        (ss : List Symbol) (fs : List Frame) (w : Raw)
        → run l ts (doing p vs ss ∷ fs) ≡ Some w → held_by m p vs ≤ nest_by m w }
{}
