//! How deep expressions nest for their length: laws alone.
#![tactic(auto)]

ghost use Rattle.std.specs.Prelude.{◌+◌, ◌≤◌, List, [], length};
ghost use Rattle.expr_keys.specs.declared.tokens.Token.{Token};
ghost use Rattle.expr_keys.specs.declared.productions.Language.{Language};
ghost use Rattle.expr_terms.specs.declared.raws.Raw.{Raw};
ghost use Rattle.expr_terms.specs.Nest.{raw_nest_of};
ghost use Rattle.expr_keys.specs.declared.productions.Nonterminal.TheVariants.{ExprSingle as expr_single};
ghost use Rattle.expr_grammar.specs.Grammar.{Derives, Spells};
ghost use Rattle.expr_length.specs.Weights.{weight};

/// An expression nests at most one level deeper than it has tokens: each level has a token of its
/// own but one of those of `//`, which makes two.
pub fn nests_within_tokens()
    ensures { (l : Language) (ts : List Token) (v : Raw) → Spells l ts v → raw_nest_of v ≤ 1 + length ts }
{}

/// An expression nests no deeper than its tokens weigh: `//` weighs two, each other token one.
/// (XPath 2.0, 3.2 and A.1; XQuery 1.0, 3.2 and A.1)
pub fn nests_within_weight()
    ensures whole { (l : Language) (ts : List Token) (v : Raw) → Spells l ts v
        → raw_nest_of v ≤ weight ts }
    ensures single { (l : Language) (ts : List Token) (v : Raw) → Derives l expr_single ts v []
        → raw_nest_of v ≤ weight ts }
{}
