//! What expressions of XPath mean (XPath 2.0, 3). Laws alone.
//!
//! Where it breaks no rule, the expression that tokens spell in XPath has forms of XPath alone and
//! nests no deeper than it is written. What the grammar asks of direct elements it keeps, since it has
//! none. The proofs go over what is read, production by production, for any property that a form of
//! expression has where its parts have it; and they know of values in which literals have other texts
//! that other tokens spell them.

ghost use Rattle.std.specs.Prelude.{◌≡◌, ◌≤◌, List, [], true};
ghost use Rattle.closed_sheets.specs.Forms.{has_xpath_forms};
ghost use Rattle.expr_grammar.specs.Grammar.{Spells};
ghost use Rattle.expr_resolve.specs.Folds.{broken_of, expr_meant};
ghost use Rattle.expr_resolve.specs.declared.setting.Setting.{Setting};
ghost use Rattle.expr_rules.specs.ExprShapes.Shapes.{is_shaped};
ghost use Rattle.expr_terms.specs.Nest.{raw_nest_of};
ghost use Rattle.expr_keys.specs.declared.productions.Language.TheVariants.{Xpath as xpath};
ghost use Rattle.expr_terms.specs.declared.raws.Raw.{Raw};
ghost use Rattle.expr_keys.specs.declared.tokens.Token.{Token};
ghost use Rattle.xt_forms.specs.Nest.{nest_of};

/// What tokens spell in XPath keeps what the grammar asks of direct elements: each ends with the name
/// that it begins with, and none has an attribute `xmlns` (XPath 2.0, A.1; XQuery 1.0, 3.7.1).
pub fn expressions_are_shaped()
    ensures { (ts : List Token) (v : Raw) → Spells xpath ts v → is_shaped v ≡ true }
{}

/// An expression of XPath that breaks no rule has forms of XPath alone: no constructor, `let`, type
/// on a variable, position, `where` or order (XPath 2.0, 3).
pub fn expressions_have_xpath_forms()
    ensures { (s : Setting) (ts : List Token) (v : Raw) → Spells xpath ts v → broken_of s v ≡ []
        → has_xpath_forms (expr_meant s v) ≡ true }
{}

/// An expression of XPath that breaks no rule nests no deeper than it is written (XPath 2.0, 3).
pub fn expressions_nest_no_deeper()
    ensures { (s : Setting) (ts : List Token) (v : Raw) → Spells xpath ts v → broken_of s v ≡ []
        → nest_of (expr_meant s v) ≤ raw_nest_of v }
{}
