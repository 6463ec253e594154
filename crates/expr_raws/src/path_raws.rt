//! Names, types of nodes, steps and paths as raw values, and the tokens that spell them (XPath 2.0,
//! 2.1.1, 3.1 and 3.2). Definitions and laws alone.
//!
//! A name is the first token of its class that means it: its local part where it needs no prefix
//! and is not reserved, else with the first prefix that is bound to its uri. Names of axes are
//! written out, and a `/` that stands alone is in parentheses.

ghost use Rattle.std.specs.Prelude.{◌≡◌, ℕ, List, Some, true};
ghost use Rattle.xt_names.specs.declared.names.Binding.{Binding};
ghost use Rattle.xt_names.specs.declared.names.ExprName.{ExprName};
ghost use Rattle.xt_types.specs.declared.axes.Axis.{Axis};
ghost use Rattle.xt_types.specs.declared.node_tests.Test.{Test};
ghost use Rattle.xt_syntax.specs.declared.exprs.Expr.{Expr};
ghost use Rattle.xt_syntax.specs.declared.exprs.Expr.TheVariants as expr;
ghost use Rattle.expr_keys.specs.Classes.{fits};
ghost use Rattle.expr_keys.specs.declared.productions.Class.{Class};
ghost use Rattle.expr_keys.specs.declared.tokens.Token.{Token};
ghost use Rattle.expr_rules.specs.declared.expr_meant.meant.Meant.TheVariants as meant;
ghost use Rattle.expr_rules.specs.Known.{name_of};
ghost use Rattle.expr_resolve.specs.ExprPrimaries.ExprPaths.Steps.{test_on};
ghost use Rattle.expr_resolve.specs.declared.setting.Setting.{Setting};
ghost use Rattle.expr_resolve.specs.Folds.{value_of};
ghost use Rattle.expr_raws.specs.PathRaws.Forms.{Form};
ghost use Rattle.expr_raws.specs.PathRaws.Names.{token_in};
ghost use Rattle.expr_raws.specs.PathRaws.Paths.{test_form, slashed};

/// The token of a name is of its class, and means the name.
/// (XPath 2.0, 2.1.1)
pub fn names_mean()
    ensures of_class { (c : Class) (bound : List Binding) (default : List ℕ) (n : ExprName)
        (t : Token) → token_in c bound default n ≡ Some t → fits c t ≡ true }
    ensures means { (c : Class) (bound : List Binding) (default : List ℕ) (n : ExprName)
        (t : Token) → token_in c bound default n ≡ Some t
        → name_of bound default (meant.Token t) ≡ n }
{}

/// The raw value of a node test that can be printed means the test.
/// (XPath 2.0, 3.2.1.2)
pub fn tests_mean()
    ensures { (s : Setting) (on : Axis) (t : Test) → (test_form s.prefixes on t).can ≡ true
        → test_on s.prefixes.bound s.prefixes.element_default on
        (value_of s (test_form s.prefixes on t).raw) ≡ t }
{}

/// The raw value of a path means its two parts joined.
/// (XPath 2.0, 3.2)
pub fn paths_mean()
    ensures { (s : Setting) (a b : Form) (x y : Expr) → value_of s a.raw ≡ meant.Expr x
        → value_of s b.raw ≡ meant.Expr y
        → value_of s (slashed a b).raw ≡ meant.Expr (expr.Slash x y) }
{}
