//! What is found of uses in a stylesheet comes after what was found before, and does not depend
//! on it (XPath 2.0, 3.1.2; XSLT 2.0, 5.7). Laws alone.

ghost use Rattle.std.specs.Prelude.{◌≡◌, List, [], ◌++◌};
ghost use Rattle.sheet_uses.specs.KeyCalls.Bodies.{bound_keys, callee_keys};
ghost use Rattle.sheet_uses.specs.Bodies.{bound_uses, callee_uses};
ghost use Rattle.sheet_uses.specs.Exprs.{expr_uses};
ghost use Rattle.sheet_uses.specs.declared.uses.Use.{Use};
ghost use Rattle.xt_names.specs.declared.names.ExprName.{ExprName};
ghost use Rattle.xt_sheets.specs.declared.instrs.Bound.{Bound};
ghost use Rattle.xt_sheets.specs.declared.instrs.Instr.{Instr};
ghost use Rattle.xt_syntax.specs.declared.exprs.Expr.{Expr};
ghost use Rattle.xt_syntax.specs.declared.patterns.Pattern.{Pattern};

/// What an expression, a variable, and a template or function use is put after what was found
/// before (XSLT 2.0, 9 and 10).
pub fn uses_are_added()
    ensures expressions { (e : Expr) (scope : List ExprName) (found : List Use)
        → (expr_uses e).finds scope found ≡ found ++ (expr_uses e).finds scope [] }
    ensures bounds { (b : Bound Expr Pattern) (scope : List ExprName) (found : List Use)
        → (bound_uses b).source scope found ≡ found ++ (bound_uses b).source scope [] }
    ensures callees { (params : List (Bound Expr Pattern)) (body : List (Instr Expr Pattern))
        (scope : List ExprName) (found : List Use)
        → callee_uses params body scope found ≡ found ++ callee_uses params body scope [] }
{}

/// The same of what the grouping keys within them use (XSLT 2.0, 14.3).
pub fn key_uses_are_added()
    ensures bounds { (b : Bound Expr Pattern) (scope : List ExprName) (found : List Use)
        → bound_keys b scope found ≡ found ++ bound_keys b scope [] }
    ensures callees { (params : List (Bound Expr Pattern)) (body : List (Instr Expr Pattern))
        (scope : List ExprName) (found : List Use)
        → callee_keys params body scope found ≡ found ++ callee_keys params body scope [] }
{}
