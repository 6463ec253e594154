// Laws of all expressions.
ghost use Rattle.std.specs.Prelude.{ℕ};
ghost use Rattle.xdm_items.specs.declared.items.Item.{Item};
ghost use Rattle.expr_meaning.specs.Queries.{Run};
ghost use Rattle.xt_syntax.specs.declared.exprs.Expr.{Expr};
ghost use Rattle.expr_meaning.specs.Env.{Env, Program};
ghost use Rattle.expr_meaning.specs.Meaning.{outcome};
ghost use Rattle.expr_laws.specs.Depth.{CallsChangeNothing};
ghost use Rattle.expr_laws.specs.Ended.{CallsEnd, IsEnded};

/// With more calls left a query gives the same list with the same next number, or fails with the
/// same code, unless it needed more calls than it had (XQuery 1.0, 2.2.3).
pub fn more_calls_change_nothing_else()
    ensures { (run : Run) (document : Item) (n more : ℕ) →
        CallsChangeNothing run document n more }
{}

/// Where no call of a program lacks another, none of its expressions does: each ends with a value or
/// an error (XPath 2.0, 2.3.1).
pub fn where_calls_end_all_ends()
    ensures { (program : Program) → CallsEnd program → (x : Expr) (env : Env) (k : ℕ) →
        IsEnded (outcome program x env k) }
{}
