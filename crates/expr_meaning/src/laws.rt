// What calls mean where none is left.
ghost use Rattle.std.specs.Prelude.{◌≡◌, ℕ, zero, List, length, Some, Ok};
ghost use Rattle.xt_names.specs.declared.names.ExprName.{ExprName};
ghost use Rattle.xdm_items.specs.declared.items.Item.{Item};
ghost use Rattle.xt_syntax.specs.declared.queries.QueryFunction.{QueryFunction};
ghost use Rattle.expr_meaning.specs.Outcomes.Outcome.{Deep};
ghost use Rattle.expr_meaning.specs.Env.{Binding};
ghost use Rattle.expr_meaning.specs.Queries.{Run, find_function, bound_params, calls_at};

/// Where no call is left, a call whose arguments are converted needs one (XQuery 1.0, 3.1.5).
pub fn without_calls_left_a_call_needs_one()
    ensures { (run : Run) (globals : List Binding) (name : ExprName) (args : List (List Item)) (k : ℕ)
        (f : QueryFunction) (bound : List Binding) →
        find_function run.query.functions name (length args) ≡ Some f →
        bound_params f.params args ≡ Ok bound → calls_at run globals zero name args k ≡ Deep }
{}
