// What follows from the definitions.
ghost use Rattle.std.specs.Prelude.{◌≡◌, ◌+◌, true, map};
ghost use Rattle.xt_syntax.specs.declared.exprs.Expr.{Expr};
ghost use Rattle.xt_forms.specs.Nest.{nest_of};
ghost use Rattle.xt_names.specs.Lists.{greatest};
ghost use Rattle.xt_forms.specs.Parts.{parts_of};
ghost use Rattle.xt_forms.specs.Plain.{is_plain_expr};
ghost use Rattle.xt_forms.specs.Quiet.{is_quiet_expr};
ghost use Rattle.xt_forms.specs.Regular.{is_regular_expr};

/// An expression has one level more than the part of it that has most; a leaf has one.
pub fn a_whole_nests_one_more_than_its_parts()
    ensures levels { (e : Expr) → nest_of e ≡ 1 + greatest (map nest_of (parts_of e)) }
{}

/// A plain expression is regular, and so is a quiet one.
pub fn plain_and_quiet_expressions_are_regular()
    ensures plain { (e : Expr) → is_plain_expr e ≡ true → is_regular_expr e ≡ true }
    ensures quiet { (e : Expr) → is_quiet_expr e ≡ true → is_regular_expr e ≡ true }
{}
