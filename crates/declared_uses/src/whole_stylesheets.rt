//! Stylesheets whose declarations break no rule together, with their globals in the order in which
//! they are evaluated (XSLT 2.0, 3.10.3 and 9.5). A law alone.

ghost use Rattle.std.specs.Prelude.{◌≡◌, List, [], true};
ghost use Rattle.declared_uses.specs.Numbers.{have_numbers};
ghost use Rattle.loaded_sheets.specs.Wholes.{declared_sheet, in_order, wide_faults};
ghost use Rattle.declared_uses.specs.SheetClosure.Declared.{keeps_names};
ghost use Rattle.declared_uses.specs.SheetClosure.Numbers.{has_order};
ghost use Rattle.sheet_rules.specs.declared.sheet_declarations.lists.Declaration.{Declaration};
ghost use Rattle.sheet_modules.specs.declared.sheet_levels.levels.SheetLevel.{SheetLevel};
ghost use Rattle.xt_names.specs.declared.names.ExprName.{ExprName};
ghost use Rattle.xt_syntax.specs.declared.exprs.Expr.{Expr};
ghost use Rattle.xt_syntax.specs.declared.patterns.Pattern.{Pattern};

/// A stylesheet that is not refused for what its declarations break together uses nothing but what
/// it declares, where the modes and the templates that are used have numbers; and each of its
/// globals comes after those on which it depends.
pub fn unbroken_stylesheets_are_whole()
    ensures names { (ds : List (Declaration Expr Pattern)) (modes called : List ExprName)
        (levels : List SheetLevel) → have_numbers modes called ds ≡ true
        → wide_faults ds called (declared_sheet ds modes called levels) ≡ []
        → keeps_names (in_order (declared_sheet ds modes called levels)) ≡ true }
    ensures order { (ds : List (Declaration Expr Pattern)) (modes called : List ExprName)
        (levels : List SheetLevel)
        → wide_faults ds called (declared_sheet ds modes called levels) ≡ []
        → has_order (in_order (declared_sheet ds modes called levels)) ≡ true }
{}
