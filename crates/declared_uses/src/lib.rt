//! A stylesheet whose declarations break no rule together uses nothing but what it declares (XSLT
//! 2.0, 3.10.3 and 9). A law alone.
#![tactic(auto)]

pub mod added_uses;
pub mod ordered_globals;
pub mod used_numbers;
pub mod whole_stylesheets;

ghost use Rattle.std.specs.Prelude.{◌≡◌, List, [], true};
ghost use Rattle.declared_uses.specs.Numbers.{have_numbers};
ghost use Rattle.declared_uses.specs.Orders.{put_in_order, AreAllInOrder, HasEachGlobal};
ghost use Rattle.sheet_assembly.specs.Sheets.{Parts, sheet_of};
ghost use Rattle.assembly_laws.specs.SheetClosure.Declared.{keeps_names};
ghost use Rattle.sheet_rules.specs.Rules.{broken_rules};
ghost use Rattle.sheet_rules.specs.declared.wide_rules.passing.Parameters.{Parameters};

pub use loaded_sheets;

/// Where the modes and the templates that are used have numbers, and the declarations break no
/// rule together, each variable, function, named template, key and mode that the stylesheet uses
/// is declared in it or bound where it is used, and no grouping key calls a function that it
/// declares. No global depends on itself.
pub fn names_that_are_used_are_declared()
    ensures { (p : Parts) (templates : List Parameters) → HasEachGlobal p
        → AreAllInOrder (sheet_of p) → have_numbers p.modes p.called p.declarations ≡ true
        → broken_rules p.declarations p.called templates ≡ []
        → keeps_names (put_in_order (sheet_of p)) ≡ true }
{}
