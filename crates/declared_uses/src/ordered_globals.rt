//! Where no global of a stylesheet depends on itself, each comes after those on which it depends
//! (XSLT 2.0, 9.5). A law alone.

ghost use Rattle.std.specs.Prelude.{◌≡◌, true};
ghost use Rattle.declared_uses.specs.Orders.{put_in_order, AreAllInOrder, HasEachGlobal};
ghost use Rattle.sheet_assembly.specs.Sheets.{Parts, sheet_of};
ghost use Rattle.assembly_laws.specs.SheetClosure.Numbers.{has_order};

/// In the order in which they are evaluated, each global variable and parameter of a stylesheet
/// comes after those on which it depends, through functions, templates, modes and other globals
/// too (XSLT 2.0, 9.5). No global depends on itself.
pub fn globals_are_in_order()
    ensures { (p : Parts) → HasEachGlobal p → AreAllInOrder (sheet_of p)
        → has_order (put_in_order (sheet_of p)) ≡ true }
{}
