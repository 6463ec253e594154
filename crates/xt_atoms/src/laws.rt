// What follows from the definitions alone.
ghost use Rattle.std.specs.Prelude.{◌≡◌, ℤ, FitsSigned, Ok};
ghost use Rattle.std.specs.Int.{w64};
ghost use Rattle.xt_atoms.specs.AtomTexts.{text_of};
ghost use Rattle.xt_atoms.specs.Casts.{cast_of};
ghost use Rattle.xt_atoms.specs.declared.atoms.Atom.TheVariants as atom;
ghost use Rattle.xt_names.specs.declared.kinds.AtomType.TheVariants as kind;

/// The text of an integer, cast to xs:integer, is that integer again.
pub fn integers_are_read_back()
    ensures { (n : ℤ) → FitsSigned w64 n → cast_of (atom.Str (text_of (atom.Int n))) kind.Int ≡ Ok (atom.Int n) }
{}
