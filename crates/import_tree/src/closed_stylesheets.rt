//! Stylesheets that are loaded from files and break no rule are closed (XSLT 2.0, 2.9 and 3.10). A
//! law alone.
//!
//! Its proof rests on the laws on each part of such a stylesheet (`good_stylesheets`), on the
//! numbers and names that it uses (`used_numbers`, `whole_stylesheets`), and on the one stylesheet
//! of all declarations (`assembly_laws`).

ghost use Rattle.std.specs.Prelude.{◌≡◌, ℕ, List, [], true};
ghost use Rattle.doc_reader.specs.declared.Scoped.{Scoped};
ghost use Rattle.loaded_sheets.specs.Sheets.{sheet_faults, sheet_value};
ghost use Rattle.module_loading.specs.Held.{Holdings};
ghost use Rattle.module_loading.specs.Loads.{IsLoadedSheet};
ghost use Rattle.module_loading.specs.declared.loaded.LoadedSheet.{LoadedSheet};
ghost use Rattle.sheet_closure.specs.Closed.{is_closed};
ghost use Rattle.sheet_modules.specs.declared.links.Link.{Link};

/// A stylesheet whose modules break no rule, neither one by itself nor all together, is closed: it
/// uses nothing but what it declares, and each of its parts may stand where it does (XSLT 2.0, 2.9).
pub fn loaded_stylesheets_are_closed()
    ensures { (files : Holdings) (reads : Scoped → List Link) (name : List ℕ)
        (l : LoadedSheet) → IsLoadedSheet files reads name l → sheet_faults l ≡ []
        → is_closed (sheet_value l) ≡ true }
{}
