//! Stylesheets that are loaded from files, where no module breaks a rule by itself: what their
//! modules and they have of a closed stylesheet part by part (XSLT 2.0, 3.6 and 3.10). Laws alone.
//!
//! Each body names the laws on the one stylesheet of all declarations that its proof rests on.

ghost use Rattle.std.specs.Prelude.{◌≡◌, ℕ, List, [], true};
ghost use Rattle.std.specs.List.{list_all};
ghost use Rattle.closed_sheets.specs.Sheets.{has_good_parts};
ghost use Rattle.doc_reader.specs.declared.Scoped.{Scoped};
ghost use Rattle.loaded_sheets.specs.Sheets.{own_faults, sheet_value};
ghost use Rattle.module_loading.specs.Held.{Holdings};
ghost use Rattle.module_loading.specs.Loads.{IsLoadedSheet};
ghost use Rattle.module_loading.specs.declared.loaded.LoadedSheet.{LoadedSheet};
ghost use Rattle.sheet_closure.specs.Closed.{is_space_test};
ghost use Rattle.sheet_closure.specs.Declared.{has_different_names, has_uri};
ghost use Rattle.sheet_closure.specs.Numbers.{are_levels};
ghost use Rattle.sheet_modules.specs.declared.links.Link.{Link};
ghost use Rattle.sheet_closure.specs.StandingParts.Sheets.{parts_stand};

mod modules;

use assembly_laws::{functions_differ, globals_differ, parts_are_declared, spaces_are_declared};
pub use modules::{
    loaded_declarations_are_closed, modes_of_stylesheets_are_sound, unbroken_modules_are_closed,
};

/// Each part of such a stylesheet is good and may stand where it does, each function has a uri, and
/// so has each test of white space that needs one (XSLT 2.0, 3.6).
pub fn loaded_stylesheets_are_good()
    ensures good { (files : Holdings) (reads : Scoped → List Link) (name : List ℕ)
        (l : LoadedSheet) → IsLoadedSheet files reads name l → own_faults l ≡ []
        → has_good_parts (sheet_value l) ≡ true }
    ensures stands { (files : Holdings) (reads : Scoped → List Link) (name : List ℕ)
        (l : LoadedSheet) → IsLoadedSheet files reads name l → own_faults l ≡ []
        → parts_stand (sheet_value l) ≡ true }
    ensures uris { (files : Holdings) (reads : Scoped → List Link) (name : List ℕ)
        (l : LoadedSheet) → IsLoadedSheet files reads name l → own_faults l ≡ []
        → list_all has_uri (sheet_value l).functions ≡ true }
    ensures spaces { (files : Holdings) (reads : Scoped → List Link) (name : List ℕ)
        (l : LoadedSheet) → IsLoadedSheet files reads name l → own_faults l ≡ []
        → list_all (λ r. is_space_test r.test) (sheet_value l).space ≡ true }
{
    parts_are_declared();
    spaces_are_declared();
}

/// The levels that are imported into a level of a loaded stylesheet come before it (XSLT 2.0,
/// 3.10.3).
pub fn loaded_levels_stand()
    ensures { (files : Holdings) (reads : Scoped → List Link) (name : List ℕ)
        (l : LoadedSheet) → IsLoadedSheet files reads name l
        → are_levels 0 (sheet_value l).levels ≡ true }
{}

/// No two globals of a loaded stylesheet have one name, and no two functions one name and number of
/// parameters (XSLT 2.0, 9.5 and 10.3).
pub fn loaded_names_differ()
    ensures { (l : LoadedSheet) → has_different_names (sheet_value l) ≡ true }
{
    functions_differ();
    globals_differ();
}
