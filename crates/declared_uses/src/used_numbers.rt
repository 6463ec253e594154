//! Modes and templates that are called have their numbers in a loaded stylesheet whose modules
//! break no rule by themselves (XSLT 2.0, 6.5 and 10.1). A law alone.

ghost use Rattle.std.specs.Prelude.{◌≡◌, ℕ, List, [], true, length, nat_lt};
ghost use Rattle.std.specs.List.{list_all};
ghost use Rattle.assembly_laws.specs.Laws.{declares_modes};
ghost use Rattle.declared_uses.specs.Numbers.{have_numbers};
ghost use Rattle.doc_reader.specs.declared.Scoped.{Scoped};
ghost use Rattle.loaded_sheets.specs.Sheets.{declarations_in, names_in, own_faults};
ghost use Rattle.module_loading.specs.Held.{Holdings};
ghost use Rattle.module_loading.specs.Loads.{IsLoadedSheet};
ghost use Rattle.module_loading.specs.declared.loaded.LoadedSheet.{LoadedSheet};
ghost use Rattle.sheet_modules.specs.declared.links.Link.{Link};

/// What is declared in such a stylesheet uses the numbers of modes and of templates that it names,
/// and the modes of its rules are there. The default mode is there in every stylesheet.
pub fn numbers_that_are_used_are_there()
    ensures uses { (files : Holdings) (reads : Scoped → List Link) (name : List ℕ)
        (l : LoadedSheet) → IsLoadedSheet files reads name l → own_faults l ≡ []
        → have_numbers (names_in l).modes (names_in l).called (declarations_in l) ≡ true }
    ensures rules { (files : Holdings) (reads : Scoped → List Link) (name : List ℕ)
        (l : LoadedSheet) → IsLoadedSheet files reads name l → own_faults l ≡ []
        → list_all (λ d. declares_modes (length (names_in l).modes) d.part) (declarations_in l)
        ≡ true }
    ensures default { (l : LoadedSheet) → nat_lt 0 (length (names_in l).modes) ≡ true }
{}
