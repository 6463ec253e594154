// Modules that break no rule by themselves, and what they declare.
ghost use Rattle.std.specs.Prelude.{◌≡◌, ℕ, List, [], true};
ghost use Rattle.std.specs.List.{list_all};
ghost use Rattle.assembly_laws.specs.Laws.{declares, declares_spaces};
ghost use Rattle.closed_parts.specs.Closed.{closed_part, closed_space};
ghost use Rattle.closed_sheets.specs.Sheets.{are_sound_modes};
ghost use Rattle.doc_reader.specs.declared.Scoped.{Scoped};
ghost use Rattle.loaded_sheets.specs.LoadedParts.Names.{names_alone, with_levels};
ghost use Rattle.loaded_sheets.specs.Sheets.{declarations_in, own_faults};
ghost use Rattle.module_loading.specs.Held.{Holdings};
ghost use Rattle.module_loading.specs.Loads.{IsLoadedSheet};
ghost use Rattle.module_loading.specs.declared.loaded.LoadedModule.{LoadedModule};
ghost use Rattle.module_loading.specs.declared.loaded.LoadedSheet.{LoadedSheet};
ghost use Rattle.module_loading.specs.ModuleReader.Modules.{parts_faults, parts_value};
ghost use Rattle.loaded_sheets.specs.SheetLanguage.Language.{sheet_reading};
ghost use Rattle.sheet_modules.specs.declared.sheet_levels.levels.SheetLevel.{SheetLevel};
ghost use Rattle.sheet_modules.specs.declared.links.Link.{Link};
ghost use Rattle.closed_parts.specs.SoundNodes.Sound.{are_good_declarations};
ghost use Rattle.xt_names.specs.declared.names.Binding.{Binding};
ghost use Rattle.xt_names.specs.declared.names.ExprName.{ExprName};
ghost use Rattle.xt_tree.specs.Sound.{is_sound_tree};
ghost use Rattle.xt_tree.specs.declared.trees.Tree.{Tree};

/// Each declaration of a module that breaks no rule by itself, whose tree is sound, is what a
/// closed stylesheet may declare (XSLT 2.0, 3.6).
pub fn unbroken_modules_are_closed()
    ensures parts { (modes called : List ExprName) (tree : Tree) (declared : List (List Binding))
        → is_sound_tree tree ≡ true → are_good_declarations declared ≡ true
        → parts_faults sheet_reading modes called tree declared ≡ []
        → list_all (declares closed_part)
        (parts_value sheet_reading modes called tree declared) ≡ true }
    ensures spaces { (modes called : List ExprName) (tree : Tree) (declared : List (List Binding))
        → is_sound_tree tree ≡ true → are_good_declarations declared ≡ true
        → parts_faults sheet_reading modes called tree declared ≡ []
        → list_all (declares_spaces closed_space)
        (parts_value sheet_reading modes called tree declared) ≡ true }
{}

/// Each declaration of a stylesheet that is loaded from files, where no module breaks a rule by
/// itself, is what a closed stylesheet may declare (XSLT 2.0, 3.10).
pub fn loaded_declarations_are_closed()
    ensures parts { (files : Holdings) (reads : Scoped → List Link) (name : List ℕ)
        (l : LoadedSheet) → IsLoadedSheet files reads name l → own_faults l ≡ []
        → list_all (λ d. declares closed_part d.part) (declarations_in l) ≡ true }
    ensures spaces { (files : Holdings) (reads : Scoped → List Link) (name : List ℕ)
        (l : LoadedSheet) → IsLoadedSheet files reads name l → own_faults l ≡ []
        → list_all (λ d. declares_spaces closed_space d.part) (declarations_in l) ≡ true }
{}

/// Each mode but the default one that sound modules name has a name that XML allows, whichever
/// rules they break (XSLT 2.0, 6.5).
pub fn modes_of_stylesheets_are_sound()
    ensures { (modules : List LoadedModule) (levels : List SheetLevel)
        → list_all (λ m. is_sound_tree m.scoped.tree) modules ≡ true
        → list_all (λ m. are_good_declarations m.scoped.declared) modules ≡ true
        → are_sound_modes (with_levels modules levels names_alone).modes ≡ true }
{}
