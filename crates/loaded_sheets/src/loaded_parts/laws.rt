// What is loaded can be read.
ghost use Rattle.std.specs.Prelude.{ℕ, List};
ghost use Rattle.doc_reader.specs.declared.Scoped.{Scoped};
ghost use Rattle.sheet_modules.specs.declared.links.Link.{Link};
ghost use Rattle.module_loading.specs.declared.loaded.LoadedSheet.{LoadedSheet};
ghost use Rattle.module_loading.specs.Held.{Holdings};
ghost use Rattle.module_loading.specs.Loads.{IsLoadedSheet};
ghost use Rattle.loaded_sheets.specs.LoadedParts.Names.{AllCanBeRead};

/// Each module that is loaded is a document, whose elements have their declarations, so it can be
/// read (Namespaces in XML 1.0, 3).
pub fn loaded_modules_can_be_read()
    ensures { (files : Holdings) (links : Scoped → List Link) (name : List ℕ) (sheet : LoadedSheet)
        → IsLoadedSheet files links name sheet → AllCanBeRead sheet.modules }
{}
