// Stylesheets that are loaded and read.
ghost use Rattle.std.specs.Prelude.{◌≡◌, ◌+◌, ◌<◌, ◌^◌, [], length, true, Ok, Err, IfOk, IfErr};
ghost use Rattle.std.specs.Str.{chars};
ghost use Rattle.xt_io.specs.Files.{KeepsFiles};
ghost use Rattle.sheet_closure.specs.Closed.{is_closed};
ghost use Rattle.loaded_sheets.specs.LoadedParts.Names.{AllCanBeRead};
ghost use Rattle.loaded_sheets.specs.Sheets.{sheet_faults, sheet_value};
ghost use Rattle.import_tree.specs.Sheets.{IsSheet, HoldsSheet, IsUnreadAs, IsSheetRefusedAs};

use crate::links::SheetLinks;
use expr_names::ResolveFault;
use loaded_sheets::read_sheet;
use module_loading::{LoadedSheet, SheetFault, load_modules};
use std::alloc::Global;
use xt_io::Files;
use xt_sheets::Sheet;

/// A stylesheet with its modules.
#[derive(Drop)]
pub struct ReadSheet {
    /// The modules as they are loaded.
    pub loaded: LoadedSheet,
    /// The stylesheet that they make up.
    pub sheet: Sheet,
}

/// The stylesheet whose first module has this name (XSLT 2.0, 3.10). It is closed: it uses nothing
/// but what it declares.
///
/// `Load` and `TooLong` come with the name of the module that was asked for, and `Malformed` with
/// that of one that is no document. `Static` comes with XTSE0180, XTSE0210 or XTLM0003 of a link,
/// and where all modules are loaded with the code of a rule that is broken: the first one that the
/// first module breaks which breaks one by itself, and else the first of those that all modules
/// break together.
pub fn load_sheet<F: Files>(alloc: Global, files: &mut F, name: &str) -> Result<Sheet, SheetFault>
    ensures sheet { IfOk result (HoldsSheet (F.state files.old).held (chars name.now)) }
    ensures closed { IfOk result (λ sheet. is_closed sheet ≡ true) }
    ensures refused { IfErr result
        (IsSheetRefusedAs (chars name.now) (F.state files.old) (F.state files.new)) }
    ensures keeps { KeepsFiles (F.state files.old) (F.state files.new) }
{
    match load_with_modules(alloc, files, name) {
        Ok(ReadSheet { loaded, sheet }) => {
            drop(loaded);
            Ok(sheet)
        }
        Err(fault) => Err(fault),
    }
}

/// The stylesheet whose first module has this name, with its modules. It refuses what `load_sheet`
/// refuses.
#[tactic(auto, using(crate::proofs::Closed::value_closed))]
pub fn load_with_modules<F: Files>(
    alloc: Global,
    files: &mut F,
    name: &str,
) -> Result<ReadSheet, SheetFault>
    ensures sheet { IfOk result (λ read.
        IsSheet (F.state files.old).held (chars name.now) read.loaded read.sheet) }
    ensures closed { IfOk result (λ read. is_closed read.sheet ≡ true) }
    ensures refused { IfErr result
        (IsSheetRefusedAs (chars name.now) (F.state files.old) (F.state files.new)) }
    ensures keeps { KeepsFiles (F.state files.old) (F.state files.new) }
{
    match load_modules(alloc, files, &SheetLinks {}, name) {
        Ok(loaded) => {
            let sheet = sheet_in(alloc, &loaded);
            with_modules(loaded, sheet)
        }
        Err(fault) => Err(fault),
    }
}

/// The stylesheet that the modules make up.
fn sheet_in(alloc: Global, loaded: &LoadedSheet) -> Result<Sheet, SheetFault>
    requires readable { AllCanBeRead loaded.now.modules }
    requires levels { length loaded.now.levels + 1 < 2 ^ 32 }
    ensures sheet { IfOk result (λ sheet. (sheet_faults loaded.now ≡ [])
        × (sheet ≡ sheet_value loaded.now)) }
    ensures refused { IfErr result (IsUnreadAs loaded.now) }
{
    match read_sheet(alloc, loaded) {
        Ok(sheet) => Ok(sheet),
        Err(ResolveFault::Static(code)) => Err(SheetFault::Static(code)),
        Err(ResolveFault::Memory(e)) => Err(SheetFault::Memory(e)),
    }
}

/// The stylesheet beside its modules, or what it was refused for.
fn with_modules(
    loaded: LoadedSheet,
    sheet: Result<Sheet, SheetFault>,
) -> Result<ReadSheet, SheetFault>
    ensures read { IfOk result (λ read. (read.loaded ≡ loaded) × (sheet ≡ Ok read.sheet)) }
    ensures refused { IfErr result (λ fault. sheet ≡ Err fault) }
{
    match sheet {
        Ok(sheet) => Ok(ReadSheet { loaded, sheet }),
        Err(fault) => {
            drop(loaded);
            Err(fault)
        }
    }
}
