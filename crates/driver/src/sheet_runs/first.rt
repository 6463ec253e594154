// Stylesheets of the first form, as they are loaded.
ghost use Rattle.std.specs.Prelude.{◌≡◌, true, false, IfOk, IfErr};
ghost use Rattle.std.specs.Option.{option_copied};
ghost use Rattle.xt_io.specs.Files.{KeepsFiles};
ghost use Rattle.xt_names.specs.declared.codes.Code.TheVariants.{SheetStatic};
ghost use Rattle.xt_names.specs.declared.codes.SheetStaticCode.TheVariants.{XTUN0001};
ghost use Rattle.run_parts.specs.declared.status.Status.TheVariants.{Static};
ghost use Rattle.driver.specs.SheetRuns.Sheets.{main_tree, is_first, told_of, HoldsFirst, IsUnloadedAs};

use import_tree::{LoadedSheet, ReadSheet, SheetFault, load_with_modules};
use run_parts::Status;
use sheet_reader::is_first_sheet;
use std::alloc::Global;
use std::mem::forget;
use xt_io::Files;
use xt_names::{Code, SheetStaticCode};
use xt_tree::Tree;

/// What is said of a stylesheet that the program does not run yet.
const NO_SHEET: Status = Status::Static(Code::SheetStatic(SheetStaticCode::XTUN0001));

/// The tree of the first module.
pub(crate) fn main_tree(loaded: &LoadedSheet) -> Option<&Tree>
    ensures { option_copied result ≡ main_tree loaded.now.modules }
{
    match loaded.modules.as_slice() {
        [first, ..] => Some(&first.scoped.tree),
        [] => None,
    }
}

fn is_first(loaded: &LoadedSheet) -> bool
    ensures { result ≡ is_first loaded.now.modules }
{
    match loaded.modules.as_slice() {
        [first, ..] => is_first_sheet(&first.scoped.tree),
        [] => false,
    }
}

/// The modules of the stylesheet in a file, which break no rule, and of which the first is a
/// stylesheet of the first form.
pub(crate) fn load_first<F: Files>(
    alloc: Global,
    name: &str,
    files: &mut F,
) -> Result<LoadedSheet, Status>
    ensures sheet { IfOk result (HoldsFirst (F.state files.old).held name.now) }
    ensures refused { IfErr result
        (IsUnloadedAs name.now (F.state files.old) (F.state files.new)) }
    ensures keeps { KeepsFiles (F.state files.old) (F.state files.new) }
{
    match load_with_modules(alloc, files, name) {
        Ok(ReadSheet { loaded, sheet }) => {
            // (the run takes nothing of it, and node by node it would go slowly)
            forget(sheet);
            first_form(loaded)
        }
        Err(fault) => Err(told(fault)),
    }
}

// The modules, if the first is a stylesheet of the first form.
fn first_form(loaded: LoadedSheet) -> Result<LoadedSheet, Status>
    ensures first { IfOk result (λ made. (made ≡ loaded) × (is_first loaded.modules ≡ true)) }
    ensures refused { IfErr result (λ status. (status ≡ Static (SheetStatic XTUN0001))
        × (is_first loaded.modules ≡ false)) }
{
    if is_first(&loaded) {
        return Ok(loaded);
    }
    drop(loaded);
    Err(NO_SHEET)
}

// What is said of a stylesheet that is not loaded.
fn told(fault: SheetFault) -> Status
    ensures { result ≡ told_of fault }
{
    match fault {
        SheetFault::Load(name) => Status::Load(name),
        SheetFault::TooLong(name, n) => Status::TooLong(name, n),
        SheetFault::Malformed(name, spot) => Status::Malformed(name, spot),
        SheetFault::Static(code) => Status::Static(code),
        SheetFault::Memory(_) => Status::Memory,
    }
}
