// Modules that are loaded and read as text.
ghost use Rattle.std.specs.Prelude.{◌≡◌, IfOk, IfErr};
ghost use Rattle.std.specs.Str.{encode_utf8_all};
ghost use Rattle.xt_io.specs.Files.{KeepsFiles};
ghost use Rattle.doc_reader.specs.Fault.{HasReadCause};
ghost use Rattle.xt_io.specs.Loads.{HoldsBytes};
ghost use Rattle.module_loading.specs.Held.{HoldsModule, IsUnloadedAs, IsUnreadAs, StandsFor};

use crate::faults::SheetFault;
use doc_reader::{ReadFault, Scoped, read_scoped};
use std::alloc::Global;
use xt_io::{Files, LoadFault, load_file};
use xt_names::Text;

/// The bytes of a file.
fn load<F: Files>(alloc: Global, files: &mut F, name: &Text) -> Result<Vec<u8>, SheetFault>
    ensures held { IfOk result
        (λ bytes. HoldsBytes (F.state files.old).held (encode_utf8_all name.now) bytes.items) }
    ensures refused { IfErr result
        (IsUnloadedAs name.now (F.state files.old) (F.state files.new)) }
    ensures keeps { KeepsFiles (F.state files.old) (F.state files.new) }
{
    match load_file(alloc, files, name.as_str()) {
        Ok(bytes) => Ok(bytes),
        Err(LoadFault::Failed) => Err(SheetFault::Load(name.copy()?)),
        Err(LoadFault::TooLong(n)) => Err(SheetFault::TooLong(name.copy()?, n)),
        Err(LoadFault::Memory(e)) => Err(SheetFault::Memory(e)),
    }
}

/// What bytes stand for, with the namespace declarations.
fn read_bytes(alloc: Global, bytes: &[u8]) -> Result<Scoped, ReadFault>
    ensures stands { IfOk result (StandsFor bytes.now) }
    ensures refused { IfErr result (HasReadCause bytes.now) }
{
    match read_scoped(alloc, bytes) {
        Ok(scoped) => Ok(scoped),
        Err(fault) => Err(fault),
    }
}

/// What the text of a file stands for, with its namespace declarations.
pub(crate) fn read_file<F: Files>(
    alloc: Global,
    files: &mut F,
    name: &Text,
) -> Result<Scoped, SheetFault>
    ensures held { IfOk result (HoldsModule (F.state files.old).held name.now) }
    ensures refused { IfErr result (IsUnreadAs name.now (F.state files.old) (F.state files.new)) }
    ensures keeps { KeepsFiles (F.state files.old) (F.state files.new) }
{
    let bytes = load(alloc, files, name)?;
    match read_bytes(alloc, &bytes) {
        Ok(scoped) => Ok(scoped),
        Err(ReadFault::Bad(spot)) => Err(SheetFault::Malformed(name.copy()?, spot)),
        Err(ReadFault::Memory(e)) => Err(SheetFault::Memory(e)),
    }
}
