// Files that are loaded and read.
ghost use Rattle.std.specs.Prelude.{◌≡◌, IfOk, IfErr};
ghost use Rattle.std.specs.Str.{encode_utf8_all};
ghost use Rattle.xt_io.specs.Files.{KeepsFiles};
ghost use Rattle.xt_io.specs.Loads.{HoldsBytes};
ghost use Rattle.run_parts.specs.Inputs.{HoldsDocument, IsUnloadedAs, IsReadRefusedAs};

use crate::status::Status;
use doc_reader::{ReadFault, read};
use std::alloc::Global;
use xt_io::{Files, LoadFault, load_file};
use xt_names::Text;
use xt_tree::Tree;

/// The bytes of a file.
pub fn load<F: Files>(alloc: Global, name: &str, files: &mut F) -> Result<Vec<u8>, Status>
    ensures held { IfOk result (λ bytes. HoldsBytes (F.state files.old).held name.now bytes.items) }
    ensures refused { IfErr result
        (IsUnloadedAs name.now (F.state files.old) (F.state files.new)) }
    ensures keeps { KeepsFiles (F.state files.old) (F.state files.new) }
{
    match load_file(alloc, files, name) {
        Ok(bytes) => Ok(bytes),
        Err(LoadFault::Failed) => Err(Status::Load(file_name(alloc, name)?)),
        Err(LoadFault::TooLong(n)) => Err(Status::TooLong(file_name(alloc, name)?, n)),
        Err(LoadFault::Memory(_)) => Err(Status::Memory),
    }
}

fn file_name(alloc: Global, name: &str) -> Result<Text, Status>
    ensures named { IfOk result (λ text. encode_utf8_all text ≡ name.now) }
    ensures refused { IfErr result (λ status. status ≡ Status.Memory) }
{
    match Text::make(alloc, name) {
        Ok(text) => Ok(text),
        Err(_) => Err(Status::Memory),
    }
}

/// The tree of the document in a file.
pub fn load_document<F: Files>(alloc: Global, name: &str, files: &mut F) -> Result<Tree, Status>
    ensures document { IfOk result (λ tree. HoldsDocument (F.state files.old).held name.now tree) }
    ensures refused { IfErr result
        (IsReadRefusedAs name.now (F.state files.old) (F.state files.new)) }
    ensures keeps { KeepsFiles (F.state files.old) (F.state files.new) }
{
    let bytes = load(alloc, name, files)?;
    match read(alloc, &bytes) {
        Ok(tree) => Ok(tree),
        Err(ReadFault::Bad(spot)) => Err(Status::Malformed(file_name(alloc, name)?, spot)),
        Err(ReadFault::Memory(_)) => Err(Status::Memory),
    }
}
