// A file that is loaded whole, within the limit of the program.
ghost use Rattle.std.specs.Prelude.{IfOk, IfErr};
ghost use Rattle.xt_io.specs.Files.{KeepsFiles};
ghost use Rattle.xt_io.specs.Loads.{HoldsBytes, IsUnloaded};

use crate::files::{Files, LoadFault};
use std::alloc::Global;

/// The greatest number of bytes of a file that is loaded.
const FILE_LIMIT: u64 = 67_108_864;

/// The bytes of a file, if there are at most 67,108,864.
pub fn load_file<F: Files>(alloc: Global, files: &mut F, name: &str) -> Result<Vec<u8>, LoadFault>
    ensures held { IfOk result (λ bytes. HoldsBytes (F.state files.old).held name.now bytes.items) }
    ensures refused { IfErr result (IsUnloaded name.now (F.state files.old) (F.state files.new)) }
    ensures keeps { KeepsFiles (F.state files.old) (F.state files.new) }
{
    files.load(alloc, name, FILE_LIMIT)
}
