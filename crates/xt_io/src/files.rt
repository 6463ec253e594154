// Where files come from.
ghost use Rattle.std.specs.Prelude.{◌≡◌, ◌≤◌, ◌+◌, IfOk, IfErr, vec_len};
ghost use Rattle.xt_io.specs.declared.files.LoadFault.TheVariants.{Memory};

use std::alloc::{AllocError, Global};
use thiserror::Error;

/// Why a load was refused.
#[derive(Debug, Drop, Error)]
pub enum LoadFault {
    /// The file cannot be read, or is not there.
    #[error("the file cannot be read")]
    Failed,
    /// The file is longer than the limit of the load; it has at least this many bytes.
    #[error("the file has at least {0} bytes")]
    TooLong(u64),
    /// Memory ran out.
    #[error("out of memory")]
    Memory(AllocError),
}

impl From<AllocError> for LoadFault {
    ghost from_gives = { λ e fault. fault ≡ Memory e };

    fn from(e: AllocError) -> LoadFault {
        LoadFault::Memory(e)
    }
}

/// A source of files. It counts its failures and the bytes that it has read; both counts stop at 2^64-1.
pub trait Files {
    ghost use Rattle.xt_io.specs.Files.{FilesState, KeepsFiles, IsHeld, HasLoadCause};

    /// What the source holds, where it tells, how often it has failed, and how many bytes it has read.
    ghost state: { Self → FilesState };

    /// The bytes of a file, if there are at most `limit`.
    ///
    /// `Failed` comes only where the count of failures rose in this call, or where the source tells what it holds and
    /// does not hold the name. `TooLong(n)` comes only where `n` bytes were read, and `n` is past the limit. No load
    /// reads more than `limit + 1` bytes, and none changes what is held.
    fn load(&mut self, alloc: Global, name: &str, limit: u64) -> Result<Vec<u8>, LoadFault>
        ensures held { IfOk result (λ bytes. IsHeld (state self.old).held name.now bytes.items) }
        ensures within { IfOk result (λ bytes. vec_len bytes ≤ limit) }
        ensures refused { IfErr result (HasLoadCause (state self.old) (state self.new) name.now limit) }
        ensures keeps { KeepsFiles (state self.old) (state self.new) }
        ensures takes { (state self.new).taken ≤ (state self.old).taken + (limit + 1) };
}
