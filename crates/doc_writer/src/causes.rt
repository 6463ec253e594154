ghost use Rattle.std.specs.Prelude.{◌≡◌};
ghost use Rattle.doc_writer.specs.declared.causes.WriteRefusal.TheVariants.{Memory};

use std::alloc::AllocError;
use thiserror::Error;
use xt_names::Code;

/// Why a tree was not written.
#[derive(Debug, Drop, Error)]
pub enum WriteRefusal {
    /// SENR0001: an attribute stands where only other nodes have a text.
    #[error("the tree has no text")]
    Code(Code),
    #[error("out of memory")]
    Memory(AllocError),
}

impl From<AllocError> for WriteRefusal {
    ghost from_gives = { λ e refusal. refusal ≡ Memory e };

    fn from(e: AllocError) -> WriteRefusal {
        WriteRefusal::Memory(e)
    }
}
