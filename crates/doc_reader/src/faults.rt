// Why a text is refused.
ghost use Rattle.doc_reader.specs.declared.faults.ReadFault.TheVariants.{Memory};
ghost use Rattle.std.specs.Prelude.{◌≡◌};

use doc_grammar::Spot;
use std::alloc::AllocError;
use thiserror::Error;

/// Why a text was not read.
#[derive(Debug, Drop, Error)]
pub enum ReadFault {
    #[error("the text is no document")]
    Bad(Spot),
    #[error("out of memory")]
    Memory(AllocError),
}

impl From<AllocError> for ReadFault {
    ghost from_gives = { λ e fault. fault ≡ Memory e };

    fn from(e: AllocError) -> ReadFault {
        ReadFault::Memory(e)
    }
}
