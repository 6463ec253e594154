// Why a text has no list of tokens.
ghost use Rattle.std.specs.Prelude.{◌≡◌};
ghost use Rattle.xpath_lex.specs.declared.faults.LexFault.TheVariants.{Memory};

use std::alloc::AllocError;
use thiserror::Error;

/// Why a text has no list of tokens.
#[derive(Debug, Drop, Error)]
pub enum LexFault {
    /// Something is at the byte, and no token begins there.
    #[error("no token begins at byte {0}")]
    BadToken(usize),
    /// Memory ran out.
    #[error("out of memory")]
    Memory(AllocError),
}

impl From<AllocError> for LexFault {
    ghost from_gives = { λ e fault. fault ≡ Memory e };

    fn from(e: AllocError) -> LexFault {
        LexFault::Memory(e)
    }
}
