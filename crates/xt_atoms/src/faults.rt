ghost use Rattle.std.specs.Prelude.{◌≡◌};
ghost use Rattle.xt_atoms.specs.declared.faults.ValueFault.TheVariants.{Memory};

use std::alloc::AllocError;
use thiserror::Error;
use xt_names::Code;

/// Why there is no value.
#[derive(Debug, Drop, Error)]
pub enum ValueFault {
    /// The error of XPath 2.0.
    #[error("{0:?}")]
    Error(Code),
    /// Memory ran out.
    #[error("out of memory")]
    Memory(AllocError),
}

impl From<AllocError> for ValueFault {
    ghost from_gives = { λ e fault. fault ≡ Memory e };

    fn from(e: AllocError) -> ValueFault {
        ValueFault::Memory(e)
    }
}
