ghost use Rattle.std.specs.Prelude.{◌≡◌};
ghost use Rattle.node_builder.specs.declared.faults.BuildFault.TheVariants.{Memory};

use std::alloc::AllocError;
use thiserror::Error;
use xt_names::Code;

/// Why no node was made.
#[derive(Debug, Drop, Error)]
pub enum BuildFault {
    /// The error of XSLT 2.0 or XQuery 1.0, or that of a limit.
    #[error("{0:?}")]
    Error(Code),
    /// Memory ran out.
    #[error("out of memory")]
    Memory(AllocError),
}

impl From<AllocError> for BuildFault {
    ghost from_gives = { λ e fault. fault ≡ Memory e };

    fn from(e: AllocError) -> BuildFault {
        BuildFault::Memory(e)
    }
}
