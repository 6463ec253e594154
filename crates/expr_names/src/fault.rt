ghost use Rattle.std.specs.Prelude.{◌≡◌};
ghost use Rattle.xt_names.specs.declared.codes.Code.TheVariants.{QueryStatic};
ghost use Rattle.expr_names.specs.declared.fault.ResolveFault.TheVariants.{Static, Memory};

use std::alloc::AllocError;
use thiserror::Error;
use xt_names::{Code, QueryStaticCode};

/// Why something that is written was not resolved.
#[derive(Debug, Drop, Error)]
pub enum ResolveFault {
    #[error("a static rule is broken")]
    Static(Code),
    #[error("out of memory")]
    Memory(AllocError),
}

impl From<AllocError> for ResolveFault {
    ghost from_gives = { λ e fault. fault ≡ Memory e };

    fn from(e: AllocError) -> ResolveFault {
        ResolveFault::Memory(e)
    }
}

/// The fault of a broken rule of expressions or queries.
pub fn static_fault(code: QueryStaticCode) -> ResolveFault
    ensures { result ≡ Static (QueryStatic code) }
{
    ResolveFault::Static(Code::QueryStatic(code))
}
