// Why an evaluation has no value.
ghost use Rattle.std.specs.Prelude.{◌≡◌};
ghost use Rattle.eval_scopes.specs.declared.faults.EvalFault.TheVariants.{Error, Memory};
ghost use Rattle.eval_scopes.specs.Faults.{of_value_fault, of_build_fault};

use node_builder::BuildFault;
use std::alloc::AllocError;
use thiserror::Error;
use xt_atoms::ValueFault;
use xt_names::Code;

/// Why there is no value.
#[derive(Debug, Drop, Error)]
pub enum EvalFault {
    /// The error of XPath 2.0, XQuery 1.0 or XSLT 2.0, or that of a limit.
    #[error("{0:?}")]
    Error(Code),
    /// More calls are open than the depth allows.
    #[error("too many open calls")]
    Deep,
    /// Memory ran out.
    #[error("out of memory")]
    Memory(AllocError),
}

impl From<AllocError> for EvalFault {
    ghost from_gives = { λ e fault. fault ≡ Memory e };

    fn from(e: AllocError) -> EvalFault {
        EvalFault::Memory(e)
    }
}

impl From<Code> for EvalFault {
    ghost from_gives = { λ code fault. fault ≡ Error code };

    fn from(code: Code) -> EvalFault {
        EvalFault::Error(code)
    }
}

impl From<ValueFault> for EvalFault {
    ghost from_gives = { λ from fault. fault ≡ of_value_fault from };

    fn from(from: ValueFault) -> EvalFault {
        match from {
            ValueFault::Error(code) => EvalFault::Error(code),
            ValueFault::Memory(e) => EvalFault::Memory(e),
        }
    }
}

impl From<BuildFault> for EvalFault {
    ghost from_gives = { λ from fault. fault ≡ of_build_fault from };

    fn from(from: BuildFault) -> EvalFault {
        match from {
            BuildFault::Error(code) => EvalFault::Error(code),
            BuildFault::Memory(e) => EvalFault::Memory(e),
        }
    }
}
