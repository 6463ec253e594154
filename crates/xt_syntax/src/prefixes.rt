// What parsers of both languages take and answer.
ghost use Rattle.std.specs.Prelude.{◌≡◌};
ghost use Rattle.xt_syntax.specs.declared.prefixes.ParseFault.TheVariants.{Memory};

use bound_prefixes::BoundPrefixes;
use std::alloc::AllocError;
use thiserror::Error;
use xt_names::{Code, Text};

/// How prefixes and names without prefix are resolved (XPath 2.0, 2.1.1).
#[derive(Drop)]
pub struct Prefixes {
    /// The prefixes with their uris.
    pub bound: BoundPrefixes,
    /// The uri of elements without prefix.
    pub element_default: Text,
    /// The uri of functions without prefix.
    pub function_default: Text,
}

/// Why a text was not parsed.
#[derive(Debug, Drop, Error)]
pub enum ParseFault {
    #[error("the text is no expression, pattern or query")]
    Syntax,
    #[error("the text breaks a static rule")]
    Static(Code),
    #[error("the text nests too deeply")]
    TooDeep,
    #[error("out of memory")]
    Memory(AllocError),
}

impl From<AllocError> for ParseFault {
    ghost from_gives = { λ e fault. fault ≡ Memory e };

    fn from(e: AllocError) -> ParseFault {
        ParseFault::Memory(e)
    }
}
