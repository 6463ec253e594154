// Why a stylesheet is not loaded.
ghost use Rattle.std.specs.Prelude.{◌≡◌};
ghost use Rattle.module_loading.specs.declared.faults.SheetFault.TheVariants.{Memory};

use doc_grammar::Spot;
use std::alloc::AllocError;
use xt_names::{Code, Text};

/// Why a stylesheet is not loaded. A name is that of the module that was asked for.
#[derive(Drop)]
pub enum SheetFault {
    /// The module cannot be loaded.
    Load(Text),
    /// The module has at least so many bytes, which are too many.
    TooLong(Text, u64),
    /// The module is no document, which shows there.
    Malformed(Text, Spot),
    /// A static error of the stylesheet (XSLT 2.0, 2.9).
    Static(Code),
    /// Memory ran out.
    Memory(AllocError),
}

impl From<AllocError> for SheetFault {
    ghost from_gives = { λ e fault. fault ≡ Memory e };

    fn from(e: AllocError) -> SheetFault {
        SheetFault::Memory(e)
    }
}
