ghost use Rattle.std.specs.Prelude.{◌≡◌, IfOk};

use std::alloc::AllocError;
use xt_names::Shared;

/// The same value, where there is one.
pub fn copy_shared_option<T: Drop>(
    value: &Option<Shared<T>>,
) -> Result<Option<Shared<T>>, AllocError>
    ensures { IfOk result (λ copy. copy ≡ value.now) }
{
    match value {
        None => Ok(None),
        Some(value) => Ok(Some(value.copy()?)),
    }
}
