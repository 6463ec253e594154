ghost use Rattle.std.specs.Prelude.{◌≡◌, IfOk};
ghost use Rattle.name_rules.specs.Scopes.{param_names};

use std::alloc::AllocError;
use xt_names::{ExprName, List};
use xt_syntax::QueryParam;

/// The names of the parameters, in order.
pub fn param_names(params: &List<QueryParam>) -> Result<List<ExprName>, AllocError>
    ensures { IfOk result (λ names. names ≡ param_names params.now) }
{
    let mut names = List::new(params.allocator());
    for param in params.as_slice() {
        names.push(param.name.copy()?)?;
    }
    Ok(names)
}
