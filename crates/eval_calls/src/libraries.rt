// Calls of the library.
ghost use Rattle.xt_atoms.specs.Casts.{Answers};
ghost use Rattle.expr_meaning.specs.Calls.{library_value};
ghost use Rattle.eval_scopes.specs.Scopes.{focus_of};

use crate::arguments::read_of_focus;
use eval_scopes::Focus;
use fn_lib::call;
use function_table::Builtin;
use std::alloc::Global;
use xdm_items::ItemList;
use xt_atoms::ValueFault;

/// What a function of the library gives of its arguments; where it has none, of what it reads of the
/// focus (XQuery 1.0 and XPath 2.0 Functions and Operators).
#[inline(never)]
pub fn call_library(
    alloc: Global,
    f: Builtin,
    focus: &Focus,
    arguments: &[ItemList],
) -> Result<ItemList, ValueFault>
    ensures { Answers (library_value f (focus_of focus.now) arguments.now) result }
{
    match arguments {
        [] => {
            let read = read_of_focus(alloc, f, focus)?;
            call(alloc, f, read.as_slice())
        }
        [_, ..] => call(alloc, f, arguments),
    }
}
