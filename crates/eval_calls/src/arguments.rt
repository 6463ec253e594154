// What a function reads of the focus.
ghost use Rattle.std.specs.Prelude.{◌≡◌, IfOk};
ghost use Rattle.xt_atoms.specs.Casts.{Answers};
ghost use Rattle.xdm_items.specs.Values.{string_value_of};
ghost use Rattle.expr_meaning.specs.Calls.{from_focus, read_of_focus};
ghost use Rattle.eval_scopes.specs.Scopes.{focus_of, placed_at};
ghost use Rattle.eval_calls.specs.Reads.{reads, read_at};

use eval_scopes::Focus;
use eval_scopes::eval_values::{Place, one};
use function_table::Builtin;
use std::alloc::{AllocError, Global};
use xdm_items::function_arguments::{integer_list, text_list};
use xdm_items::{Item, ItemList};
use xt_atoms::{ValueFault, to_text};
use xt_names::{Code, DynamicCode, List, Text};

/// What a function reads of the focus where it is called without arguments.
#[derive(Clone, Copy)]
enum Read {
    Position,
    Size,
    Text,
    Item,
}

fn read_by(f: Builtin) -> Option<Read>
    ensures { reads result ≡ read_of_focus f }
{
    match f {
        Builtin::Position => Some(Read::Position),
        Builtin::Last => Some(Read::Size),
        Builtin::StringLength | Builtin::NormalizeSpace => Some(Read::Text),
        Builtin::String
        | Builtin::Name
        | Builtin::LocalName
        | Builtin::NamespaceUri
        | Builtin::Root => Some(Read::Item),
        _ => None,
    }
}

fn text_of_item(alloc: Global, item: &Item) -> Result<Text, AllocError>
    ensures { IfOk result (λ text. text ≡ string_value_of item.now) }
{
    match item {
        Item::Node(node) => node.string_value(alloc),
        Item::Atom(atom) => to_text(alloc, atom),
    }
}

fn read_at(
    alloc: Global,
    read: Read,
    item: &Item,
    position: Place,
    size: Place,
) -> Result<ItemList, AllocError>
    ensures { IfOk result (λ items. items ≡ read_at read (placed_at item.now position size)) }
{
    match read {
        Read::Position => integer_list(alloc, position.get()),
        Read::Size => integer_list(alloc, size.get()),
        Read::Text => text_list(alloc, text_of_item(alloc, item)?),
        Read::Item => one(alloc, item.copy()?),
    }
}

/// What the function reads of the focus, as its only argument, or no argument where it reads nothing.
/// XPDY0002 comes where it reads something and there is no focus.
pub(crate) fn read_of_focus(
    alloc: Global,
    f: Builtin,
    focus: &Focus,
) -> Result<List<ItemList>, ValueFault>
    ensures { Answers (from_focus (read_of_focus f) (focus_of focus.now)) result }
{
    let mut arguments = List::new(alloc);
    match read_by(f) {
        None => Ok(arguments),
        Some(read) => match focus {
            Focus::Absent => Err(ValueFault::Error(Code::Dynamic(DynamicCode::XPDY0002))),
            Focus::At {
                item,
                position,
                size,
            } => {
                arguments.push(read_at(alloc, read, item, *position, *size)?)?;
                Ok(arguments)
            }
        },
    }
}
