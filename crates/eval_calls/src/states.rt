// What a stylesheet adds, and where key() looks.
ghost use Rattle.std.specs.Prelude.{◌≡◌, ◌∷◌, [], IfOk};
ghost use Rattle.xt_atoms.specs.Casts.{Answers};
ghost use Rattle.expr_meaning.specs.Calls.{current_value, members_of, key_of, key_item, keyed_root, root_of_item, literal_text};
ghost use Rattle.eval_scopes.specs.Scopes.{focus_of, group_behind, item_behind};

use eval_scopes::eval_values::one;
use eval_scopes::{Focus, Group, document_of};
use expr_names::no_text;
use std::alloc::{AllocError, Global};
use xdm_items::function_arguments::{atom_list, no_items};
use xdm_items::{Item, ItemList, copy_item_list};
use xt_atoms::{Atom, ValueFault};
use xt_names::{Code, DynamicCode, SheetDynamicCode, Text};
use xt_tree::Node;

const NO_TREE: ValueFault = ValueFault::Error(Code::SheetDynamic(SheetDynamicCode::XTDE1270));

/// current(): the item with which the whole expression began (XSLT 2.0, 16.6.1); XPDY0002 where there
/// is none.
#[inline(never)]
pub fn current_item(alloc: Global, current: Option<&Item>) -> Result<ItemList, ValueFault>
    ensures { Answers (current_value (item_behind current.entry)) result }
{
    match current {
        None => Err(ValueFault::Error(Code::Dynamic(DynamicCode::XPDY0002))),
        Some(item) => Ok(one(alloc, item.copy()?)?),
    }
}

/// current-group() (XSLT 2.0, 14.1): empty outside of a group.
#[inline(never)]
pub fn group_members(alloc: Global, group: Option<&Group>) -> Result<ItemList, AllocError>
    ensures { IfOk result (λ items. items ≡ members_of (group_behind group.entry)) }
{
    match group {
        None => Ok(no_items(alloc)),
        Some(group) => copy_item_list(group.members),
    }
}

/// current-grouping-key() (XSLT 2.0, 14.2): empty outside of a group and where the group has none.
#[inline(never)]
pub fn group_key(alloc: Global, group: Option<&Group>) -> Result<ItemList, AllocError>
    ensures { IfOk result (λ items. items ≡ key_of (group_behind group.entry)) }
{
    match group {
        None => Ok(no_items(alloc)),
        Some(group) => match group.key {
            None => Ok(no_items(alloc)),
            Some(key) => atom_list(alloc, key.copy()?),
        },
    }
}

fn root_of_item(alloc: Global, item: &Item) -> Result<Node, ValueFault>
    ensures { Answers (root_of_item item.now) result }
{
    match item {
        Item::Atom(_) => Err(NO_TREE),
        Item::Node(node) => {
            match document_of(alloc, node)? {
                Some(root) => Ok(root),
                None => Err(NO_TREE),
            }
        }
    }
}

/// The root of the tree in which key() looks: that of the context node, which is a document; XTDE1270
/// where there is none (XSLT 2.0, 16.3.1).
#[inline(never)]
pub fn key_root(alloc: Global, focus: &Focus) -> Result<Node, ValueFault>
    ensures { Answers (keyed_root (focus_of focus.now)) result }
{
    match focus {
        Focus::Absent => Err(NO_TREE),
        Focus::At { item, .. } => root_of_item(alloc, item),
    }
}

fn literal(alloc: Global, item: &Item) -> Result<Text, AllocError>
    ensures { IfOk result (λ name. name ≡ literal_text (item.now ∷ [])) }
{
    match item {
        Item::Atom(Atom::Str(text)) => text.copy(),
        Item::Atom(Atom::Untyped(_) | Atom::Int(_) | Atom::Bool(_) | Atom::QName(_))
        | Item::Node(_) => no_text(alloc),
    }
}

/// The name in the first argument of key(), which is a literal (XSLT 2.0, 16.3.1).
#[inline(never)]
pub fn key_name(alloc: Global, argument: &ItemList) -> Result<Text, AllocError>
    ensures { IfOk result (λ name. name ≡ literal_text argument.now) }
{
    match argument.as_slice() {
        [] => no_text(alloc),
        [only] => literal(alloc, only),
        [_, _, ..] => no_text(alloc),
    }
}
