// The content of direct elements.
ghost use Rattle.std.specs.Prelude.{◌≡◌, ◌++◌, ◌∷◌, List as Lists, IfOk, OnOk};
ghost use Rattle.xdm_items.specs.declared.items.Item.{Item as AnItem};
ghost use Rattle.xt_tree.specs.declared.trees.Tree.TheVariants.{Attr as attribute_tree};
ghost use Rattle.xt_tree.specs.declared.trees.Tree.TheVariants.{Text as text_tree};
ghost use Rattle.expr_meaning.specs.Making.{literal_node, joined_atoms, joined_behind};
ghost use Rattle.expr_meaning.specs.Making.{with_text, text_item};

use std::alloc::{AllocError, Global};
use xdm_items::{Item, ItemList};
use xt_atoms::to_text;
use xt_names::{Name, Text, TextBuilder};
use xt_tree::{Node, Tree};

/// Literal characters of a direct element, as a text node (XQuery 1.0, 3.7.1.3).
#[inline(never)]
pub fn text_node(alloc: Global, text: Text) -> Result<Item, AllocError>
    ensures { IfOk result (λ item. item ≡ literal_node (text_tree text)) }
{
    Ok(Item::Node(Node::root_of(alloc, 0, Tree::Text(text))?))
}

/// An attribute of a direct element (XQuery 1.0, 3.7.1.1).
pub fn attribute_node(alloc: Global, name: Name, value: Text) -> Result<Item, AllocError>
    ensures { IfOk result (λ item. item ≡ literal_node (attribute_tree name value)) }
{
    Ok(Item::Node(Node::root_of(alloc, 0, Tree::Attr(name, value))?))
}

/// The text of the run with that of one more atom.
fn with_text(
    alloc: Global,
    run: Option<TextBuilder>,
    text: &Text,
) -> Result<Option<TextBuilder>, AllocError>
    ensures { IfOk result (λ more. more ≡ with_text run text.now) }
{
    match run {
        None => {
            let mut begun = TextBuilder::new(alloc);
            begun.push_text(text)?;
            Ok(Some(begun))
        }
        Some(mut run) => {
            run.push(' ')?;
            run.push_text(text)?;
            Ok(Some(run))
        }
    }
}

/// Puts the text node of a run at the end, if there is one.
fn close(alloc: Global, made: &mut ItemList, run: Option<TextBuilder>) -> Result<(), AllocError>
    ensures { OnOk result (made.new ≡ made.old ++ text_item run) }
{
    match run {
        None => Ok(()),
        Some(run) => made.push(text_node(alloc, run.finish()?)?),
    }
}

/// Takes one more item; what is answered is the run after it.
fn take(
    alloc: Global,
    made: &mut ItemList,
    run: Option<TextBuilder>,
    item: &Item,
) -> Result<Option<TextBuilder>, AllocError>
    ensures { IfOk result (λ left. (rest : Lists AnItem) → made.new ++ joined_behind left rest
        ≡ made.old ++ joined_behind run (item.now ∷ rest)) }
{
    match item {
        Item::Atom(atom) => {
            let text = to_text(alloc, atom)?;
            with_text(alloc, run, &text)
        }
        Item::Node(node) => {
            close(alloc, made, run)?;
            made.push(Item::Node(node.copy()?))?;
            Ok(None)
        }
    }
}

/// The items, with each longest run of atoms as one text node, in which a space is between the
/// atoms (XQuery 1.0, 3.7.1.3).
#[tactic(auto, unfolding(expr_meaning::specs::Making::joined_atoms))]
#[inline(never)]
pub fn joined_atoms(alloc: Global, items: &ItemList) -> Result<ItemList, AllocError>
    ensures { IfOk result (λ made. made ≡ joined_atoms items.now) }
{
    let mut made = ItemList::new(alloc);
    let mut run = None;
    for item in items.as_slice() {
        run = take(alloc, &mut made, run, item)?;
    }
    close(alloc, &mut made, run)?;
    Ok(made)
}
