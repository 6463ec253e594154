ghost use Rattle.std.specs.Prelude.{◌≡◌, IfOk, IfErr, Some};
ghost use Rattle.doc_writer.specs.Causes.{HasCause, Joins};
ghost use Rattle.doc_writer.specs.WrittenItems.{joined_document, written_items, written_items_bare};

use crate::causes::WriteRefusal;
use crate::writers::{write_tree, write_tree_bare};
use node_builder::{BuildFault, Duplicates, Holder, content_of};
use std::alloc::Global;
use xdm_items::ItemList;
use xt_names::{Code, DynamicCode};
use xt_tree::{Kids, Tree};

/// The bytes of the items: they are joined as the content of a document, without a limit of levels or size, and this is
/// written (XSLT 2.0 and XQuery 1.0 Serialization, 2). It is refused with SENR0001 exactly where there is an attribute.
pub fn write_items(alloc: Global, items: &ItemList) -> Result<Vec<u8>, WriteRefusal>
    ensures written { IfOk result (λ bytes. written_items items.now ≡ Some bytes.items) }
    ensures refused { IfErr result (HasCause (written_items items.now)) }
{
    let document = join(alloc, items)?;
    write_tree(alloc, &document)
}

/// The same without the XML declaration.
pub fn write_items_bare(alloc: Global, items: &ItemList) -> Result<Vec<u8>, WriteRefusal>
    ensures written { IfOk result (λ bytes. written_items_bare items.now ≡ Some bytes.items) }
    ensures refused { IfErr result (HasCause (written_items_bare items.now)) }
{
    let document = join(alloc, items)?;
    write_tree_bare(alloc, &document)
}

/// The document of the items.
fn join(alloc: Global, items: &ItemList) -> Result<Tree, WriteRefusal>
    ensures { Joins result (joined_document items.now) }
{
    match content_of(alloc, Duplicates::Refuse, Holder::Document, items) {
        Ok(content) => {
            let kids = Kids::make(alloc, content.kids)?;
            Ok(Tree::Doc(kids))
        }
        Err(BuildFault::Error(_)) => Err(WriteRefusal::Code(Code::Dynamic(DynamicCode::SENR0001))),
        Err(BuildFault::Memory(e)) => Err(WriteRefusal::Memory(e)),
    }
}
