// Trees with the next number.
ghost use Rattle.std.specs.Prelude.{◌≡◌};
ghost use Rattle.std.specs.Str.{chars};
ghost use Rattle.xt_tree.specs.declared.trees.Tree.{Tree};
ghost use Rattle.xt_tree.specs.declared.trees.Tree.TheVariants.{Attr as attribute_tree};
ghost use Rattle.xt_tree.specs.declared.trees.Tree.TheVariants.{Text as text_tree};
ghost use Rattle.node_builder.specs.Made.{Made, Gives};
ghost use Rattle.node_builder.specs.Trees.{numbered, element_of, document_of, comment_of, pi_of};
ghost use Rattle.node_builder.specs.Answers.{Builds};
ghost use Rattle.node_builder.specs.declared.kinds.Duplicates.TheVariants.{Refuse};
ghost use Rattle.expr_meaning.specs.Making.{made};
ghost use Rattle.eval_scopes.specs.Answers.{Answers};

use eval_scopes::EvalFault;
use eval_scopes::eval_values::one;
use node_builder::{BuildFault, Builder, Duplicates};
use std::alloc::Global;
use xdm_items::{Item, ItemList};
use xt_names::Name;
use xt_tree::Node;

/// The list of the node that was built, whose tree has used up the number.
fn listed(
    alloc: Global,
    next: &mut u64,
    builder: Builder,
    built: Result<Node, BuildFault>,
) -> Result<ItemList, EvalFault>
    ensures { (o : Made Tree) → Builds next.old builder.next built (numbered next.old o) →
        Answers result next.new (made o next.old) }
{
    let node = built?;
    *next = builder.next;
    Ok(one(alloc, Item::Node(node))?)
}

/// An element with these items as its content (XQuery 1.0, 3.7.3.1).
#[inline(never)]
pub fn make_element(
    alloc: Global,
    next: &mut u64,
    name: Name,
    content: &ItemList,
) -> Result<ItemList, EvalFault>
    ensures { Answers result next.new (made (element_of Refuse name content.now) next.old) }
{
    let mut builder = Builder { next: *next };
    let built = builder.element(alloc, name, content, Duplicates::Refuse);
    listed(alloc, next, builder, built)
}

/// A document with these items as its content (XQuery 1.0, 3.7.3.3).
#[inline(never)]
pub fn make_document(
    alloc: Global,
    next: &mut u64,
    content: &ItemList,
) -> Result<ItemList, EvalFault>
    ensures { Answers result next.new (made (document_of Refuse content.now) next.old) }
{
    let mut builder = Builder { next: *next };
    let built = builder.document(alloc, content, Duplicates::Refuse);
    listed(alloc, next, builder, built)
}

/// An attribute of that value (XQuery 1.0, 3.7.3.2).
#[inline(never)]
pub fn make_attribute(
    alloc: Global,
    next: &mut u64,
    name: Name,
    value: &str,
) -> Result<ItemList, EvalFault>
    ensures { Answers result next.new
        (made (Gives (attribute_tree name (chars value.now))) next.old) }
{
    let mut builder = Builder { next: *next };
    let built = builder.attribute(alloc, name, value);
    listed(alloc, next, builder, built)
}

/// A text node (XQuery 1.0, 3.7.3.4).
#[inline(never)]
pub fn make_text(alloc: Global, next: &mut u64, value: &str) -> Result<ItemList, EvalFault>
    ensures { Answers result next.new (made (Gives (text_tree (chars value.now))) next.old) }
{
    let mut builder = Builder { next: *next };
    let built = builder.text(alloc, value);
    listed(alloc, next, builder, built)
}

/// A comment; XQDY0072 where the text may not be in one (XQuery 1.0, 3.7.3.6).
#[inline(never)]
pub fn make_comment(alloc: Global, next: &mut u64, value: &str) -> Result<ItemList, EvalFault>
    ensures { Answers result next.new (made (comment_of (chars value.now)) next.old) }
{
    let mut builder = Builder { next: *next };
    let built = builder.comment(alloc, value);
    listed(alloc, next, builder, built)
}

/// A processing instruction; XQDY0026 where the text may not be in one (XQuery 1.0, 3.7.3.5).
#[inline(never)]
pub fn make_pi(
    alloc: Global,
    next: &mut u64,
    target: &str,
    value: &str,
) -> Result<ItemList, EvalFault>
    ensures { Answers result next.new (made (pi_of (chars target.now) (chars value.now)) next.old) }
{
    let mut builder = Builder { next: *next };
    let built = builder.pi(alloc, target, value);
    listed(alloc, next, builder, built)
}
