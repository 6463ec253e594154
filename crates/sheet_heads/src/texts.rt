// The characters of xsl:text.
ghost use Rattle.std.specs.Prelude.{◌≡◌, ◌++◌, OnOk, IfOk};
ghost use Rattle.expr_names.specs.Answers.{Answers};
ghost use Rattle.sheet_heads.specs.Characters.{node_faults, node_characters};
ghost use Rattle.sheet_heads.specs.Characters.{characters_faults, characters_value};

use expr_names::ResolveFault;
use sheet_table::sheet_nodes::{Node, misplaced_node};
use std::alloc::{AllocError, Global};
use xt_names::{Text, TextBuilder};

#[tactic(auto, unfolding(crate::specs::Characters::node_faults))]
fn check_text(node: &Node) -> Result<(), ResolveFault>
    ensures { Answers result (node_faults node.now) tt }
{
    match node {
        Node::Elem(_, _, _, _) => Err(ResolveFault::Static(misplaced_node(node))),
        Node::Chars(_) => Ok(()),
    }
}

#[tactic(auto, unfolding(crate::specs::Characters::node_characters))]
fn push_text(made: &mut TextBuilder, node: &Node) -> Result<(), AllocError>
    ensures { OnOk result (made.new ≡ made.old ++ node_characters node.now) }
{
    match node {
        Node::Elem(_, _, _, _) => Ok(()),
        Node::Chars(text) => made.push_text(text),
    }
}

fn check_texts(nodes: &[Node]) -> Result<(), ResolveFault>
    ensures { Answers result (characters_faults nodes.now) tt }
{
    let mut left = nodes;
    while let [node, rest @ ..] = left {
        check_text(node)?;
        left = rest;
    }
    Ok(())
}

fn joined(alloc: Global, nodes: &[Node]) -> Result<Text, AllocError>
    ensures { IfOk result (λ text. text ≡ characters_value nodes.now) }
{
    let mut made = TextBuilder::new(alloc);
    let mut left = nodes;
    while let [node, rest @ ..] = left {
        push_text(&mut made, node)?;
        left = rest;
    }
    made.finish()
}

/// The characters that the content of `xsl:text` is (XSLT 2.0, 11.4.2). An element in it breaks
/// XTUN0001 where it is one of XSLT that is left out, and else XTSE0010.
pub fn characters(alloc: Global, nodes: &[Node]) -> Result<Text, ResolveFault>
    ensures { Answers result (characters_faults nodes.now) (characters_value nodes.now) }
{
    check_texts(nodes)?;
    let text = joined(alloc, nodes)?;
    Ok(text)
}
