// The content of an element, part by part.
ghost use Rattle.std.specs.Prelude.{◌≡◌, ◌≤◌, length, take, drop};
ghost use Rattle.expr_names.specs.Answers.{Answers};
ghost use Rattle.sheet_table.specs.SheetNodes.Parts.{xsl_of, is_lead, leading, behind};
ghost use Rattle.sheet_table.specs.SheetNodes.Parts.{is_sort, is_with_param, is_variable, misplaced_node, none_faults};
ghost use Rattle.xt_names.specs.declared.codes.Code.TheVariants.{SheetStatic};

use crate::sheet_nodes::nodes::Node;
use crate::{Content, XslElement, leads, misplaced, xsl_element};
use expr_names::ResolveFault;
use xt_names::{Code, SheetStaticCode};

/// The element of XSLT that the node is (XSLT 2.0, appendix D).
#[tactic(auto, unfolding(crate::specs::SheetNodes::Parts::xsl_of))]
pub fn xsl_of(node: &Node) -> Option<XslElement>
    ensures { result ≡ xsl_of node.now }
{
    match node {
        Node::Elem(_, name, _, _) => xsl_element(name),
        Node::Chars(_) => None,
    }
}

#[tactic(auto, unfolding(crate::specs::SheetNodes::Parts::is_lead))]
fn is_lead(content: Content, node: &Node) -> bool
    ensures { result ≡ is_lead content node.now }
{
    leads(content, xsl_of(node))
}

/// The nodes that stand at the front of such content, and those after them (XSLT 2.0, appendix D).
pub fn split_front<'a>(content: Content, nodes: &'a [Node]) -> (&'a [Node], &'a [Node])
    ensures front { result.0.now ≡ leading (is_lead content) nodes.now }
    ensures rest { result.1.now ≡ behind (is_lead content) nodes.now }
{
    let count = count_front(content, nodes);
    (&nodes[..count], &nodes[count..])
}

fn count_front(content: Content, nodes: &[Node]) -> usize
    ensures inside { result ≤ length nodes.now }
    ensures front { take result nodes.now ≡ leading (is_lead content) nodes.now }
    ensures rest { drop result nodes.now ≡ behind (is_lead content) nodes.now }
{
    for i in 0..nodes.len() {
        if !is_lead(content, &nodes[i]) {
            return i;
        }
    }
    nodes.len()
}

/// Whether the node is `xsl:sort` (XSLT 2.0, 13.1).
#[tactic(auto, unfolding(crate::specs::SheetNodes::Parts::is_sort))]
pub fn is_sort(node: &Node) -> bool
    ensures { result ≡ is_sort node.now }
{
    matches!(xsl_of(node), Some(XslElement::Sort))
}

/// Whether the node is `xsl:with-param` (XSLT 2.0, 10.1.1).
#[tactic(auto, unfolding(crate::specs::SheetNodes::Parts::is_with_param))]
pub fn is_with_param(node: &Node) -> bool
    ensures { result ≡ is_with_param node.now }
{
    matches!(xsl_of(node), Some(XslElement::WithParam))
}

/// Whether the node is `xsl:variable` (XSLT 2.0, 9.1).
#[tactic(auto, unfolding(crate::specs::SheetNodes::Parts::is_variable))]
pub fn is_variable(node: &Node) -> bool
    ensures { result ≡ is_variable node.now }
{
    matches!(xsl_of(node), Some(XslElement::Variable))
}

/// The code of a node that stands where it may not: XTUN0001 of an element that is left out, and
/// else XTSE0010 (XSLT 2.0, 2.2).
#[tactic(auto, unfolding(crate::specs::SheetNodes::Parts::misplaced_node))]
pub fn misplaced_node(node: &Node) -> Code
    ensures { result ≡ SheetStatic (misplaced_node node.now) }
{
    match node {
        Node::Elem(_, name, _, _) => misplaced(name),
        Node::Chars(_) => Code::SheetStatic(SheetStaticCode::XTSE0010),
    }
}

/// Refuses nodes where none may stand, by the first of them (XSLT 2.0, 2.2).
pub fn check_none(nodes: &[Node]) -> Result<(), ResolveFault>
    ensures { Answers result (none_faults nodes.now) tt }
{
    match nodes {
        [] => Ok(()),
        [node, ..] => Err(ResolveFault::Static(misplaced_node(node))),
    }
}
