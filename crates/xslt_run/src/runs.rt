// The evaluator: one function for each form.
ghost use Rattle.std.specs.Prelude.{◌≡◌, [], IfOk, IfErr, true};
ghost use Rattle.xt_tree.specs.declared.trees.Tree.TheVariants.{Doc as a_document, Elem as an_element};
ghost use Rattle.xt_tree.specs.TreeView.{forest_of};
ghost use Rattle.sheet_meaning.specs.First.{is_first_sheet};
ghost use Rattle.sheet_meaning.specs.Outcome.{Ends};
ghost use Rattle.sheet_meaning.specs.Meaning.{entered, built_in, applied, constructed, limited, listed, transform_meaning};
ghost use Rattle.xslt_run.specs.Answers.{Grows, Makes, HasEvalCause};
ghost use Rattle.xslt_run.specs.Content.{built, grown, all_of, instructed, literal_of};
ghost use Rattle.xslt_run.specs.Table.{rule_for};

use crate::contents::Content;
use crate::rules::{Rules, rules_of};
use eval_scopes::EvalFault;
use std::alloc::Global;
use xt_names::{Code, DynamicCode, List, Name, is_in_xslt};
use xt_tree::{Attrs, Tree, is_white};

/// What the stylesheet makes of the document (XSLT 2.0, 2.4), with at most `depth` rules open at once.
pub fn run_first_sheet(
    alloc: Global,
    sheet: &Tree,
    document: &Tree,
    depth: u32,
) -> Result<Tree, EvalFault>
    requires sheet { is_first_sheet sheet.now ≡ true }
    ensures found { IfOk result (λ tree. transform_meaning sheet.now document.now depth ≡ Ends tree) }
    ensures refused { IfErr result (HasEvalCause sheet.now document.now depth) }
{
    let rules = rules_of(alloc, sheet)?;
    let mut content = Content::new(alloc);
    enter(alloc, &rules, depth, document, &mut content)?;
    make_document(alloc, content)
}

/// Runs the best rule of a node, with so many calls left.
#[cycle(run)]
fn enter(
    alloc: Global,
    rules: &Rules,
    depth: u32,
    node: &Tree,
    out: &mut Content,
) -> Result<(), EvalFault>
    ensures { Grows result (built out.new) (grown (built out.old) (entered (rule_for rules.now) depth node.now)) }
{
    if depth == 0 {
        return Err(EvalFault::Deep);
    }
    match rules.find(node) {
        Some(content) => construct(
            alloc,
            rules,
            depth - 1,
            node.kids(),
            content.as_slice(),
            out,
        ),
        None => run_built_in(alloc, rules, depth - 1, node, out),
    }
}

/// Runs the built-in rule of a node.
#[cycle(run)]
fn run_built_in(
    alloc: Global,
    rules: &Rules,
    depth: u32,
    node: &Tree,
    out: &mut Content,
) -> Result<(), EvalFault>
    ensures { Grows result (built out.new) (grown (built out.old) (built_in (entered (rule_for rules.now) depth) node.now)) }
{
    match node {
        Tree::Doc(kids) | Tree::Elem(_, _, kids) => apply(
            alloc,
            rules,
            depth,
            kids.as_slice(),
            out,
        ),
        Tree::Text(text) | Tree::Attr(_, text) => {
            out.push_text(alloc, text)?;
            Ok(())
        }
        Tree::Comment(_) | Tree::Pi(_, _) => Ok(()),
    }
}

/// Enters nodes in turn.
#[cycle(run)]
fn apply(
    alloc: Global,
    rules: &Rules,
    depth: u32,
    nodes: &[Tree],
    out: &mut Content,
) -> Result<(), EvalFault>
    ensures { Grows result (built out.new) (grown (built out.old) (applied (entered (rule_for rules.now) depth) nodes.now)) }
{
    for node in nodes {
        enter(alloc, rules, depth, node, out)?;
    }
    Ok(())
}

/// Runs a sequence constructor, where the focus has these children.
#[cycle(run)]
fn construct(
    alloc: Global,
    rules: &Rules,
    depth: u32,
    kids: &[Tree],
    parts: &[Tree],
    out: &mut Content,
) -> Result<(), EvalFault>
    ensures { Grows result (built out.new) (grown (built out.old) (constructed (entered (rule_for rules.now) depth) kids.now (forest_of parts.now))) }
{
    for part in parts {
        instruct(alloc, rules, depth, kids, part, out)?;
    }
    Ok(())
}

/// Runs one part of a sequence constructor.
#[cycle(run)]
fn instruct(
    alloc: Global,
    rules: &Rules,
    depth: u32,
    kids: &[Tree],
    part: &Tree,
    out: &mut Content,
) -> Result<(), EvalFault>
    ensures { Grows result (built out.new) (grown (built out.old) (instructed (entered (rule_for rules.now) depth) kids.now part.now)) }
{
    match part {
        Tree::Elem(name, _, inside) => {
            if is_in_xslt(name) {
                apply(alloc, rules, depth, kids, out)
            } else {
                construct_element(alloc, rules, depth, kids, name, inside.as_slice(), out)
            }
        }
        Tree::Text(text) => {
            if !is_white(text) {
                out.push_text(alloc, text)?;
            }
            Ok(())
        }
        _ => Ok(()),
    }
}

/// Makes a literal element.
#[cycle(run)]
fn construct_element(
    alloc: Global,
    rules: &Rules,
    depth: u32,
    kids: &[Tree],
    name: &Name,
    inside: &[Tree],
    out: &mut Content,
) -> Result<(), EvalFault>
    ensures { Grows result (built out.new) (grown (built out.old) (literal_of (entered (rule_for rules.now) depth) kids.now name.now (forest_of inside.now))) }
{
    let mut content = Content::new(alloc);
    construct(alloc, rules, depth, kids, inside, &mut content)?;
    close_element(alloc, name, content, out)
}

/// Puts an element of this content at the end. A function of its own, so that `construct_element`, which calls itself once for
/// each level of nesting, keeps a small frame on the machine's stack.
#[inline(never)]
fn close_element(
    alloc: Global,
    name: &Name,
    content: Content,
    out: &mut Content,
) -> Result<(), EvalFault>
    ensures { Grows result (built out.new) (grown (built out.old) (listed (limited (an_element name.now [] (forest_of (all_of (built content))))))) }
{
    let tree = make_element(alloc, name, content)?;
    out.push_tree(tree)?;
    Ok(())
}

fn make_element(alloc: Global, name: &Name, content: Content) -> Result<Tree, EvalFault>
    ensures { Makes result (limited (an_element name.now [] (forest_of (all_of (built content))))) }
{
    let attributes = Attrs::make(alloc, List::new(alloc))?;
    let kids = content.finish(alloc)?;
    limit(Tree::Elem(name.copy()?, attributes, kids))
}

fn make_document(alloc: Global, content: Content) -> Result<Tree, EvalFault>
    ensures { Makes result (limited (a_document (forest_of (all_of (built content))))) }
{
    let kids = content.finish(alloc)?;
    limit(Tree::Doc(kids))
}

/// The tree, unless it is past the limits.
#[tactic(auto, unfolding(sheet_meaning::specs::Meaning::limited))]
fn limit(tree: Tree) -> Result<Tree, EvalFault>
    ensures { Makes result (limited tree) }
{
    if tree.height() <= 2000 && tree.size() <= 0x7FFF_FFFF_FFFF_FFFF {
        Ok(tree)
    } else {
        Err(EvalFault::Error(Code::Dynamic(DynamicCode::XTLM0002)))
    }
}
