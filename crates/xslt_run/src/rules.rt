// The table of the rules of a stylesheet.
ghost use Rattle.std.specs.Prelude.{◌≡◌, ℕ, List, IfOk, OnOk};
ghost use Rattle.std.specs.HashMap.{get};
ghost use Rattle.std.specs.Option.{option_copied, option_or};
ghost use Rattle.std.specs.Str.{bytes_eq};
ghost use Rattle.xt_tree.specs.declared.trees.Tree.{Tree};
ghost use Rattle.xt_tree.specs.TreeView.{forest_of};
ghost use Rattle.sheet_meaning.specs.Rules.{best_rule, templates_of, templates_among, root_content};
ghost use Rattle.xslt_run.specs.Table.{rule_for, last_with, templates_in};

use std::alloc::{AllocError, Global};
use std::collections::HashMap;
use xt_names::Text;
use xt_tree::{Kids, Tree};

/// The content of the rules: of the last one for the document, and of the last one for each name.
#[derive(Drop)]
pub struct Rules {
    pub root: Option<Kids>,
    pub named: HashMap<Text, Kids>,
}

/// The rules of a stylesheet.
pub fn rules_of(alloc: Global, sheet: &Tree) -> Result<Rules, AllocError>
    ensures { IfOk result (λ rules. (node : Tree) → rule_for rules node ≡ best_rule (templates_of sheet.now) node) }
{
    match sheet {
        Tree::Doc(kids) => rules_below(alloc, kids.as_slice()),
        _ => rules_among(alloc, &[]),
    }
}

/// The rules of the first element.
fn rules_below(alloc: Global, trees: &[Tree]) -> Result<Rules, AllocError>
    ensures { IfOk result (λ rules. (node : Tree) → rule_for rules node ≡ best_rule (templates_among (root_content (forest_of trees.now))) node) }
{
    for tree in trees {
        if let Tree::Elem(_, _, kids) = tree {
            return rules_among(alloc, kids.as_slice());
        }
    }
    rules_among(alloc, &[])
}

fn rules_among(alloc: Global, trees: &[Tree]) -> Result<Rules, AllocError>
    ensures { IfOk result (λ rules. (node : Tree) → rule_for rules node ≡ best_rule (templates_among (forest_of trees.now)) node) }
{
    let named = named_among(alloc, trees)?;
    let root = copy_at(&named, &Text::make(alloc, "/")?)?;
    Ok(Rules { root, named })
}

fn copy_at(named: &HashMap<Text, Kids>, pattern: &Text) -> Result<Option<Kids>, AllocError>
    ensures { IfOk result (λ found. found ≡ get bytes_eq named.now pattern.now) }
{
    match named.get(pattern) {
        Some(kids) => Ok(Some(kids.copy()?)),
        None => Ok(None),
    }
}

/// The content of the last template for each pattern.
fn named_among(alloc: Global, trees: &[Tree]) -> Result<HashMap<Text, Kids>, AllocError>
    ensures { IfOk result (λ named. (pattern : List ℕ) → get bytes_eq named pattern ≡ last_with (templates_among (forest_of trees.now)) pattern) }
{
    let mut named = HashMap::new(alloc);
    for tree in trees {
        add_template(&mut named, tree)?;
    }
    Ok(named)
}

/// Puts a template into the table, in the place of an earlier one.
fn add_template(named: &mut HashMap<Text, Kids>, tree: &Tree) -> Result<(), AllocError>
    ensures { OnOk result ((pattern : List ℕ) → get bytes_eq named.new pattern ≡ option_or (last_with (templates_in tree.now) pattern) (get bytes_eq named.old pattern)) }
{
    if let Tree::Elem(_, attributes, kids) = tree {
        if let [only, ..] = attributes.as_slice() {
            named.insert(only.value.copy()?, kids.copy()?)?;
        }
    }
    Ok(())
}

impl Rules {
    /// The content of the best rule for the node (XSLT 2.0, 6.4).
    pub fn find(&self, node: &Tree) -> Option<&Kids>
        ensures { option_copied result ≡ rule_for self.now node.now }
    {
        match node {
            Tree::Doc(_) => self.root.as_ref(),
            Tree::Elem(name, _, _) => {
                if name.uri.is_empty() {
                    self.named.get(&name.local)
                } else {
                    None
                }
            }
            _ => None,
        }
    }
}
