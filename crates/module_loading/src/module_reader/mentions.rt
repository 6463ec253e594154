// Names that have numbers, in the order in which they first appear.
ghost use Rattle.std.specs.Prelude.{◌≡◌, ◌∷◌, [], IfOk, OnOk, codes, List as Items};
ghost use Rattle.xt_names.specs.declared.codes.Code.{Code};
ghost use Rattle.expr_names.specs.Answers.{Answers};
ghost use Rattle.sheet_table.specs.Attributes.{attribute};
ghost use Rattle.sheet_table.specs.Elements.{xsl_element};
ghost use Rattle.module_loading.specs.ModuleReader.Mentions.{kept, listed, chosen, named};
ghost use Rattle.module_loading.specs.ModuleReader.Mentions.{listed_modes, chosen_mode, called_name};
ghost use Rattle.module_loading.specs.ModuleReader.Mentions.{own_names, with_names, walk, walks};
ghost use Rattle.module_loading.specs.ModuleReader.Mentions.{is_declaration, top_walk};

use crate::module_reader::in_force::InForce;
use bound_prefixes::BoundPrefixes;
use expr_names::ResolveFault;
use sheet_table::sheet_nodes::Node;
use sheet_table::{XslElement, attribute, xsl_element};
use sheet_values::sheet_texts::NameTable;
use sheet_values::{ModeChoice, Modes, mode_choice, mode_list, qname};
use std::alloc::{AllocError, Global};
use xt_names::{ExprName, List, Name, is_in_xslt};
use xt_tree::Attribute;

/// Which names are looked for where modes and called templates are numbered (XSLT 2.0, 6.5 and 10.1).
#[derive(Clone, Copy)]
pub enum Mention {
    /// The modes of templates and of `xsl:apply-templates`.
    Modes,
    /// The names of templates that are called.
    Called,
}

/// What was read, where no rule is broken.
#[tactic(auto, using(crate::proofs::ModuleReader::Kept::kept_none))]
fn kept<A: Drop>(read: Result<A, ResolveFault>) -> Result<Option<A>, AllocError>
    ensures { (faults : Items Code) (a : A) → Answers read faults a
        → IfOk result (λ found. found ≡ kept faults a) }
{
    match read {
        Ok(value) => Ok(Some(value)),
        Err(ResolveFault::Static(_)) => Ok(None),
        Err(ResolveFault::Memory(e)) => Err(e),
    }
}

fn listed(alloc: Global, modes: Option<Modes>) -> List<ExprName>
    ensures { result ≡ listed modes }
{
    match modes {
        Some(Modes::Names(names)) => names,
        Some(Modes::All) => List::new(alloc),
        None => List::new(alloc),
    }
}

fn one(alloc: Global, name: ExprName) -> Result<List<ExprName>, AllocError>
    ensures { IfOk result (λ names. names ≡ name ∷ []) }
{
    let mut names = List::new(alloc);
    names.push(name)?;
    Ok(names)
}

fn chosen(alloc: Global, choice: Option<ModeChoice>) -> Result<List<ExprName>, AllocError>
    ensures { IfOk result (λ names. names ≡ chosen choice) }
{
    match choice {
        Some(ModeChoice::Named(name)) => one(alloc, name),
        Some(ModeChoice::Current) => Ok(List::new(alloc)),
        None => Ok(List::new(alloc)),
    }
}

fn named(alloc: Global, name: Option<ExprName>) -> Result<List<ExprName>, AllocError>
    ensures { IfOk result (λ names. names ≡ named name) }
{
    match name {
        Some(name) => one(alloc, name),
        None => Ok(List::new(alloc)),
    }
}

fn listed_modes(
    alloc: Global,
    around: &mut InForce,
    attributes: &[Attribute],
) -> Result<List<ExprName>, AllocError>
    ensures names { IfOk result (λ names. names
        ≡ listed_modes around.old (attribute attributes.now (codes "mode"))) }
    ensures same { OnOk result (around.new ≡ around.old) }
{
    match attribute(attributes, "mode") {
        None => Ok(List::new(alloc)),
        Some(text) => {
            let bound = around.prefixes()?;
            let modes = kept(mode_list(alloc, &bound, text))?;
            Ok(listed(alloc, modes))
        }
    }
}

fn chosen_mode(
    alloc: Global,
    around: &mut InForce,
    attributes: &[Attribute],
) -> Result<List<ExprName>, AllocError>
    ensures names { IfOk result (λ names. names
        ≡ chosen_mode around.old (attribute attributes.now (codes "mode"))) }
    ensures same { OnOk result (around.new ≡ around.old) }
{
    match attribute(attributes, "mode") {
        None => Ok(List::new(alloc)),
        Some(text) => {
            let bound = around.prefixes()?;
            let choice = kept(mode_choice(alloc, &bound, text))?;
            chosen(alloc, choice)
        }
    }
}

fn called_name(
    alloc: Global,
    around: &mut InForce,
    attributes: &[Attribute],
) -> Result<List<ExprName>, AllocError>
    ensures names { IfOk result (λ names. names
        ≡ called_name around.old (attribute attributes.now (codes "name"))) }
    ensures same { OnOk result (around.new ≡ around.old) }
{
    match attribute(attributes, "name") {
        None => Ok(List::new(alloc)),
        Some(text) => {
            let bound = around.prefixes()?;
            let name = kept(qname(alloc, &bound, text))?;
            named(alloc, name)
        }
    }
}

/// The names that the element names itself.
fn own_names(
    alloc: Global,
    mention: Mention,
    element: Option<XslElement>,
    around: &mut InForce,
    attributes: &[Attribute],
) -> Result<List<ExprName>, AllocError>
    ensures names { IfOk result
        (λ names. names ≡ own_names mention element around.old attributes.now) }
    ensures same { OnOk result (around.new ≡ around.old) }
{
    match (mention, element) {
        (Mention::Modes, Some(XslElement::Template)) => listed_modes(alloc, around, attributes),
        (Mention::Modes, Some(XslElement::ApplyTemplates)) => {
            chosen_mode(alloc, around, attributes)
        }
        (Mention::Called, Some(XslElement::CallTemplate)) => {
            called_name(alloc, around, attributes)
        }
        _ => Ok(List::new(alloc)),
    }
}

fn add_names(table: &mut NameTable, names: &[ExprName]) -> Result<(), AllocError>
    ensures { OnOk result (table.new ≡ with_names table.old names.now) }
{
    for name in names {
        table.add(name)?;
    }
    Ok(())
}

/// Adds what the element names itself.
fn add_own(
    alloc: Global,
    mention: Mention,
    around: &mut InForce,
    name: &Name,
    attributes: &[Attribute],
    table: &mut NameTable,
) -> Result<(), AllocError>
    ensures table { OnOk result (table.new ≡ with_names table.old
        (own_names mention (xsl_element name.now) around.old attributes.now)) }
    ensures same { OnOk result (around.new ≡ around.old) }
{
    let names = own_names(alloc, mention, xsl_element(name), around, attributes)?;
    add_names(table, names.as_slice())
}

/// Adds what the nodes name, where these bindings are in force.
#[cycle(mentions)]
fn add_all(
    alloc: Global,
    mention: Mention,
    around: &mut InForce,
    nodes: &[Node],
    table: &mut NameTable,
) -> Result<(), AllocError>
    ensures table { OnOk result (table.new ≡ walks mention nodes.now around.old table.old) }
    ensures same { OnOk result (around.new ≡ around.old) }
{
    for node in nodes {
        add_node(alloc, mention, around, node, table)?;
    }
    Ok(())
}

#[cycle(mentions)]
fn add_node(
    alloc: Global,
    mention: Mention,
    around: &mut InForce,
    node: &Node,
    table: &mut NameTable,
) -> Result<(), AllocError>
    ensures table { OnOk result (table.new ≡ walk mention node.now around.old table.old) }
    ensures same { OnOk result (around.new ≡ around.old) }
{
    match node {
        Node::Elem(own, name, attributes, kids) => {
            if own.get().is_empty() {
                add_own(alloc, mention, around, name, attributes.as_slice(), table)?;
                return add_all(alloc, mention, around, kids.get().as_slice(), table);
            }
            let mut inner = around.within(own)?;
            add_own(
                alloc,
                mention,
                &mut inner,
                name,
                attributes.as_slice(),
                table,
            )?;
            add_all(alloc, mention, &mut inner, kids.get().as_slice(), table)
        }
        Node::Chars(_) => Ok(()),
    }
}

#[tactic(auto, unfolding(crate::specs::ModuleReader::Mentions::is_declaration))]
fn is_declaration(node: &Node) -> bool
    ensures { result ≡ is_declaration node.now }
{
    match node {
        Node::Elem(_, name, _, _) => is_in_xslt(name),
        Node::Chars(_) => false,
    }
}

/// Adds what the declarations among the nodes name.
pub(crate) fn add_tops(
    alloc: Global,
    mention: Mention,
    around: &mut InForce,
    nodes: &[Node],
    table: &mut NameTable,
) -> Result<(), AllocError>
    ensures { OnOk result (table.new ≡ top_walk mention nodes.now around.old table.old) }
{
    for node in nodes {
        if is_declaration(node) {
            add_node(alloc, mention, around, node, table)?;
        }
    }
    Ok(())
}
