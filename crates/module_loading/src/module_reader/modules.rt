// A module from its tree.
ghost use Rattle.std.specs.Prelude.{◌≡◌, ◌∷◌, [], false, IfOk, OnOk, IsTrue, nat_lt};
ghost use Rattle.std.specs.List.{list_all};
ghost use Rattle.expr_names.specs.Answers.{Answers};
ghost use Rattle.sheet_table.specs.Elements.{xsl_element};
ghost use Rattle.sheet_table.specs.declared.sheet_nodes.nodes.Node.TheViews.{out-Node};
ghost use Rattle.sheet_values.specs.Modes.{default_mode};
ghost use Rattle.sheet_parts.specs.Tops.{top_value};
ghost use Rattle.module_loading.specs.ModuleReader.Modules.{is_import, is_other, is_late, is_stylesheet, xml_binding, placed_faults, tops_faults, tops_value, root_bound, root_place, root_names, nodes_names, stylesheet_faults, root_layer_faults, root_layer_value, nodes_faults, nodes_value, CanBeRead, module_nodes, module_faults, module_value};
ghost use Rattle.module_loading.specs.declared.module_reader.mentions.Mention.TheVariants.{Modes, Called};

use crate::module_reader::in_force::InForce;
use crate::module_reader::links::document_content;
use crate::module_reader::mentions::{Mention, add_tops};
use bound_prefixes::BoundPrefixes;
use doc_reader::Scoped;
use expr_names::ResolveFault;
use sheet_modules::{Module, Part};
use sheet_parts::part;
use sheet_parts::sheet_bodies::with_item;
use sheet_parts::sheet_heads::refuse_if;
use sheet_table::sheet_nodes::{Node, clean};
use sheet_table::{XslElement, check_attributes, xsl_element};
use sheet_values::sheet_texts::{NameTable, Reader, StaticContext};
use sheet_values::{default_mode, sheet_fault};
use std::alloc::{AllocError, Global};
use xt_names::{Binding, ExprName, List, Name, Shared, SheetStaticCode, Text, copy_binding_list};
use xt_tree::Attribute;

#[tactic(auto, unfolding(crate::specs::ModuleReader::Modules::is_import))]
fn is_import(node: &Node) -> bool
    ensures { result ≡ is_import node.now }
{
    match node {
        Node::Elem(_, name, _, _) => matches!(xsl_element(name), Some(XslElement::Import)),
        Node::Chars(_) => false,
    }
}

#[tactic(auto, unfolding(crate::specs::ModuleReader::Modules::is_other))]
fn is_other(node: &Node) -> bool
    ensures { result ≡ is_other node.now }
{
    match node {
        Node::Elem(_, name, _, _) => !matches!(xsl_element(name), Some(XslElement::Import)),
        Node::Chars(_) => false,
    }
}

/// The child of the root, after other elements than imports where `late` says so.
#[tactic(auto, unfolding(crate::specs::ModuleReader::Modules::placed_faults))]
fn placed_part<R: Reader>(
    alloc: Global,
    reader: &R,
    place: &StaticContext,
    late: bool,
    node: &Node,
) -> Result<Shared<Part<R::Expr, R::Pattern>>, ResolveFault>
    ensures { Answers result (placed_faults (R.reads reader.now) place.now late node.now)
        (top_value (R.reads reader.now) place.now node.now) }
{
    refuse_if(SheetStaticCode::XTSE0200, late && is_import(node))?;
    let one = part(alloc, reader, place, node)?;
    Ok(Shared::make(alloc, one)?)
}

/// Whether other elements than imports come before what is after the node.
#[tactic(auto, unfolding(crate::specs::ModuleReader::Modules::is_late))]
fn is_late(late: bool, node: &Node) -> bool
    ensures { result ≡ is_late late node.now }
{
    if late {
        return true;
    }
    is_other(node)
}

fn tops<R: Reader>(
    alloc: Global,
    reader: &R,
    place: &StaticContext,
    nodes: &[Node],
) -> Result<List<Shared<Part<R::Expr, R::Pattern>>>, ResolveFault>
    ensures { Answers result (tops_faults (R.reads reader.now) place.now false nodes.now)
        (tops_value (R.reads reader.now) place.now nodes.now) }
{
    let mut made = List::new(alloc);
    let mut late = false;
    let mut left = nodes;
    while let [node, rest @ ..] = left {
        let one = placed_part(alloc, reader, place, late, node);
        made = with_item(made, one)?;
        late = is_late(late, node);
        left = rest;
    }
    Ok(made)
}

#[tactic(auto, using(xt_names::proofs::TextLemmas::ascii_same))]
fn ascii_text(alloc: Global, text: &str) -> Result<Text, AllocError>
    requires { IsTrue (list_all (λ b. nat_lt b 128) text.now) }
    ensures { IfOk result (λ made. made ≡ text.now) }
{
    Text::make(alloc, text)
}

fn xml_binding(alloc: Global) -> Result<Binding, AllocError>
    ensures { IfOk result (λ binding. binding ≡ xml_binding) }
{
    let prefix = ascii_text(alloc, "xml")?;
    let uri = ascii_text(alloc, "http://www.w3.org/XML/1998/namespace")?;
    Ok(Binding { prefix, uri })
}

/// The bindings at the root, after its own.
fn root_bound(alloc: Global, own: &List<Binding>) -> Result<BoundPrefixes, AllocError>
    ensures { IfOk result (λ bound. bound ≡ root_bound own.now) }
{
    let mut bound = copy_binding_list(own)?;
    bound.push(xml_binding(alloc)?)?;
    BoundPrefixes::new(bound)
}

/// Where the children of the root stand.
fn root_place(
    alloc: Global,
    own: &List<Binding>,
    modes: &Shared<NameTable>,
    called: &Shared<NameTable>,
) -> Result<StaticContext, AllocError>
    ensures { IfOk result (λ place. place ≡ root_place own.now modes.now called.now) }
{
    Ok(StaticContext {
        bound: root_bound(alloc, own)?,
        in_group: false,
        modes: modes.copy()?,
        called: called.copy()?,
    })
}

fn names_of(alloc: Global, names: &[ExprName]) -> Result<List<ExprName>, AllocError>
    ensures { IfOk result (λ copy. copy ≡ names.now) }
{
    let mut copy = List::new(alloc);
    for name in names {
        copy.push(name.copy()?)?;
    }
    Ok(copy)
}

fn is_stylesheet(name: &Name) -> bool
    ensures { result ≡ is_stylesheet (xsl_element name.now) }
{
    matches!(xsl_element(name), Some(XslElement::Stylesheet))
}

/// Adds what the module of this root names.
fn add_root(
    alloc: Global,
    mention: Mention,
    node: &Node,
    table: &mut NameTable,
) -> Result<(), AllocError>
    ensures { OnOk result (table.new ≡ root_names mention (out-Node node.now) table.old) }
{
    match node {
        Node::Elem(own, _, _, kids) => {
            let mut around = InForce::new(alloc, root_bound(alloc, own.get())?);
            add_tops(alloc, mention, &mut around, kids.get().as_slice(), table)
        }
        Node::Chars(_) => Ok(()),
    }
}

fn add_nodes(
    alloc: Global,
    mention: Mention,
    nodes: &[Node],
    table: &mut NameTable,
) -> Result<(), AllocError>
    ensures { OnOk result (table.new ≡ nodes_names mention nodes.now table.old) }
{
    match nodes {
        [] => Ok(()),
        [root, ..] => add_root(alloc, mention, root, table),
    }
}

fn read_root<R: Reader>(
    alloc: Global,
    reader: &R,
    place: &StaticContext,
    name: &Name,
    attributes: &[Attribute],
    kids: &[Node],
) -> Result<List<Shared<Part<R::Expr, R::Pattern>>>, ResolveFault>
    ensures { Answers result
        (stylesheet_faults (R.reads reader.now) place.now name.now attributes.now kids.now)
        (tops_value (R.reads reader.now) place.now kids.now) }
{
    refuse_if(SheetStaticCode::XTUN0001, !is_stylesheet(name))?;
    check_attributes(XslElement::Stylesheet, attributes)?;
    tops(alloc, reader, place, kids)
}

fn read_root_node<R: Reader>(
    alloc: Global,
    reader: &R,
    modes: &Shared<NameTable>,
    called: &Shared<NameTable>,
    node: &Node,
) -> Result<List<Shared<Part<R::Expr, R::Pattern>>>, ResolveFault>
    ensures { Answers result
        (root_layer_faults (R.reads reader.now) modes.now called.now (out-Node node.now))
        (root_layer_value (R.reads reader.now) modes.now called.now (out-Node node.now)) }
{
    match node {
        Node::Elem(own, name, attributes, kids) => {
            let place = root_place(alloc, own.get(), modes, called)?;
            read_root(
                alloc,
                reader,
                &place,
                name,
                attributes.as_slice(),
                kids.get().as_slice(),
            )
        }
        Node::Chars(_) => Err(sheet_fault(SheetStaticCode::XTUN0001)),
    }
}

/// The nodes of the module: its root, and what stands beside it (XSLT 2.0, 3.6 and 4.2).
pub fn module_nodes(alloc: Global, document: &Scoped) -> Result<List<Node>, AllocError>
    requires { CanBeRead document.now.tree document.now.declared }
    ensures { IfOk result (λ nodes. nodes ≡ module_nodes document.now.tree document.now.declared) }
{
    let trees = document_content(&document.tree);
    let (nodes, _) = clean(alloc, false, document.declared.as_slice(), 0, trees)?;
    Ok(nodes)
}

/// Puts the modes that a module of these nodes names at the end of names, and the templates that it
/// calls at the end of others, each where it first appears, unless it is there (XSLT 2.0, 6.5 and
/// 10.1). The default mode is the name of no characters.
pub fn collect_names(
    alloc: Global,
    nodes: &[Node],
    modes: &mut NameTable,
    called: &mut NameTable,
) -> Result<(), AllocError>
    ensures modes { OnOk result (modes.new ≡ nodes_names Modes nodes.now modes.old) }
    ensures called { OnOk result (called.new ≡ nodes_names Called nodes.now called.old) }
{
    add_nodes(alloc, Mention::Modes, nodes, modes)?;
    add_nodes(alloc, Mention::Called, nodes, called)
}

/// What a module of these nodes declares, child by child of its root, by the numbers that its modes
/// and the templates that it calls have in these tables (XSLT 2.0, 3.6). XTUN0001 comes where its
/// root is neither `xsl:stylesheet` nor `xsl:transform`, and XTSE0200 of an `xsl:import` after
/// another element; else the code is that of the first rule that one of its children breaks by
/// itself.
pub fn read_parts<R: Reader>(
    alloc: Global,
    reader: &R,
    modes: &Shared<NameTable>,
    called: &Shared<NameTable>,
    nodes: &[Node],
) -> Result<List<Shared<Part<R::Expr, R::Pattern>>>, ResolveFault>
    ensures { Answers result
        (nodes_faults (R.reads reader.now) modes.now called.now nodes.now)
        (nodes_value (R.reads reader.now) modes.now called.now nodes.now) }
{
    match nodes {
        [root] => read_root_node(alloc, reader, modes, called, root),
        _ => Err(sheet_fault(SheetStaticCode::XTUN0001)),
    }
}

fn default_alone(alloc: Global) -> Result<NameTable, AllocError>
    ensures { IfOk result (λ table. table ≡ default_mode ∷ []) }
{
    let mut table = NameTable::new(alloc);
    let name = default_mode(alloc)?;
    table.add(&name)?;
    Ok(table)
}

/// What the module declares, with the names of its modes, of which the default mode is the first,
/// and of the templates that it calls (XSLT 2.0, 3.6). It refuses what `read_parts` refuses.
#[tactic(auto, unfolding(crate::specs::ModuleReader::Modules::with_modes, crate::specs::ModuleReader::Modules::with_called, crate::specs::ModuleReader::Modules::parts_faults, crate::specs::ModuleReader::Modules::parts_value))]
pub fn read_module<R: Reader>(
    alloc: Global,
    reader: &R,
    document: &Scoped,
) -> Result<Module<R::Expr, R::Pattern>, ResolveFault>
    requires { CanBeRead document.now.tree document.now.declared }
    ensures { Answers result
        (module_faults (R.reads reader.now) document.now.tree document.now.declared)
        (module_value (R.reads reader.now) document.now.tree document.now.declared) }
{
    let mut modes = default_alone(alloc)?;
    let mut called = NameTable::new(alloc);
    let nodes = module_nodes(alloc, document)?;
    collect_names(alloc, nodes.as_slice(), &mut modes, &mut called)?;
    let mode_names = names_of(alloc, modes.as_slice())?;
    let called_names = names_of(alloc, called.as_slice())?;
    let modes = Shared::make(alloc, modes)?;
    let called = Shared::make(alloc, called)?;
    let parts = read_parts(alloc, reader, &modes, &called, nodes.as_slice());
    drop(nodes);
    Ok(Module {
        parts: parts?,
        modes: mode_names,
        called: called_names,
    })
}
