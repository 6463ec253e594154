// The heads of instructions that hold a sequence constructor.
ghost use Rattle.std.specs.Prelude.{◌≡◌, [], codes, IfOk, List as Items};
ghost use Rattle.xt_names.specs.declared.codes.Code.{Code};
ghost use Rattle.xt_sheets.specs.declared.instrs.Instr.{Instr};
ghost use Rattle.expr_names.specs.Answers.{Answers};
ghost use Rattle.sheet_heads.specs.Bodied.{value_of_faults, value_of_value};
ghost use Rattle.sheet_heads.specs.Bodied.{element_faults, element_value};
ghost use Rattle.sheet_heads.specs.Bodied.{attribute_head_faults, attribute_head_value};
ghost use Rattle.sheet_heads.specs.Bodied.{comment_faults, comment_value, pi_faults};
ghost use Rattle.sheet_heads.specs.Bodied.{pi_value, if_faults, if_value};
ghost use Rattle.sheet_heads.specs.Bodied.{for_each_faults, for_each_value};
ghost use Rattle.sheet_heads.specs.Bodied.{groups_faults, groups_value};
ghost use Rattle.sheet_heads.specs.Bodied.{perform_faults, perform_value, own_faults, own_value};
ghost use Rattle.sheet_heads.specs.Bodied.{head_faults, with_body};

use crate::attributes::{needed_expr, needed_template, optional_expr, optional_template};
use crate::groupings::grouping;
use crate::parts::{check_one, computed_name, default_uri, refuse_if};
use crate::sorts::sort_keys;
use expr_names::{ResolveFault, no_text};
use sheet_table::sheet_nodes::Node;
use sheet_table::{XslElement, check_attributes, has};
use sheet_values::sheet_fault;
use sheet_values::sheet_texts::{Reader, StaticContext};
use std::alloc::{AllocError, Global};
use xt_names::{List, Name, Shared, SheetStaticCode};
use xt_sheets::instrs::Instr;
use xt_sheets::values::{Avt, AvtName, Grouping, LiteralAttr, Sort};
use xt_tree::Attribute;

/// What an instruction says that holds a sequence constructor, apart from that (XSLT 2.0, 5.7).
#[derive(Drop)]
pub enum Head<E, P> {
    /// `xsl:value-of` (11.4.3): `select` and `separator`.
    ValueOf(Option<Shared<E>>, Option<Shared<Avt<E>>>),
    /// A literal result element (11.1): its name and its attributes.
    Literal(Name, Shared<List<LiteralAttr<E>>>),
    /// `xsl:element` (11.2): its name.
    Element(AvtName<E>),
    /// `xsl:attribute` (11.3): its name, `select` and `separator`.
    Attribute(AvtName<E>, Option<Shared<E>>, Option<Shared<Avt<E>>>),
    /// `xsl:comment` (11.8): `select`.
    Comment(Option<Shared<E>>),
    /// `xsl:processing-instruction` (11.6): its name and `select`.
    Pi(Shared<Avt<E>>, Option<Shared<E>>),
    /// `xsl:document` (11.5).
    Document,
    /// `xsl:copy` (11.9.1).
    Copy,
    /// `xsl:if` (8.1): its test.
    If(Shared<E>),
    /// `xsl:for-each` (7): `select` and the sort keys.
    ForEach(Shared<E>, Shared<List<Sort<E>>>),
    /// `xsl:for-each-group` (14.3): `select`, what makes the groups, and the sort keys.
    ForEachGroup(Shared<E>, Grouping<E, P>, Shared<List<Sort<E>>>),
    /// `xsl:perform-sort` (13.2): `select` and the sort keys.
    PerformSort(Option<Shared<E>>, Shared<List<Sort<E>>>),
}

fn value_of<R: Reader>(
    alloc: Global,
    reader: &R,
    place: &StaticContext,
    attributes: &[Attribute],
    has_content: bool,
) -> Result<Head<R::Expr, R::Pattern>, ResolveFault>
    ensures { Answers result
        (value_of_faults (R.reads reader.now) place.now attributes.now has_content)
        (value_of_value (R.reads reader.now) place.now attributes.now) }
{
    check_one(SheetStaticCode::XTSE0870, attributes, has_content)?;
    refuse_if(
        SheetStaticCode::XTSE0870,
        !has(attributes, "select") && !has_content,
    )?;
    let select = optional_expr(alloc, reader, place, attributes, "select")?;
    let separator = optional_template(alloc, reader, place, attributes, "separator")?;
    Ok(Head::ValueOf(select, separator))
}

fn element_head<R: Reader>(
    alloc: Global,
    reader: &R,
    place: &StaticContext,
    attributes: &[Attribute],
) -> Result<Head<R::Expr, R::Pattern>, ResolveFault>
    ensures { Answers result (element_faults (R.reads reader.now) place.now attributes.now)
        (element_value (R.reads reader.now) place.now attributes.now) }
{
    let uri = default_uri(alloc, &place.bound)?;
    let name = computed_name(alloc, reader, place, attributes, uri)?;
    Ok(Head::Element(name))
}

fn attribute_head<R: Reader>(
    alloc: Global,
    reader: &R,
    place: &StaticContext,
    attributes: &[Attribute],
    has_content: bool,
) -> Result<Head<R::Expr, R::Pattern>, ResolveFault>
    ensures { Answers result
        (attribute_head_faults (R.reads reader.now) place.now attributes.now has_content)
        (attribute_head_value (R.reads reader.now) place.now attributes.now) }
{
    check_one(SheetStaticCode::XTSE0840, attributes, has_content)?;
    let uri = no_text(alloc)?;
    let name = computed_name(alloc, reader, place, attributes, uri)?;
    let select = optional_expr(alloc, reader, place, attributes, "select")?;
    let separator = optional_template(alloc, reader, place, attributes, "separator")?;
    Ok(Head::Attribute(name, select, separator))
}

fn comment<R: Reader>(
    alloc: Global,
    reader: &R,
    place: &StaticContext,
    attributes: &[Attribute],
    has_content: bool,
) -> Result<Head<R::Expr, R::Pattern>, ResolveFault>
    ensures { Answers result
        (comment_faults (R.reads reader.now) place.now attributes.now has_content)
        (comment_value (R.reads reader.now) place.now attributes.now) }
{
    check_one(SheetStaticCode::XTSE0940, attributes, has_content)?;
    let select = optional_expr(alloc, reader, place, attributes, "select")?;
    Ok(Head::Comment(select))
}

fn processing_instruction<R: Reader>(
    alloc: Global,
    reader: &R,
    place: &StaticContext,
    attributes: &[Attribute],
    has_content: bool,
) -> Result<Head<R::Expr, R::Pattern>, ResolveFault>
    ensures { Answers result
        (pi_faults (R.reads reader.now) place.now attributes.now has_content)
        (pi_value (R.reads reader.now) place.now attributes.now) }
{
    check_one(SheetStaticCode::XTSE0880, attributes, has_content)?;
    let name = needed_template(alloc, reader, place, attributes, "name")?;
    let select = optional_expr(alloc, reader, place, attributes, "select")?;
    Ok(Head::Pi(name, select))
}

fn condition<R: Reader>(
    alloc: Global,
    reader: &R,
    place: &StaticContext,
    attributes: &[Attribute],
) -> Result<Head<R::Expr, R::Pattern>, ResolveFault>
    ensures { Answers result (if_faults (R.reads reader.now) place.now attributes.now)
        (if_value (R.reads reader.now) place.now attributes.now) }
{
    let test = needed_expr(alloc, reader, place, attributes, "test")?;
    Ok(Head::If(test))
}

fn for_each<R: Reader>(
    alloc: Global,
    reader: &R,
    place: &StaticContext,
    attributes: &[Attribute],
    sorts: &[Node],
) -> Result<Head<R::Expr, R::Pattern>, ResolveFault>
    ensures { Answers result
        (for_each_faults (R.reads reader.now) place.now attributes.now sorts.now)
        (for_each_value (R.reads reader.now) place.now attributes.now sorts.now) }
{
    let select = needed_expr(alloc, reader, place, attributes, "select")?;
    let sorts = sort_keys(alloc, reader, place, sorts)?;
    let sorts = Shared::make(alloc, sorts)?;
    Ok(Head::ForEach(select, sorts))
}

fn for_each_group<R: Reader>(
    alloc: Global,
    reader: &R,
    place: &StaticContext,
    attributes: &[Attribute],
    sorts: &[Node],
) -> Result<Head<R::Expr, R::Pattern>, ResolveFault>
    ensures { Answers result
        (groups_faults (R.reads reader.now) place.now attributes.now sorts.now)
        (groups_value (R.reads reader.now) place.now attributes.now sorts.now) }
{
    let select = needed_expr(alloc, reader, place, attributes, "select")?;
    let groups = grouping(alloc, reader, place, attributes)?;
    let inner = place.grouped()?;
    let sorts = sort_keys(alloc, reader, &inner, sorts)?;
    let sorts = Shared::make(alloc, sorts)?;
    Ok(Head::ForEachGroup(select, groups, sorts))
}

fn perform_sort<R: Reader>(
    alloc: Global,
    reader: &R,
    place: &StaticContext,
    attributes: &[Attribute],
    sorts: &[Node],
    has_content: bool,
) -> Result<Head<R::Expr, R::Pattern>, ResolveFault>
    ensures { Answers result
        (perform_faults (R.reads reader.now) place.now attributes.now sorts.now has_content)
        (perform_value (R.reads reader.now) place.now attributes.now sorts.now) }
{
    check_one(SheetStaticCode::XTSE1040, attributes, has_content)?;
    let select = optional_expr(alloc, reader, place, attributes, "select")?;
    let sorts = sort_keys(alloc, reader, place, sorts)?;
    let sorts = Shared::make(alloc, sorts)?;
    Ok(Head::PerformSort(select, sorts))
}

/// What the element says after the rules of the table.
fn own_head<R: Reader>(
    alloc: Global,
    reader: &R,
    place: &StaticContext,
    element: XslElement,
    attributes: &[Attribute],
    sorts: &[Node],
    has_content: bool,
) -> Result<Head<R::Expr, R::Pattern>, ResolveFault>
    ensures { Answers result
        (own_faults (R.reads reader.now) place.now element attributes.now sorts.now has_content)
        (own_value (R.reads reader.now) place.now element attributes.now sorts.now) }
{
    match element {
        XslElement::ValueOf => value_of(alloc, reader, place, attributes, has_content),
        XslElement::Element => element_head(alloc, reader, place, attributes),
        XslElement::Attribute => attribute_head(alloc, reader, place, attributes, has_content),
        XslElement::Comment => comment(alloc, reader, place, attributes, has_content),
        XslElement::ProcessingInstruction => processing_instruction(
            alloc,
            reader,
            place,
            attributes,
            has_content,
        ),
        XslElement::Document => Ok(Head::Document),
        XslElement::Copy => Ok(Head::Copy),
        XslElement::If => condition(alloc, reader, place, attributes),
        XslElement::ForEach => for_each(alloc, reader, place, attributes, sorts),
        XslElement::ForEachGroup => for_each_group(alloc, reader, place, attributes, sorts),
        XslElement::PerformSort => perform_sort(
            alloc,
            reader,
            place,
            attributes,
            sorts,
            has_content,
        ),
        _ => Err(sheet_fault(SheetStaticCode::XTSE0010)),
    }
}

/// The head of an element of XSLT that holds a sequence constructor (XSLT 2.0, 5.7). `sorts` are
/// the elements `xsl:sort` at the front of its content, and `has_content` says whether anything
/// comes after them.
pub fn read_head<R: Reader>(
    alloc: Global,
    reader: &R,
    place: &StaticContext,
    element: XslElement,
    attributes: &[Attribute],
    sorts: &[Node],
    has_content: bool,
) -> Result<Head<R::Expr, R::Pattern>, ResolveFault>
    ensures { Answers result
        (head_faults (R.reads reader.now) place.now element attributes.now sorts.now has_content)
        (own_value (R.reads reader.now) place.now element attributes.now sorts.now) }
{
    check_attributes(element, attributes)?;
    own_head(
        alloc,
        reader,
        place,
        element,
        attributes,
        sorts,
        has_content,
    )
}

/// The instruction of the head and the instructions that it holds (XSLT 2.0, 5.7).
pub fn with_body<E, P>(head: Head<E, P>, body: Shared<List<Instr<E, P>>>) -> Instr<E, P>
    ensures { result ≡ with_body head body }
{
    match head {
        Head::ValueOf(select, separator) => Instr::ValueOf(select, body, separator),
        Head::Literal(name, attributes) => Instr::Literal(name, attributes, body),
        Head::Element(name) => Instr::Element(name, body),
        Head::Attribute(name, select, separator) => {
            Instr::Attribute(name, select, body, separator)
        }
        Head::Comment(select) => Instr::Comment(select, body),
        Head::Pi(name, select) => Instr::Pi(name, select, body),
        Head::Document => Instr::Document(body),
        Head::Copy => Instr::Copy(body),
        Head::If(test) => Instr::If(test, body),
        Head::ForEach(select, sorts) => Instr::ForEach(select, sorts, body),
        Head::ForEachGroup(select, groups, sorts) => {
            Instr::ForEachGroup(select, groups, sorts, body)
        }
        Head::PerformSort(select, sorts) => Instr::PerformSort(select, sorts, body),
    }
}
