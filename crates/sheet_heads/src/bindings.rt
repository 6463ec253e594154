// The heads of variables and parameters.
ghost use Rattle.std.specs.Prelude.{◌≡◌, codes, IsTrue};
ghost use Rattle.sheet_table.specs.Texts.{is_ascii};
ghost use Rattle.expr_names.specs.Answers.{Answers};
ghost use Rattle.sheet_table.specs.Attributes.{attribute};
ghost use Rattle.xt_names.specs.declared.codes.SheetStaticCode.TheVariants.{XTSE0020};
ghost use Rattle.sheet_values.specs.Names.{declared_faults, qname_value};
ghost use Rattle.sheet_heads.specs.Attributes.{needed_faults, needed_value};
ghost use Rattle.sheet_heads.specs.Bindings.{is_yes, bound_faults};
ghost use Rattle.sheet_heads.specs.Bindings.{bound_value, value_in, with_value};

use crate::attributes::{optional_expr, optional_type};
use crate::parts::{check_one, refuse_if};
use expr_names::ResolveFault;
use sheet_table::{XslElement, attribute, check_attributes, has};
use sheet_values::sheet_texts::{Reader, StaticContext};
use sheet_values::{declared_name, sheet_fault};
use std::alloc::Global;
use xt_names::{ExprName, List, Shared, SheetStaticCode, is_ascii_text};
use xt_sheets::instrs::{Bound, Instr, Value};
use xt_tree::Attribute;
use xt_types::SeqType;

/// What a variable or parameter says, or one that is passed, apart from its content (XSLT 2.0, 9).
#[derive(Drop)]
pub struct BoundHead<E> {
    /// Its name.
    pub name: ExprName,
    /// The type after `as`.
    pub kind: Option<SeqType>,
    /// `select`.
    pub select: Option<Shared<E>>,
    /// Whether a value must be passed (10.1.1).
    pub required: bool,
    /// Whether it is a tunnel parameter (10.1.2).
    pub tunnel: bool,
}

/// Whether the attribute stands and is `yes` (XSLT 2.0, 2.2).
#[tactic(auto, unfolding(crate::specs::Bindings::is_yes))]
pub fn is_yes(attributes: &[Attribute], local: &str) -> bool
    requires { IsTrue (is_ascii local.now) }
    ensures { result ≡ is_yes (attribute attributes.now local.now) }
{
    match attribute(attributes, local) {
        Some(text) => is_ascii_text(text.as_str(), "yes"),
        None => false,
    }
}

/// The name in the attribute `name` of what is declared (XSLT 2.0, 5.1). XTSE0010 where it does not
/// stand, XTSE0020 where it is no QName, XTSE0280 where its prefix is not declared, and XTSE0080
/// where its namespace is reserved.
pub fn needed_name(
    alloc: Global,
    place: &StaticContext,
    attributes: &[Attribute],
) -> Result<ExprName, ResolveFault>
    ensures { Answers result
        (needed_faults (declared_faults XTSE0020 place.now.bound)
        (attribute attributes.now (codes "name")))
        (needed_value (qname_value place.now.bound) (attribute attributes.now (codes "name"))) }
{
    match attribute(attributes, "name") {
        None => Err(sheet_fault(SheetStaticCode::XTSE0010)),
        Some(text) => declared_name(alloc, &place.bound, text, SheetStaticCode::XTSE0020),
    }
}

/// What the element says that binds a variable or parameter: `xsl:variable`, `xsl:param` or
/// `xsl:with-param` (XSLT 2.0, 9.1, 9.2 and 10.1.1). XTSE0620 comes of `select` beside content,
/// XTSE0010 of either where a value must be passed, and XTSE0080 of a reserved namespace.
pub fn bound_head<R: Reader>(
    alloc: Global,
    reader: &R,
    place: &StaticContext,
    element: XslElement,
    attributes: &[Attribute],
    has_content: bool,
) -> Result<BoundHead<R::Expr>, ResolveFault>
    ensures { Answers result
        (bound_faults (R.reads reader.now) place.now element attributes.now has_content)
        (bound_value (R.reads reader.now) place.now attributes.now) }
{
    check_attributes(element, attributes)?;
    check_one(SheetStaticCode::XTSE0620, attributes, has_content)?;
    let required = is_yes(attributes, "required");
    refuse_if(
        SheetStaticCode::XTSE0010,
        required && (has(attributes, "select") || has_content),
    )?;
    let name = needed_name(alloc, place, attributes)?;
    let kind = optional_type(alloc, reader, place, attributes, "as")?;
    let select = optional_expr(alloc, reader, place, attributes, "select")?;
    let tunnel = is_yes(attributes, "tunnel");
    Ok(BoundHead {
        name,
        kind,
        select,
        required,
        tunnel,
    })
}

/// What it is bound to.
fn value_in<E: Drop, P: Drop>(
    select: Option<Shared<E>>,
    has_content: bool,
    required: bool,
    has_kind: bool,
    body: Shared<List<Instr<E, P>>>,
) -> Value<E, P>
    ensures { result ≡ value_in select has_content required has_kind body }
{
    match select {
        Some(e) => {
            drop(body);
            Value::Select(e)
        }
        None => {
            if has_content {
                return Value::Body(body);
            }
            drop(body);
            if required {
                Value::Required
            } else if has_kind {
                Value::EmptyList
            } else {
                Value::EmptyText
            }
        }
    }
}

/// The variable or parameter of the head and its content, which is empty where `has_content` is
/// false (XSLT 2.0, 9.3).
pub fn with_value<E: Drop, P: Drop>(
    head: BoundHead<E>,
    has_content: bool,
    body: Shared<List<Instr<E, P>>>,
) -> Bound<E, P>
    ensures { result ≡ with_value head has_content body }
{
    let has_kind = head.kind.is_some();
    let value = value_in(head.select, has_content, head.required, has_kind, body);
    Bound {
        name: head.name,
        kind: head.kind,
        value,
        tunnel: head.tunnel,
    }
}
