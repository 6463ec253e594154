// The heads of instructions that pass parameters.
ghost use Rattle.std.specs.Prelude.{◌≡◌, codes};
ghost use Rattle.expr_names.specs.Answers.{Answers};
ghost use Rattle.sheet_table.specs.Attributes.{attribute};
ghost use Rattle.sheet_heads.specs.Calls.{numbered, mode_faults};
ghost use Rattle.sheet_heads.specs.Calls.{mode_value, apply_faults, apply_value};
ghost use Rattle.sheet_heads.specs.Calls.{template_faults, template_value, own_faults, own_value};
ghost use Rattle.sheet_heads.specs.Calls.{call_faults, with_passed};

use crate::attributes::optional_expr;
use crate::sorts::sort_keys;
use expr_names::ResolveFault;
use sheet_table::sheet_nodes::Node;
use sheet_table::{XslElement, attribute, check_attributes};
use sheet_values::sheet_texts::{Reader, StaticContext};
use sheet_values::{ModeChoice, mode_choice, qname, sheet_fault};
use std::alloc::Global;
use xt_names::{List, Shared, SheetStaticCode};
use xt_sheets::ModeUse;
use xt_sheets::instrs::{Bound, Instr};
use xt_sheets::values::Sort;
use xt_tree::Attribute;

/// What an instruction says that passes parameters, apart from these (XSLT 2.0, 10.1.1).
#[derive(Drop)]
pub enum CallHead<E> {
    /// `xsl:apply-templates` (6.3): `select`, the mode and the sort keys.
    Apply(Option<Shared<E>>, ModeUse, Shared<List<Sort<E>>>),
    /// `xsl:apply-imports` (6.7).
    ApplyImports,
    /// `xsl:next-match` (6.7).
    NextMatch,
    /// `xsl:call-template` (10.1): the number of the name.
    Template(u32),
}

fn numbered(place: &StaticContext, choice: &ModeChoice) -> ModeUse
    ensures { result ≡ numbered place.now choice.now }
{
    match choice {
        ModeChoice::Current => ModeUse::Current,
        ModeChoice::Named(name) => ModeUse::Number(place.modes.get().number(name)),
    }
}

fn mode(
    alloc: Global,
    place: &StaticContext,
    attributes: &[Attribute],
) -> Result<ModeUse, ResolveFault>
    ensures { Answers result (mode_faults place.now (attribute attributes.now (codes "mode")))
        (mode_value place.now (attribute attributes.now (codes "mode"))) }
{
    match attribute(attributes, "mode") {
        None => Ok(ModeUse::Number(0)),
        Some(text) => {
            let choice = mode_choice(alloc, &place.bound, text)?;
            Ok(numbered(place, &choice))
        }
    }
}

fn apply<R: Reader>(
    alloc: Global,
    reader: &R,
    place: &StaticContext,
    attributes: &[Attribute],
    front: &[Node],
) -> Result<CallHead<R::Expr>, ResolveFault>
    ensures { Answers result
        (apply_faults (R.reads reader.now) place.now attributes.now front.now)
        (apply_value (R.reads reader.now) place.now attributes.now front.now) }
{
    let select = optional_expr(alloc, reader, place, attributes, "select")?;
    let mode = mode(alloc, place, attributes)?;
    let sorts = sort_keys(alloc, reader, place, front)?;
    let sorts = Shared::make(alloc, sorts)?;
    Ok(CallHead::Apply(select, mode, sorts))
}

fn template_number(
    alloc: Global,
    place: &StaticContext,
    attributes: &[Attribute],
) -> Result<u32, ResolveFault>
    ensures { Answers result
        (template_faults place.now (attribute attributes.now (codes "name")))
        (template_value place.now (attribute attributes.now (codes "name"))) }
{
    match attribute(attributes, "name") {
        None => Err(sheet_fault(SheetStaticCode::XTSE0010)),
        Some(text) => {
            let name = qname(alloc, &place.bound, text)?;
            Ok(place.called.get().number(&name))
        }
    }
}

/// What the element says after the rules of the table.
fn own_head<R: Reader>(
    alloc: Global,
    reader: &R,
    place: &StaticContext,
    element: XslElement,
    attributes: &[Attribute],
    front: &[Node],
) -> Result<CallHead<R::Expr>, ResolveFault>
    ensures { Answers result
        (own_faults (R.reads reader.now) place.now element attributes.now front.now)
        (own_value (R.reads reader.now) place.now element attributes.now front.now) }
{
    match element {
        XslElement::ApplyTemplates => apply(alloc, reader, place, attributes, front),
        XslElement::ApplyImports => Ok(CallHead::ApplyImports),
        XslElement::NextMatch => Ok(CallHead::NextMatch),
        XslElement::CallTemplate => {
            let number = template_number(alloc, place, attributes)?;
            Ok(CallHead::Template(number))
        }
        _ => Err(sheet_fault(SheetStaticCode::XTSE0010)),
    }
}

/// The head of an element of XSLT that passes parameters (XSLT 2.0, 6.3, 6.7 and 10.1). `front` are
/// the nodes at the front of its content that may be there, of which the elements `xsl:sort` are
/// read.
pub fn call_head<R: Reader>(
    alloc: Global,
    reader: &R,
    place: &StaticContext,
    element: XslElement,
    attributes: &[Attribute],
    front: &[Node],
) -> Result<CallHead<R::Expr>, ResolveFault>
    ensures { Answers result
        (call_faults (R.reads reader.now) place.now element attributes.now front.now)
        (own_value (R.reads reader.now) place.now element attributes.now front.now) }
{
    check_attributes(element, attributes)?;
    own_head(alloc, reader, place, element, attributes, front)
}

/// The instruction of the head and the parameters that it passes (XSLT 2.0, 10.1.1).
pub fn with_passed<E, P>(head: CallHead<E>, params: Shared<List<Bound<E, P>>>) -> Instr<E, P>
    ensures { result ≡ with_passed head params }
{
    match head {
        CallHead::Apply(select, mode, sorts) => Instr::Apply(select, mode, sorts, params),
        CallHead::ApplyImports => Instr::ApplyImports(params),
        CallHead::NextMatch => Instr::NextMatch(params),
        CallHead::Template(number) => Instr::CallTemplate(number, params),
    }
}
