// Instructions that hold no instructions.
ghost use Rattle.expr_names.specs.Answers.{Answers};
ghost use Rattle.sheet_heads.specs.Leaves.{text_faults, text_value};
ghost use Rattle.sheet_heads.specs.Leaves.{selected_faults, selected_value};
ghost use Rattle.sheet_heads.specs.Leaves.{leaf_faults, leaf_value};

use crate::attributes::needed_expr;
use crate::texts::characters;
use expr_names::ResolveFault;
use sheet_table::sheet_nodes::{Node, check_none};
use sheet_table::{XslElement, check_attributes};
use sheet_values::sheet_fault;
use sheet_values::sheet_texts::{Reader, StaticContext};
use std::alloc::Global;
use xt_names::{Shared, SheetStaticCode, Text};
use xt_sheets::instrs::Instr;
use xt_tree::Attribute;

fn text(alloc: Global, attributes: &[Attribute], kids: &[Node]) -> Result<Text, ResolveFault>
    ensures { Answers result (text_faults attributes.now kids.now) (text_value kids.now) }
{
    check_attributes(XslElement::Text, attributes)?;
    characters(alloc, kids)
}

fn selected<R: Reader>(
    alloc: Global,
    reader: &R,
    place: &StaticContext,
    element: XslElement,
    attributes: &[Attribute],
    kids: &[Node],
) -> Result<Shared<R::Expr>, ResolveFault>
    ensures { Answers result
        (selected_faults (R.reads reader.now) place.now element attributes.now kids.now)
        (selected_value (R.reads reader.now) place.now attributes.now) }
{
    check_attributes(element, attributes)?;
    check_none(kids)?;
    needed_expr(alloc, reader, place, attributes, "select")
}

/// The instruction that holds no instructions: `xsl:text`, `xsl:copy-of` or `xsl:sequence`
/// (XSLT 2.0, 11.4.2, 11.9.2 and 11.10). Content in the last two breaks XTSE0010.
pub fn leaf<R: Reader>(
    alloc: Global,
    reader: &R,
    place: &StaticContext,
    element: XslElement,
    attributes: &[Attribute],
    kids: &[Node],
) -> Result<Instr<R::Expr, R::Pattern>, ResolveFault>
    ensures { Answers result
        (leaf_faults (R.reads reader.now) place.now element attributes.now kids.now)
        (leaf_value (R.reads reader.now) place.now element attributes.now kids.now) }
{
    match element {
        XslElement::Text => Ok(Instr::Chars(text(alloc, attributes, kids)?)),
        XslElement::CopyOf => {
            let e = selected(alloc, reader, place, XslElement::CopyOf, attributes, kids)?;
            Ok(Instr::CopyOf(e))
        }
        XslElement::Sequence => {
            let e = selected(alloc, reader, place, XslElement::Sequence, attributes, kids)?;
            Ok(Instr::Sequence(e))
        }
        _ => Err(sheet_fault(SheetStaticCode::XTSE0010)),
    }
}
