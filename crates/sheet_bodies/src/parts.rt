// What is made of the parts of instructions. Each function takes what was read last as it was
// answered, so that no instruction ends in the middle of another function.
ghost use Rattle.std.specs.Prelude.{◌≡◌, ◌++◌, ◌∷◌, []};
ghost use Rattle.std.specs.Prelude.{◌+◌, ◌≤◌, suc, if◌then◌else◌, List as Items};
ghost use Rattle.xt_names.specs.declared.codes.Code.{Code};
ghost use Rattle.xt_sheets.specs.declared.instrs.Instr.{Instr as AnyInstr};
ghost use Rattle.xt_sheets.specs.declared.instrs.Instr.TheVariants.{Choose, Variable};
ghost use Rattle.xt_sheets.specs.declared.instrs.When.{When as AnyWhen};
ghost use Rattle.xt_sheets.specs.declared.instrs.Bound.{Bound as AnyBound};
ghost use Rattle.expr_names.specs.Answers.{Answers};
ghost use Rattle.sheet_table.specs.SheetNodes.Parts.{is_variable};
ghost use Rattle.sheet_heads.specs.Bodied.{with_body};
ghost use Rattle.sheet_heads.specs.Bindings.{with_value};
ghost use Rattle.sheet_heads.specs.Calls.{with_passed};
ghost use Rattle.sheet_bodies.specs.Bodies.{is_none, inner, is_otherwise, when};
ghost use Rattle.sheet_table.specs.Elements.{xsl_element};
ghost use Rattle.std.specs.Prelude.{IfOk};

use expr_names::ResolveFault;
use sheet_heads::sheet_values::sheet_texts::StaticContext;
use sheet_heads::{BoundHead, CallHead, Head, with_body, with_passed, with_value};
use sheet_table::sheet_nodes::{Node, is_variable};
use sheet_table::{XslElement, xsl_element};
use std::alloc::{AllocError, Global};
use xt_names::{List, Name, Shared};
use xt_sheets::instrs::{Bound, Instr, When};

/// The items and what was read of one more, which is refused as that was.
pub fn with_item<A: Drop>(
    made: List<A>,
    item: Result<A, ResolveFault>,
) -> Result<List<A>, ResolveFault>
    ensures { (faults : Items Code) (a : A) → Answers item faults a
        → Answers result faults (made ++ a ∷ []) }
{
    let mut made = made;
    match item {
        Err(fault) => {
            drop(made);
            Err(fault)
        }
        Ok(item) => match made.push(item) {
            Err(e) => {
                drop(made);
                Err(ResolveFault::Memory(e))
            }
            Ok(()) => Ok(made),
        },
    }
}

/// The list, to share.
fn shared<A: Drop>(
    alloc: Global,
    items: Result<List<A>, ResolveFault>,
) -> Result<Shared<List<A>>, ResolveFault>
    ensures { (faults : Items Code) (all : Items A) → Answers items faults all
        → Answers result faults all }
{
    match items {
        Err(fault) => Err(fault),
        Ok(items) => match Shared::make(alloc, items) {
            Err(e) => Err(ResolveFault::Memory(e)),
            Ok(items) => Ok(items),
        },
    }
}

/// The instruction of the head and what was read of its content.
pub(crate) fn finished<E: Drop, P: Drop>(
    alloc: Global,
    head: Head<E, P>,
    body: Result<List<Instr<E, P>>, ResolveFault>,
) -> Result<Instr<E, P>, ResolveFault>
    ensures { (faults : Items Code) (all : Items (AnyInstr E P)) → Answers body faults all
        → Answers result faults (with_body head all) }
{
    match shared(alloc, body) {
        Err(fault) => {
            drop(head);
            Err(fault)
        }
        Ok(body) => Ok(with_body(head, body)),
    }
}

/// The variable or parameter of the head and what was read of its content.
pub(crate) fn bound<E: Drop, P: Drop>(
    alloc: Global,
    head: BoundHead<E>,
    has_content: bool,
    body: Result<List<Instr<E, P>>, ResolveFault>,
) -> Result<Bound<E, P>, ResolveFault>
    ensures { (faults : Items Code) (all : Items (AnyInstr E P)) → Answers body faults all
        → Answers result faults (with_value head has_content all) }
{
    match shared(alloc, body) {
        Err(fault) => {
            drop(head);
            Err(fault)
        }
        Ok(body) => Ok(with_value(head, has_content, body)),
    }
}

/// The instruction that is the variable.
pub(crate) fn variable<E: Drop, P: Drop>(
    bound: Result<Bound<E, P>, ResolveFault>,
) -> Result<Instr<E, P>, ResolveFault>
    ensures { (faults : Items Code) (b : AnyBound E P) → Answers bound faults b
        → Answers result faults (Variable b) }
{
    match bound {
        Err(fault) => Err(fault),
        Ok(bound) => Ok(Instr::Variable(bound)),
    }
}

/// The test with what was read of its content.
pub(crate) fn when<E: Drop, P: Drop>(
    alloc: Global,
    test: Shared<E>,
    body: Result<List<Instr<E, P>>, ResolveFault>,
) -> Result<When<E, P>, ResolveFault>
    ensures { (faults : Items Code) (all : Items (AnyInstr E P)) → Answers body faults all
        → Answers result faults (when test all) }
{
    match shared(alloc, body) {
        Err(fault) => {
            drop(test);
            Err(fault)
        }
        Ok(body) => Ok(When { test, body }),
    }
}

/// The choice among the tests, and what was read of the content of `xsl:otherwise`.
pub(crate) fn choice<E: Drop, P: Drop>(
    alloc: Global,
    whens: List<When<E, P>>,
    other: Result<List<Instr<E, P>>, ResolveFault>,
) -> Result<Instr<E, P>, ResolveFault>
    ensures { (faults : Items Code) (all : Items (AnyInstr E P)) → Answers other faults all
        → Answers result faults (Choose whens all) }
{
    match shared(alloc, other) {
        Err(fault) => {
            drop(whens);
            Err(fault)
        }
        Ok(other) => match Shared::make(alloc, whens) {
            Err(e) => {
                drop(other);
                Err(ResolveFault::Memory(e))
            }
            Ok(whens) => Ok(Instr::Choose(whens, other)),
        },
    }
}

/// The instruction of the head and the parameters, which are refused where `differ` is.
pub(crate) fn passing<E: Drop, P: Drop>(
    alloc: Global,
    head: CallHead<E>,
    params: List<Bound<E, P>>,
    differ: Result<(), ResolveFault>,
) -> Result<Instr<E, P>, ResolveFault>
    ensures { (faults : Items Code) → Answers differ faults tt
        → Answers result faults (with_passed head params) }
{
    match differ {
        Err(fault) => {
            drop(params);
            drop(head);
            Err(fault)
        }
        Ok(()) => match Shared::make(alloc, params) {
            Err(e) => {
                drop(head);
                Err(ResolveFault::Memory(e))
            }
            Ok(params) => Ok(with_passed(head, params)),
        },
    }
}

/// Whether there is no node.
pub fn is_none(nodes: &[Node]) -> bool
    ensures { result ≡ is_none nodes.now }
{
    match nodes {
        [] => true,
        [_, ..] => false,
    }
}

/// Where the sequence constructor of the element stands.
pub(crate) fn inner(element: XslElement, place: &StaticContext) -> Result<StaticContext, AllocError>
    ensures { IfOk result (λ p. p ≡ inner element place.now) }
{
    match element {
        XslElement::ForEachGroup => place.grouped(),
        _ => place.copy(),
    }
}

pub(crate) fn is_otherwise(name: &Name) -> bool
    ensures { result ≡ is_otherwise (xsl_element name.now) }
{
    matches!(xsl_element(name), Some(XslElement::Otherwise))
}

/// The levels that instructions after the node may have.
pub(crate) fn left_behind(below: u32, node: &Node) -> u32
    requires { below + 1 ≤ u32.MAX }
    ensures { result ≡ (if is_variable node.now then below else suc below) }
{
    if is_variable(node) { below } else { below + 1 }
}

/// What was read, where what comes after it is not refused.
pub(crate) fn before<A: Drop>(
    read: Result<A, ResolveFault>,
    behind: Result<(), ResolveFault>,
) -> Result<A, ResolveFault>
    ensures { (faults more : Items Code) (a : A) → Answers read faults a → Answers behind more tt
        → Answers result (faults ++ more) a }
{
    match read {
        Err(fault) => Err(fault),
        Ok(value) => match behind {
            Err(fault) => {
                drop(value);
                Err(fault)
            }
            Ok(()) => Ok(value),
        },
    }
}
