// What a stylesheet makes of a document, as text.
ghost use Rattle.std.specs.Prelude.{◌≡◌, true, Some, None, IfOk, IfErr};
ghost use Rattle.doc_writer.specs.Written.{written_tree};
ghost use Rattle.sheet_meaning.specs.First.{is_first_sheet};
ghost use Rattle.run_parts.specs.Result.{outcome_of, Makes, IsResultRefusedAs};
ghost use Rattle.sheet_meaning.specs.Outcome.{Ends};

use crate::status::Status;
use doc_writer::{WriteRefusal, write_tree};
use std::alloc::Global;
use std::mem::forget;
use xslt_run::{EvalFault, run_first_sheet};
use xt_tree::Tree;

/// The text of the result tree of a stylesheet on a document (XSLT 2.0, 2.4). `Dynamic` comes with
/// the code of the error that the run comes to, and `Deep` where more than so many rules would have
/// been open at once.
pub fn result_text(
    alloc: Global,
    sheet: &Tree,
    document: &Tree,
    depth: u32,
) -> Result<Vec<u8>, Status>
    requires { is_first_sheet sheet.now ≡ true }
    ensures text { IfOk result (λ text. Makes depth sheet.now document.now text.items) }
    ensures refused { IfErr result (IsResultRefusedAs depth sheet.now document.now) }
{
    let tree = result_tree(alloc, sheet, document, depth)?;
    let text = text_of(alloc, &tree);
    forget(tree);
    text
}

// The text of a tree that has one.
fn text_of(alloc: Global, tree: &Tree) -> Result<Vec<u8>, Status>
    requires { written_tree tree.now ≡ None → ⊥ }
    ensures text { IfOk result (λ text. written_tree tree.now ≡ Some text.items) }
    ensures refused { IfErr result (λ status. status ≡ Status.Memory) }
{
    match write_tree(alloc, tree) {
        Ok(text) => Ok(text),
        Err(WriteRefusal::Code(code)) => Err(Status::Dynamic(code)),
        Err(WriteRefusal::Memory(_)) => Err(Status::Memory),
    }
}

#[tactic(auto, unfolding(crate::specs::Result::outcome_of))]
fn result_tree(alloc: Global, sheet: &Tree, document: &Tree, depth: u32) -> Result<Tree, Status>
    requires { is_first_sheet sheet.now ≡ true }
    ensures tree { IfOk result (λ tree. outcome_of depth sheet.now document.now ≡ Ends tree) }
    ensures refused { IfErr result (IsResultRefusedAs depth sheet.now document.now) }
{
    match run_first_sheet(alloc, sheet, document, depth) {
        Ok(tree) => Ok(tree),
        Err(EvalFault::Error(code)) => Err(Status::Dynamic(code)),
        Err(EvalFault::Deep) => Err(Status::Deep(depth)),
        Err(EvalFault::Memory(_)) => Err(Status::Memory),
    }
}
