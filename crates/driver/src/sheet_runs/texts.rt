// The command `transform`: what a stylesheet makes of a document.
ghost use Rattle.std.specs.Prelude.{◌≡◌, true, IfOk, IfErr};
ghost use Rattle.xt_io.specs.Files.{KeepsFiles};
ghost use Rattle.command_words.specs.Requests.{inputs_in};
ghost use Rattle.sheet_meaning.specs.First.{is_first_sheet};
ghost use Rattle.driver.specs.SheetRuns.Texts.{HasSheetText, IsNoSheetTextAs, HasTextOf, IsNoTextOfAs};

use crate::sheet_runs::first::{load_first, main_tree};
use command_words::Inputs;
use run_parts::{Status, load_inputs, result_text};
use std::alloc::Global;
use std::mem::forget;
use xt_io::Files;
use xt_tree::Tree;

/// The text of what the stylesheet in the file `sheet` makes of the document that the inputs name,
/// as the files hold them (XSLT 2.0, 2.4). A stylesheet of the first form has no parameters and
/// calls no doc(), so parameters and further documents mean nothing in it; they are loaded and read
/// all the same.
///
/// `Load` and `TooLong` come with the first file that cannot be loaded, those of modules before
/// those of documents; `Malformed` with the first file that is no document; `Static` where a static
/// rule is broken; `Dynamic` with the code of the first error; `Deep` where one more template rule
/// than the depth would have to be open.
#[tactic(auto, using(xt_io::proofs::LoadLemmas::keeps_then))]
pub fn sheet_text<F: Files>(
    alloc: Global,
    sheet: &str,
    inputs: &Inputs<'_>,
    files: &mut F,
) -> Result<Vec<u8>, Status>
    ensures text { IfOk result (λ text.
        HasSheetText (F.state files.old).held sheet.now (inputs_in inputs.now) text.items) }
    ensures refused { IfErr result (IsNoSheetTextAs
        sheet.now (inputs_in inputs.now) (F.state files.old) (F.state files.new)) }
    ensures keeps { KeepsFiles (F.state files.old) (F.state files.new) }
{
    let loaded = load_first(alloc, sheet, files)?;
    let text = match main_tree(&loaded) {
        Some(tree) => text_on(alloc, tree, inputs, files),
        None => unreachable!(),
    };
    // The run is over, and the system takes its memory back at once; node by node it would take a
    // quarter of the time.
    forget(loaded);
    text
}

// The text of what the stylesheet makes of the document that the inputs name.
fn text_on<F: Files>(
    alloc: Global,
    sheet: &Tree,
    inputs: &Inputs<'_>,
    files: &mut F,
) -> Result<Vec<u8>, Status>
    requires { is_first_sheet sheet.now ≡ true }
    ensures text { IfOk result (λ text.
        HasTextOf (F.state files.old).held sheet.now (inputs_in inputs.now) text.items) }
    ensures refused { IfErr result (IsNoTextOfAs
        sheet.now (inputs_in inputs.now) (F.state files.old) (F.state files.new)) }
    ensures keeps { KeepsFiles (F.state files.old) (F.state files.new) }
{
    let trees = load_inputs(alloc, inputs, files)?;
    let text = result_text(alloc, sheet, &trees.document, inputs.depth);
    forget(trees);
    text
}
