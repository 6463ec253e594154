// The run of a command line.
ghost use Rattle.std.specs.Prelude.{◌≡◌, map, true, IfOk, IfErr};
ghost use Rattle.std.specs.String.{string_bytes};
ghost use Rattle.xt_io.specs.Files.{KeepsFiles};
ghost use Rattle.command_words.specs.Requests.{asked, inputs_asked};
ghost use Rattle.command_words.specs.Texts.{are_different};
ghost use Rattle.driver.specs.Meaning.{HasText, IsRefusedAs};
ghost use Rattle.driver.specs.Theorem.{Answers, Completes, Keeps, Notes};

use crate::query_runs::query_text;
use crate::sheet_runs::sheet_text;
use command_words::{Request, read_request};
use run_parts::{Status, tell, write};
use std::alloc::{AllocError, Global};
use xt_io::{Files, Sink};

/// Runs the words after the program's name: writes the text that they ask for to `out`, in one
/// piece, and says why where it does not, in one line to `notes`. Nothing is written before all
/// else has succeeded.
pub fn run<F: Files, S: Sink, N: Sink>(
    alloc: Global,
    words: &[String],
    files: &mut F,
    out: &mut S,
    notes: &mut N,
) -> Status
    // Each status comes only with its cause, and says what was written.
    ensures answers { Answers (map string_bytes words.now) (F.state files.old) (F.state files.new)
        (S.state out.old) (S.state out.new) result }

    // Where nothing stands against the request, the text is written, or memory ran out.
    ensures complete { Completes (map string_bytes words.now) (F.state files.old) (F.state files.new)
        (S.state out.old) (S.state out.new) result }

    // What the files hold stays, and their counts do not fall.
    ensures keeps { Keeps (F.state files.old) (F.state files.new) }

    // The line of the status is said.
    ensures notes { Notes (N.state notes.old) (N.state notes.new) result }
{
    let status = perform(alloc, words, files, out);
    match tell(alloc, &status, notes) {
        Ok(()) => status,
        Err(AllocError) => Status::Memory,
    }
}

// All but the note.
#[tactic(auto, using(xt_io::proofs::LoadLemmas::keeps_none))]
fn perform<F: Files, S: Sink>(alloc: Global, words: &[String], files: &mut F, out: &mut S) -> Status
    ensures answers { Answers (map string_bytes words.now) (F.state files.old) (F.state files.new)
        (S.state out.old) (S.state out.new) result }
    ensures keeps { KeepsFiles (F.state files.old) (F.state files.new) }
{
    let request = match read_request(alloc, words) {
        Ok(request) => request,
        Err(_) => return Status::Memory,
    };
    let Some(request) = request else {
        return Status::Usage;
    };
    match text_of(alloc, &request, files) {
        Ok(text) => write(&text, out),
        Err(status) => status,
    }
}

// The text that is written for a request.
fn text_of<F: Files>(alloc: Global, request: &Request<'_>, files: &mut F) -> Result<Vec<u8>, Status>
    requires { are_different (inputs_asked (asked request.now)).documents ≡ true }
    ensures text { IfOk result
        (λ text. HasText (asked request.now) (F.state files.old) text.items) }
    ensures refused { IfErr result
        (IsRefusedAs (asked request.now) (F.state files.old) (F.state files.new)) }
    ensures keeps { KeepsFiles (F.state files.old) (F.state files.new) }
{
    match request {
        Request::Transform { sheet, inputs } => sheet_text(alloc, sheet, inputs, files),
        Request::Query { query, inputs } => query_text(alloc, query, inputs, files),
    }
}
