// What the words of a command line ask for.
ghost use Rattle.std.specs.Prelude.{◌≡◌, map, option_map, option_and_then, IfOk};
ghost use Rattle.std.specs.String.{string_bytes};
ghost use Rattle.command_words.specs.Apart.{told_apart};
ghost use Rattle.command_words.specs.Requests.{asked, inputs_in, request_of, run_of};

use crate::apart::tell_apart;
use crate::depths::depth_of;
use crate::documents::documents_of;
use crate::parameters::{Parameter, parameters_of};
use std::alloc::{AllocError, Global};
use xt_names::{List, Text};

/// On what a stylesheet or a query runs.
#[derive(Drop)]
pub struct Inputs<'a> {
    /// The file of the document.
    pub document: &'a str,
    /// How many calls may be open at once.
    pub depth: u32,
    /// The files of the further documents, in the order of the words; no two are the same.
    pub documents: List<Text>,
    /// The parameters in the order of the words; no two have the same name.
    pub parameters: List<Parameter>,
}

/// What the program is asked for, with the names of files.
#[derive(Drop)]
pub enum Request<'a> {
    /// To run a stylesheet.
    Transform { sheet: &'a str, inputs: Inputs<'a> },
    /// To run a query.
    Query { query: &'a str, inputs: Inputs<'a> },
}

// The stylesheet or the query, and on what it runs.
fn run_of(
    alloc: Global,
    words: &[String],
    greatest: u32,
    usual: u32,
) -> Result<Option<(&str, Inputs<'_>)>, AllocError>
    ensures { IfOk result (λ r. option_map (λ p. (p.0.now, inputs_in p.1)) r
        ≡ option_and_then (run_of greatest usual) (told_apart (map string_bytes words.now))) }
{
    let Some(told) = tell_apart(alloc, words)? else {
        return Ok(None);
    };
    let [program, document, more @ ..] = told.operands.as_slice() else {
        return Ok(None);
    };
    let Some(depth) = depth_of(told.depths.as_slice(), greatest, usual) else {
        return Ok(None);
    };
    let Some(documents) = documents_of(alloc, told.files.as_slice())? else {
        return Ok(None);
    };
    let Some(parameters) = parameters_of(alloc, more)? else {
        return Ok(None);
    };
    let inputs = Inputs {
        document,
        depth,
        documents,
        parameters,
    };
    Ok(Some((program, inputs)))
}

/// The request of the words after the program's name, if they are one. `transform SHEET DOC` and
/// `query QUERY DOC` may have options and parameters; at most 300 calls may be open in a
/// stylesheet, and 100 where the words do not say, and 602 and 202 in a query.
pub fn read_request(alloc: Global, words: &[String]) -> Result<Option<Request<'_>>, AllocError>
    ensures { IfOk result
        (λ request. option_map asked request ≡ request_of (map string_bytes words.now)) }
{
    let [command, rest @ ..] = words else {
        return Ok(None);
    };
    match command.as_str() {
        "transform" => match run_of(alloc, rest, 300, 100)? {
            Some((sheet, inputs)) => Ok(Some(Request::Transform { sheet, inputs })),
            None => Ok(None),
        },
        "query" => match run_of(alloc, rest, 602, 202)? {
            Some((query, inputs)) => Ok(Some(Request::Query { query, inputs })),
            None => Ok(None),
        },
        _ => Ok(None),
    }
}
