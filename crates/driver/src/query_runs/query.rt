// The command `query`: what a query gives on documents.
ghost use Rattle.std.specs.Prelude.{◌≡◌, ◌++◌, ◌∷◌, [], true, false, Some, IfOk, IfErr, OnOk};
ghost use Rattle.xt_io.specs.Files.{KeepsFiles};
ghost use Rattle.doc_set.specs.Sets.{is_named};
ghost use Rattle.command_words.specs.Requests.{inputs_in};
ghost use Rattle.command_words.specs.Texts.{are_different};
ghost use Rattle.driver.specs.QueryRuns.Texts.{HasQueryText, IsNoQueryTextAs, HasTextOf, IsNoTextOfAs};
ghost use Rattle.std.specs.Str.{chars};
ghost use Rattle.xquery_syntax.specs.Spelled.{SpellsWithin};
ghost use Rattle.driver.specs.QueryRuns.Queries.{HoldsQuery, IsQuery, IsNoQueryAs, IsQueryRefusedAs};
ghost use Rattle.driver.specs.QueryRuns.Queries.{IsNoneAs, told_of};
ghost use Rattle.driver.specs.QueryRuns.Queries.{Gives, IsNotGivenAs, IsUnwrittenAs, set_of, written_for};

use crate::query_runs::evaluate::evaluate;
use command_words::Inputs;
use doc_set::DocSet;
use doc_set::white_space::strip;
use doc_writer::{WriteRefusal, write_items, write_items_bare};
use run_parts::{InputTrees, Status, load, load_inputs};
use std::alloc::{AllocError, Global};
use std::mem::forget;
use std::str::from_utf8;
use xdm_items::ItemList;
use xquery_syntax::parse_query;
use xt_io::Files;
use xt_names::{Code, List, QueryStaticCode, SheetStaticCode, Text};
use xt_syntax::{ParseFault, Query};
use xt_tree::Tree;
use xt_types::SpaceRule;

/// What is said of a text that spells no query.
const NO_QUERY: Status = Status::Static(Code::QueryStatic(QueryStaticCode::XPST0003));

/// What is said of a query that nests too deeply.
const TOO_DEEP: Status = Status::Static(Code::SheetStatic(SheetStaticCode::XTLM0004));

/// The text of what the query in the file `query` gives on the documents that the inputs name, as
/// the files hold them; parameters are the values of external variables (XQuery 1.0, 2.2.3, and
/// XSLT 2.0 and XQuery 1.0 Serialization, 5).
///
/// `Load` and `TooLong` come with the first file that cannot be loaded, the query's before those of
/// documents; `Static` where the text is no query or breaks a static rule; `Malformed` with the
/// first file that is no document; `Dynamic` with the code of the first error; `Deep` where one more
/// call than the depth would have to be open.
#[tactic(auto, using(xt_io::proofs::LoadLemmas::keeps_then))]
pub fn query_text<F: Files>(
    alloc: Global,
    query: &str,
    inputs: &Inputs<'_>,
    files: &mut F,
) -> Result<Vec<u8>, Status>
    requires { are_different (inputs_in inputs.now).documents ≡ true }
    ensures text { IfOk result (λ text.
        HasQueryText (F.state files.old).held query.now (inputs_in inputs.now) text.items) }
    ensures refused { IfErr result (IsNoQueryTextAs
        query.now (inputs_in inputs.now) (F.state files.old) (F.state files.new)) }
    ensures keeps { KeepsFiles (F.state files.old) (F.state files.new) }
{
    let query = load_query(alloc, query, files)?;
    let text = text_on(alloc, &query, inputs, files);
    // The run is over, and the system takes its memory back at once.
    forget(query);
    text
}

// The text of what the query gives on the documents that the inputs name.
fn text_on<F: Files>(
    alloc: Global,
    query: &Query,
    inputs: &Inputs<'_>,
    files: &mut F,
) -> Result<Vec<u8>, Status>
    requires { are_different (inputs_in inputs.now).documents ≡ true }
    ensures text { IfOk result (λ text.
        HasTextOf (F.state files.old).held query.now (inputs_in inputs.now) text.items) }
    ensures refused { IfErr result (IsNoTextOfAs
        query.now (inputs_in inputs.now) (F.state files.old) (F.state files.new)) }
    ensures keeps { KeepsFiles (F.state files.old) (F.state files.new) }
{
    let trees = load_inputs(alloc, inputs, files)?;
    let text = result_text(alloc, query, inputs, &trees);
    forget(trees);
    text
}

// The query in a file (XQuery 1.0, 2.2.3).
fn load_query<F: Files>(alloc: Global, name: &str, files: &mut F) -> Result<Query, Status>
    ensures query { IfOk result (HoldsQuery (F.state files.old).held name.now) }
    ensures refused { IfErr result
        (IsQueryRefusedAs name.now (F.state files.old) (F.state files.new)) }
    ensures keeps { KeepsFiles (F.state files.old) (F.state files.new) }
{
    let bytes = load(alloc, name, files)?;
    query_in(alloc, &bytes)
}

fn query_in(alloc: Global, bytes: &[u8]) -> Result<Query, Status>
    ensures query { IfOk result (IsQuery bytes.now) }
    ensures refused { IfErr result (IsNoQueryAs bytes.now) }
{
    match from_utf8(bytes) {
        Ok(text) => parsed(alloc, text),
        Err(_) => Err(NO_QUERY),
    }
}

// The query that the text spells.
fn parsed(alloc: Global, text: &str) -> Result<Query, Status>
    ensures query { IfOk result (SpellsWithin 400 (chars text.now)) }
    ensures refused { IfErr result (IsNoneAs (chars text.now)) }
{
    match parse_query(alloc, text) {
        Ok(query) => Ok(query),
        Err(fault) => Err(told(fault)),
    }
}

// What is said of a text that is no query.
fn told(fault: ParseFault) -> Status
    ensures { result ≡ told_of fault }
{
    match fault {
        ParseFault::Syntax => NO_QUERY,
        ParseFault::Static(code) => Status::Static(code),
        ParseFault::TooDeep => TOO_DEEP,
        ParseFault::Memory(_) => Status::Memory,
    }
}

// The text of the items that the query gives on the documents, which are stripped by its rules.
fn result_text(
    alloc: Global,
    query: &Query,
    inputs: &Inputs<'_>,
    trees: &InputTrees,
) -> Result<Vec<u8>, Status>
    requires { are_different (inputs_in inputs.now).documents ≡ true }
    ensures text { IfOk result (λ text. Gives query.now (inputs_in inputs.now)
        trees.now.document trees.now.documents text.items) }
    ensures refused { IfErr result (IsNotGivenAs query.now (inputs_in inputs.now)
        trees.now.document trees.now.documents) }
{
    let document = strip(alloc, &trees.document, &query.space)?;
    let set = set_of(alloc, &query.space, &inputs.documents, &trees.documents)?;
    let items = evaluate(alloc, query, &document, &set, inputs)?;
    let text = written(alloc, query.omit, &items);
    forget(items);
    forget(set);
    forget(document);
    text
}

// The documents that doc() finds: each under its name, stripped by the rules.
fn set_of(
    alloc: Global,
    rules: &List<SpaceRule>,
    names: &List<Text>,
    trees: &List<Tree>,
) -> Result<DocSet, AllocError>
    requires { are_different names.now ≡ true }
    ensures { IfOk result (λ set. set ≡ set_of rules.now names.now trees.now) }
{
    let mut set = DocSet::new(alloc);
    let keys = names.as_slice();
    let roots = trees.as_slice();
    for place in 0..keys.len().min(roots.len()) {
        let stripped = strip(alloc, &roots[place], rules)?;
        add(&mut set, &keys[place], stripped)?;
    }
    Ok(set)
}

// Puts the document at the end, under a name that is not there.
fn add(set: &mut DocSet, name: &Text, tree: Tree) -> Result<(), AllocError>
    requires { is_named name.now set.old ≡ false }
    ensures { OnOk result (set.new ≡ set.old ++ (name.now, tree) ∷ []) }
{
    set.add(name.as_str(), tree)?;
    Ok(())
}

// The text of the items, without the XML declaration where it is to be left out.
fn written(alloc: Global, omit: bool, items: &ItemList) -> Result<Vec<u8>, Status>
    ensures text { IfOk result (λ text. written_for omit items.now ≡ Some text.items) }
    ensures refused { IfErr result (IsUnwrittenAs (written_for omit items.now)) }
{
    let text = if omit {
        write_items_bare(alloc, items)
    } else {
        write_items(alloc, items)
    };
    match text {
        Ok(text) => Ok(text),
        Err(WriteRefusal::Code(code)) => Err(Status::Dynamic(code)),
        Err(WriteRefusal::Memory(_)) => Err(Status::Memory),
    }
}
