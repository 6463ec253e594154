// The documents on which a stylesheet or a query runs.
ghost use Rattle.std.specs.Prelude.{◌≡◌, IfOk, IfErr};
ghost use Rattle.xt_io.specs.Files.{KeepsFiles};
ghost use Rattle.command_words.specs.Requests.{inputs_in};
ghost use Rattle.std.specs.Str.{encode_utf8_all};
ghost use Rattle.doc_grammar.specs.Document.{IsDocument};
ghost use Rattle.run_parts.specs.Inputs.{HoldsInputs, IsInputRefusedAs, IsUnloadedAs};
ghost use Rattle.run_parts.specs.Further.{AreLoaded, AreTrees, IsLoadRefusedAs, IsTextRefusedAs};
ghost use Rattle.run_parts.specs.Further.{IsOneTextRefusedAs, IsTextOf};

use crate::files::{load, load_document};
use crate::status::Status;
use command_words::Inputs;
use doc_reader::{ReadFault, read};
use std::alloc::Global;
use xt_io::Files;
use xt_names::{List, Text};
use xt_tree::Tree;

/// The trees of the document and of the further documents.
#[derive(Drop)]
pub struct InputTrees {
    pub document: Tree,
    pub documents: List<Tree>,
}

/// A file that is loaded.
#[derive(Drop)]
pub(crate) struct Loaded {
    pub name: Text,
    pub text: Vec<u8>,
}

/// The trees of the inputs: the document is loaded and read first, then the files of the further
/// documents are loaded in turn, and then they are read in turn.
#[tactic(auto, using(xt_io::proofs::LoadLemmas::keeps_none, xt_io::proofs::LoadLemmas::keeps_then))]
pub fn load_inputs<F: Files>(
    alloc: Global,
    inputs: &Inputs<'_>,
    files: &mut F,
) -> Result<InputTrees, Status>
    ensures trees { IfOk result (λ trees. HoldsInputs (F.state files.old).held
        (inputs_in inputs.now) trees.document trees.documents) }
    ensures refused { IfErr result
        (IsInputRefusedAs (inputs_in inputs.now) (F.state files.old) (F.state files.new)) }
    ensures keeps { KeepsFiles (F.state files.old) (F.state files.new) }
{
    let document = load_document(alloc, inputs.document, files)?;
    let loaded = load_files(alloc, &inputs.documents, files)?;
    let documents = read_files(alloc, &loaded)?;
    Ok(InputTrees {
        document,
        documents,
    })
}

// The bytes of the files, in turn.
#[tactic(auto, using(xt_io::proofs::LoadLemmas::keeps_none, xt_io::proofs::LoadLemmas::keeps_then))]
fn load_files<F: Files>(
    alloc: Global,
    names: &List<Text>,
    files: &mut F,
) -> Result<List<Loaded>, Status>
    ensures loaded { IfOk result (AreLoaded (F.state files.old).held names.now) }
    ensures refused { IfErr result
        (IsLoadRefusedAs names.now (F.state files.old) (F.state files.new)) }
    ensures keeps { KeepsFiles (F.state files.old) (F.state files.new) }
{
    let mut loaded = List::new(alloc);
    for name in names.as_slice() {
        let file = load_file(alloc, name, files)?;
        loaded.push(file)?;
    }
    Ok(loaded)
}

fn load_file<F: Files>(alloc: Global, name: &Text, files: &mut F) -> Result<Loaded, Status>
    ensures loaded { IfOk result (IsTextOf (F.state files.old).held name.now) }
    ensures refused { IfErr result (IsUnloadedAs (encode_utf8_all name.now)
        (F.state files.old) (F.state files.new)) }
    ensures keeps { KeepsFiles (F.state files.old) (F.state files.new) }
{
    let text = load(alloc, name.as_str(), files)?;
    let name = name.copy()?;
    Ok(Loaded { name, text })
}

// The trees of the files, in turn.
fn read_files(alloc: Global, loaded: &List<Loaded>) -> Result<List<Tree>, Status>
    ensures trees { IfOk result (AreTrees loaded.now) }
    ensures refused { IfErr result (IsTextRefusedAs loaded.now) }
{
    let mut trees = List::new(alloc);
    for file in loaded.as_slice() {
        let tree = read_file(alloc, file)?;
        trees.push(tree)?;
    }
    Ok(trees)
}

fn read_file(alloc: Global, file: &Loaded) -> Result<Tree, Status>
    ensures tree { IfOk result (λ tree. IsDocument file.now.text.items tree) }
    ensures refused { IfErr result (IsOneTextRefusedAs file.now) }
{
    match read(alloc, &file.text) {
        Ok(tree) => Ok(tree),
        Err(ReadFault::Bad(spot)) => Err(Status::Malformed(file.name.copy()?, spot)),
        Err(ReadFault::Memory(_)) => Err(Status::Memory),
    }
}
