ghost use Rattle.std.specs.Prelude.{◌≡◌, IfOk, IfErr};
ghost use Rattle.std.specs.Str.{encode_utf8_all};
ghost use Rattle.xt_io.specs.Files.{IsHeld, KeepsFiles};
ghost use Rattle.doc_set.specs.Fetches.{AreHeld, HasFetchCause, HasNameCause};
ghost use Rattle.doc_set.specs.declared.fetches.FetchFault.TheVariants.{Memory};

use std::alloc::{AllocError, Global};
use xt_io::{Files, LoadFault, load_file};
use xt_names::{List, Text};

/// Why the files of a set are not fetched.
#[derive(Drop)]
pub enum FetchFault {
    /// The file of this name cannot be read, or is not there.
    Load(Text),
    /// The file of this name is longer than the limit; it has at least this many bytes.
    TooLong(Text, u64),
    /// Memory ran out.
    Memory(AllocError),
}

impl From<AllocError> for FetchFault {
    ghost from_gives = { λ e fault. fault ≡ Memory e };

    fn from(e: AllocError) -> FetchFault {
        FetchFault::Memory(e)
    }
}

/// The bytes of the files of these names, in turn. A refusal tells the first name whose file cannot
/// be read, or is longer than 67,108,864 bytes; nothing is loaded after it.
#[tactic(auto, using(xt_io::proofs::LoadLemmas::keeps_none, xt_io::proofs::LoadLemmas::keeps_then))]
pub fn fetch<F: Files>(
    alloc: Global,
    files: &mut F,
    names: &List<Text>,
) -> Result<List<List<u8>>, FetchFault>
    ensures held { IfOk result (AreHeld (F.state files.old).held names.now) }
    ensures refused { IfErr result
        (HasFetchCause (F.state files.old) (F.state files.new) names.now) }
    ensures keeps { KeepsFiles (F.state files.old) (F.state files.new) }
{
    let mut texts = List::new(alloc);
    for name in names.as_slice() {
        let text = fetch_one(alloc, files, name)?;
        texts.push(text)?;
    }
    Ok(texts)
}

fn fetch_one<F: Files>(alloc: Global, files: &mut F, name: &Text) -> Result<List<u8>, FetchFault>
    ensures held { IfOk result (IsHeld (F.state files.old).held (encode_utf8_all name.now)) }
    ensures refused { IfErr result (HasNameCause (F.state files.old) (F.state files.new) name.now) }
    ensures keeps { KeepsFiles (F.state files.old) (F.state files.new) }
{
    match load_file(alloc, files, name.as_str()) {
        Ok(bytes) => Ok(List::of_vec(bytes)),
        Err(LoadFault::Failed) => Err(FetchFault::Load(name.copy()?)),
        Err(LoadFault::TooLong(n)) => Err(FetchFault::TooLong(name.copy()?, n)),
        Err(LoadFault::Memory(e)) => Err(FetchFault::Memory(e)),
    }
}
