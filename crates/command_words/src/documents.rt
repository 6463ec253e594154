// The further documents.
ghost use Rattle.std.specs.Prelude.{◌≡◌, map, IfOk};
ghost use Rattle.std.specs.Str.{chars};
ghost use Rattle.command_words.specs.Requests.{documents_of};

use crate::different::are_different;
use std::alloc::{AllocError, Global};
use xt_names::{List, Text};

/// How many further documents there may be.
const MOST_DOCUMENTS: usize = 16;

fn texts_of(alloc: Global, words: &[&str]) -> Result<List<Text>, AllocError>
    ensures { IfOk result (λ texts. texts ≡ map (λ b. chars b.now) words.now) }
{
    let mut texts = List::new(alloc);
    for word in words {
        texts.push(Text::make(alloc, word)?)?;
    }
    Ok(texts)
}

/// The names of the further documents, if the values of `--doc` may stand together.
pub(crate) fn documents_of(alloc: Global, files: &[&str]) -> Result<Option<List<Text>>, AllocError>
    ensures { IfOk result
        (λ documents. documents ≡ documents_of (map (λ b. b.now) files.now)) }
{
    if files.len() > MOST_DOCUMENTS {
        return Ok(None);
    }
    let documents = texts_of(alloc, files)?;
    if !are_different(alloc, documents.as_slice())? {
        return Ok(None);
    }
    Ok(Some(documents))
}
