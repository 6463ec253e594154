ghost use Rattle.std.specs.Prelude.{◌≡◌, ◌++◌, ◌∷◌, [], IfOk, List as Items, ℕ};
ghost use Rattle.std.specs.Str.{chars};
ghost use Rattle.xt_names.specs.Marks.{is_white};
ghost use Rattle.query_options.specs.Words.{word_and, words_in, words_of};

use std::alloc::{AllocError, Global};
use xt_names::{List, Text, TextBuilder};

/// The words so far, and the one that is being read.
#[derive(Drop)]
struct Reading {
    words: List<Text>,
    word: TextBuilder,
}

/// The words of the text, which white space parts (XML 1.0, production `S`).
pub fn words_of(alloc: Global, text: &str) -> Result<List<Text>, AllocError>
    ensures { IfOk result (λ words. words ≡ words_of (chars text.now)) }
{
    let all = chars_of(alloc, text)?;
    words_in(alloc, all.as_slice())
}

fn chars_of(alloc: Global, text: &str) -> Result<Vec<char>, AllocError>
    ensures { IfOk result (λ all. all.items ≡ chars text.now) }
{
    text.chars().collect(alloc)
}

fn words_in(alloc: Global, text: &[char]) -> Result<List<Text>, AllocError>
    ensures { IfOk result (λ words. words ≡ words_of text.now) }
{
    let mut reading = Reading {
        words: List::new(alloc),
        word: TextBuilder::new(alloc),
    };
    for c in text {
        reading = with_char(alloc, reading, *c)?;
    }
    with_word(reading.words, reading.word)
}

#[tactic(auto, using(crate::proofs::WordLemmas::turns))]
fn with_char(alloc: Global, reading: Reading, c: char) -> Result<Reading, AllocError>
    ensures { IfOk result (λ more. (cs : Items ℕ)
        → more.words ++ words_in more.word cs ≡ reading.words ++ words_in reading.word (c ∷ cs)) }
{
    let mut word = reading.word;
    if is_white(c) {
        let words = with_word(reading.words, word)?;
        return Ok(Reading {
            words,
            word: TextBuilder::new(alloc),
        });
    }
    word.push(c)?;
    Ok(Reading {
        words: reading.words,
        word,
    })
}

fn with_word(words: List<Text>, word: TextBuilder) -> Result<List<Text>, AllocError>
    ensures { IfOk result (λ more. more ≡ words ++ word_and word []) }
{
    let word = word.finish()?;
    if word.is_empty() {
        return Ok(words);
    }
    let mut more = words;
    more.push(word)?;
    Ok(more)
}

fn is_white(c: char) -> bool
    ensures { result ≡ is_white c }
{
    c == ' ' || c == '\t' || c == '\n' || c == '\r'
}
