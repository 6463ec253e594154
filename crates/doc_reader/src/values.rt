// Values of attributes.
ghost use Rattle.std.specs.Prelude.{◌≡◌, ◌≤◌, ◌<◌, ◌++◌, ◌∷◌, [], true, length, List, ℕ, IfOk, Some, slice_get, MatchBool, MatchResult, IsOk};
ghost use Rattle.std.specs.List.{list_all};
ghost use Rattle.std.specs.Str.{chars};
ghost use Rattle.xt_names.specs.Characters.{is_quote, is_space, Ends, NotNext};
ghost use Rattle.doc_grammar.specs.RawNames.{RawName, RawTag, with_attribute};
ghost use Rattle.doc_grammar.specs.Machine.{Stack, tagged, valued, stops};
ghost use Rattle.xml_source.specs.Classes.{is_plain_value};
ghost use Rattle.xml_source.specs.Reading.{reads, stop_of, Ran};

use std::alloc::AllocError;
use xml_source::{Buffer, DoubleQuoted, SingleQuoted, Source, Step, Stop, is_space};

/// Takes the value of an attribute after its quote, and the quote after it.
pub(crate) fn value<'a>(
    source: &mut Source<'a>,
    quote: char,
    value: &mut Buffer,
) -> Result<Step, AllocError>
    requires { is_quote quote ≡ true }
    ensures ran { IfOk result (λ s. (t : RawTag) (name : RawName) (st : Stack) → Ran (reads source.old (valued t name quote value.old st)) source.new (tagged (with_attribute t name value.new) st) s) }
    ensures shorter { length source.new ≤ length source.old }
{
    'parts: loop {
        let run = plain_value(source, quote);
        value.push_str(run)?;
        if source.eat(quote) {
            return Ok(Step::On);
        }
        match value_character(source) {
            Ok(c) => value.push(c)?,
            Err(stop) => return Ok(Step::Stopped(stop)),
        }
    }
}

/// Takes what stands for itself in a value between such quotes.
fn plain_value<'a>(source: &mut Source<'a>, quote: char) -> &'a str
    requires { is_quote quote ≡ true }
    ensures run { source.old ≡ chars result.now ++ source.new }
    ensures passes { list_all (is_plain_value quote) (chars result.now) ≡ true }
    ensures ends { Ends (is_plain_value quote) source.new }
    ensures shorter { length source.new ≤ length source.old }
{
    if quote == '"' {
        source.take_run::<DoubleQuoted>()
    } else {
        source.take_run::<SingleQuoted>()
    }
}

/// Takes a reference, or white space that stands for a space.
fn value_character<'a>(source: &mut Source<'a>) -> Result<char, Stop>
    ensures reads { (q : ℕ) (t : RawTag) (name : RawName) (read : List ℕ) (st : Stack) → is_quote q ≡ true → NotNext q source.old → Ends (is_plain_value q) source.old → MatchResult result
        (λ c. reads source.old (valued t name q read st) ≡ reads source.new (valued t name q (read ++ c ∷ []) st))
        (λ why. reads source.old (valued t name q read st) ≡ stops (stop_of why) source.new) }
    ensures shorter { length source.new ≤ length source.old }
    ensures falls { IsOk result → length source.new < length source.old }
{
    if source.eat('&') {
        return source.reference();
    }
    if !is_space_next(source) {
        return Err(Stop::Other);
    }
    let _space = source.skip();
    Ok(' ')
}

fn is_space_next(source: &Source<'_>) -> bool
    ensures { MatchBool result ((c : ℕ) × (Some c ≡ slice_get source.now 0) × (is_space c ≡ true)) (Ends is_space source.now) }
{
    match source.peek() {
        Some(c) => is_space(c),
        None => false,
    }
}
