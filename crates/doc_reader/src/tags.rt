// Start tags, as they are written.
ghost use Rattle.std.specs.Prelude.{◌≡◌, ◌≤◌, ◌<◌, length, IfOk, MatchBool};
ghost use Rattle.xt_names.specs.Characters.{is_space, Ends, NotNext};
ghost use Rattle.doc_grammar.specs.Document.{AtEnd};
ghost use Rattle.doc_grammar.specs.Machine.{Stack, tagged, spaced};
ghost use Rattle.xml_source.specs.Reading.{reads, Ran, OnStep};
ghost use Rattle.doc_reader.specs.View.{tag_of};
ghost use Rattle.doc_grammar.specs.Signs as sign;

use crate::values;
use std::alloc::{AllocError, Global};
use xml_source::{Buffer, RawName, Source, Step, Stop};
use xt_names::Text;

/// An attribute as it is written, namespace declarations included.
#[derive(Drop)]
pub(crate) struct RawAttribute<'a> {
    pub(crate) name: RawName<'a>,
    pub(crate) value: Text,
}

/// A start tag as it is written.
#[derive(Drop)]
pub(crate) struct RawTag<'a> {
    pub(crate) name: RawName<'a>,
    pub(crate) attributes: Vec<RawAttribute<'a>>,
}

/// Whether the end of a start tag comes next.
fn is_at_end(source: &Source<'_>) -> bool
    ensures { MatchBool result (AtEnd source.now) (NotNext sign.greater_than source.now × NotNext sign.slash source.now) }
{
    matches!(source.peek(), Some('>' | '/'))
}

/// Takes the attributes of a start tag, up to its end.
pub(crate) fn tag<'a>(
    source: &mut Source<'a>,
    alloc: Global,
    value: &mut Buffer,
    tag: &mut RawTag<'a>,
) -> Result<Step, AllocError>
    ensures ran { IfOk result (λ s. (st : Stack) → Ran (reads source.old (tagged (tag_of tag.old) st)) source.new (tagged (tag_of tag.new) st) s) }
    ensures ends { IfOk result (λ s. OnStep s (AtEnd source.new)) }
    ensures name { tag.new.name ≡ tag.old.name }
    ensures shorter { length source.new ≤ length source.old }
{
    'attributes: loop {
        let spaced = source.spaces();
        if is_at_end(source) {
            return Ok(Step::On);
        }
        if !spaced {
            return Ok(Step::Stopped(Stop::Other));
        }
        match attribute(source, alloc, value, tag)? {
            Step::On => {}
            Step::Stopped(stop) => return Ok(Step::Stopped(stop)),
        }
    }
}

/// Takes an attribute, after white space.
fn attribute<'a>(
    source: &mut Source<'a>,
    alloc: Global,
    value: &mut Buffer,
    tag: &mut RawTag<'a>,
) -> Result<Step, AllocError>
    requires no_space { Ends is_space source.old }
    requires no_close { NotNext sign.greater_than source.old }
    requires no_slash { NotNext sign.slash source.old }
    ensures ran { IfOk result (λ s. (st : Stack) → Ran (reads source.old (spaced (tag_of tag.old) st)) source.new (tagged (tag_of tag.new) st) s) }
    ensures falls { IfOk result (λ s. OnStep s (length source.new < length source.old)) }
    ensures name { tag.new.name ≡ tag.old.name }
    ensures shorter { length source.new ≤ length source.old }
{
    let Some(name) = source.name() else {
        return Ok(Step::Stopped(Stop::Other));
    };
    let Some(quote) = source.equals() else {
        return Ok(Step::Stopped(Stop::Other));
    };
    value.clear();
    match values::value(source, quote, value)? {
        Step::On => {
            let value = value.to_text(alloc)?;
            tag.attributes.push(RawAttribute { name, value })?;
            Ok(Step::On)
        }
        Step::Stopped(stop) => Ok(Step::Stopped(stop)),
    }
}
