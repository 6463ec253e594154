// Start tags and end tags.
ghost use Rattle.std.specs.Prelude.{◌≡◌, ◌≤◌, ◌∷◌, [], length, None, IfOk, OnOk, MatchBool, MatchOption};
ghost use Rattle.doc_grammar.specs.RawNames.{written_name, tag_named};
ghost use Rattle.doc_grammar.specs.Scopes.{opened};
ghost use Rattle.doc_grammar.specs.Document.{AtEnd, element_of};
ghost use Rattle.doc_grammar.specs.Machine.{Stack, tag, tagged, slashed, ending, ended, may_open, scope_of, with_child};
ghost use Rattle.xml_source.specs.Reading.{reads, stop_of, Fails, Ran};
ghost use Rattle.xml_source.specs.Sources.{NextIs};
ghost use Rattle.xt_names.specs.Characters.{NotNext};
ghost use Rattle.xml_source.specs.View.{name_of};
ghost use Rattle.doc_reader.specs.View.{tag_of};
ghost use Rattle.doc_reader.specs.Frames.{open_in, here, base_of, stack_of, outside, stop_before, Pushes};
ghost use Rattle.doc_grammar.specs.Signs as sign;

use crate::readers::{Frame, LIMIT, Level, Reader};
use crate::scopes::open_tag;
use crate::tags::{self, RawTag};
use std::alloc::{AllocError, Global};
use xml_source::{RawName, Source, Step, Stop, starts_name};
use xt_names::{List, Text};
use xt_tree::Tree;

impl<'a> Reader<'a> {
    /// Reads a start tag after its `<`.
    pub(crate) fn start_tag(&mut self, alloc: Global) -> Result<Step, AllocError>
        requires no_slash { NotNext sign.slash self.old.source }
        requires no_bang { NotNext sign.exclamation self.old.source }
        requires no_question { NotNext sign.question self.old.source }
        ensures ran { IfOk result (λ s. Ran (reads self.old.source (tag self.old.text (open_in self.old))) self.new.source (here self.new) s) }
        ensures shorter { length self.new.source ≤ length self.old.source }
    {
        self.flush(alloc)?;
        if !self.may_open() {
            return Ok(Step::Stopped(self.stop_before_name()));
        }
        let Some(name) = self.source.name() else {
            return Ok(Step::Stopped(Stop::Other));
        };
        self.named(alloc, name)
    }

    /// Whether an element may begin.
    fn may_open(&self) -> bool
        ensures { result ≡ may_open (open_in self.now) }
    {
        if self.frames.is_empty() {
            self.level != Level::Rooted
        } else {
            self.frames.len() < LIMIT
        }
    }

    /// Why no element may begin.
    fn stop_before_name(&self) -> Stop
        ensures { stop_of result ≡ stop_before self.now.source (open_in self.now) }
    {
        match self.source.peek() {
            Some(c) if starts_name(c) && !self.frames.is_empty() => Stop::Deep,
            _ => Stop::Other,
        }
    }

    /// Reads a start tag after its name.
    fn named(&mut self, alloc: Global, name: RawName<'a>) -> Result<Step, AllocError>
        requires text { self.old.text ≡ [] }
        ensures ran { IfOk result (λ s. Ran (reads self.old.source (tagged (tag_named (name_of name.entry)) (open_in self.old))) self.new.source (here self.new) s) }
        ensures shorter { length self.new.source ≤ length self.old.source }
    {
        let mut tag = RawTag {
            name,
            attributes: Vec::new(alloc),
        };
        match tags::tag(&mut self.source, alloc, &mut self.piece, &mut tag)? {
            Step::On => self.open(alloc, tag),
            stopped => Ok(stopped),
        }
    }

    /// Reads the end of a start tag.
    fn open(&mut self, alloc: Global, tag: RawTag<'a>) -> Result<Step, AllocError>
        requires text { self.old.text ≡ [] }
        requires ends { AtEnd self.old.source }
        ensures ran { IfOk result (λ s. Ran (reads self.old.source (tagged (tag_of tag.entry) (open_in self.old))) self.new.source (here self.new) s) }
        ensures shorter { length self.new.source ≤ length self.old.source }
    {
        if self.source.eat('/') {
            self.open_empty(alloc, tag)
        } else {
            self.open_full(alloc, tag)
        }
    }

    /// Reads the `>` of a start tag, and opens its element.
    fn open_full(&mut self, alloc: Global, tag: RawTag<'a>) -> Result<Step, AllocError>
        requires text { self.old.text ≡ [] }
        requires closes { NextIs 62 self.old.source }
        ensures ran { IfOk result (λ s. Ran (reads self.old.source (tagged (tag_of tag.entry) (open_in self.old))) self.new.source (here self.new) s) }
        ensures shorter { length self.new.source ≤ length self.old.source }
    {
        let Some(frame) = self.open_frame(alloc, tag)? else {
            return Ok(Step::Stopped(Stop::Names));
        };
        let _closed = self.source.eat('>');
        self.frames.push(frame)?;
        Ok(Step::On)
    }

    /// Reads the `>` of an empty-element tag, and makes its element.
    fn open_empty(&mut self, alloc: Global, tag: RawTag<'a>) -> Result<Step, AllocError>
        requires text { self.old.text ≡ [] }
        ensures ran { IfOk result (λ s. Ran (reads self.old.source (slashed (tag_of tag.entry) (open_in self.old))) self.new.source (here self.new) s) }
        ensures shorter { length self.new.source ≤ length self.old.source }
    {
        if !self.source.is_next('>') {
            return Ok(Step::Stopped(Stop::Other));
        }
        let Some(frame) = self.open_frame(alloc, tag)? else {
            return Ok(Step::Stopped(Stop::Names));
        };
        let _closed = self.source.eat('>');
        self.close(alloc, frame)?;
        Ok(Step::On)
    }

    /// The frame of a start tag, whose declarations come into force; None where the tag breaks a rule on names.
    fn open_frame(
        &mut self,
        alloc: Global,
        tag: RawTag<'a>,
    ) -> Result<Option<Frame<'a>>, AllocError>
        ensures opens { IfOk result (λ o. MatchOption o (opened (scope_of (open_in self.old)) (tag_of tag.entry) ≡ None)
            (λ f. Pushes (tag_of tag.entry) (open_in self.old) f self.new.frames.items self.new.scope (base_of self.new))) }
        ensures source { self.new.source ≡ self.old.source }
        ensures text { self.new.text ≡ self.old.text }
    {
        self.enter(alloc)?;
        match open_tag(alloc, &mut self.pool, &mut self.scope, &tag)? {
            None => Ok(None),
            Some(opened) => {
                let declared = opened.declarations.len();
                self.declared.push(opened.declarations)?;
                Ok(Some(Frame {
                    name: tag.name,
                    element: opened.element,
                    attributes: opened.attributes,
                    declared,
                    kids: List::new(alloc),
                }))
            }
        }
    }

    /// Puts the first bindings into force where no element is open.
    fn enter(&mut self, alloc: Global) -> Result<(), AllocError>
        ensures scope { OnOk result (self.new.scope ≡ scope_of (open_in self.old)) }
        ensures opened { OnOk result (open_in self.new ≡ open_in self.old) }
        ensures source { self.new.source ≡ self.old.source }
        ensures text { self.new.text ≡ self.old.text }
    {
        if self.frames.is_empty() {
            self.scope.truncate(0);
            let uri = Text::make(alloc, "http://www.w3.org/XML/1998/namespace")?;
            self.scope.push(Text::make(alloc, "xml")?, uri)?;
        }
        Ok(())
    }

    /// Reads an end tag before its `/`.
    pub(crate) fn end_tag(&mut self, alloc: Global) -> Result<Step, AllocError>
        requires { NextIs 47 self.old.source }
        ensures ran { IfOk result (λ s. Ran (reads self.old.source (tag self.old.text (open_in self.old))) self.new.source (here self.new) s) }
        ensures shorter { length self.new.source ≤ length self.old.source }
    {
        self.flush(alloc)?;
        match self.frames.pop() {
            None => Ok(Step::Stopped(Stop::Other)),
            Some(frame) => {
                let _slash = self.source.eat('/');
                if end_tag(&mut self.source, frame.name) {
                    self.close(alloc, frame)?;
                    Ok(Step::On)
                } else {
                    Ok(Step::Stopped(Stop::Other))
                }
            }
        }
    }

    /// Makes the element of a frame that is no longer open, and puts it after what is open.
    fn close(&mut self, alloc: Global, frame: Frame<'a>) -> Result<(), AllocError>
        ensures opened { OnOk result (open_in self.new ≡ with_child (element_of (record { name = frame.entry.element; attributes = frame.entry.attributes; scope = self.old.scope }) frame.entry.kids)
            (stack_of self.old.frames.items (outside frame.entry self.old.scope) (base_of self.old))) }
        ensures source { self.new.source ≡ self.old.source }
        ensures text { self.new.text ≡ self.old.text }
    {
        let Frame {
            name: _,
            element,
            attributes,
            declared,
            kids,
        } = frame;
        self.scope
            .truncate(self.scope.len().saturating_sub(declared));
        let kids = self.pool.kids(alloc, kids)?;
        self.add(Tree::Elem(element, attributes, kids))
    }

    /// Puts an element after what is open.
    fn add(&mut self, tree: Tree) -> Result<(), AllocError>
        ensures opened { OnOk result (open_in self.new ≡ with_child tree (open_in self.old)) }
        ensures source { self.new.source ≡ self.old.source }
        ensures text { self.new.text ≡ self.old.text }
    {
        match self.frames.pop() {
            None => {
                self.level = Level::Rooted;
                self.kids.push(tree)
            }
            Some(mut frame) => {
                frame.kids.push(tree)?;
                self.frames.push(frame)?;
                Ok(())
            }
        }
    }
}

/// Takes an end tag of the name, after its `/`.
fn end_tag(source: &mut Source<'_>, name: RawName<'_>) -> bool
    ensures ends { (st : Stack) → MatchBool result (reads source.old (ending (written_name (name_of name.entry)) st) ≡ reads (62 ∷ source.new) (ended st)) (Fails (reads source.old (ending (written_name (name_of name.entry)) st)) source.new) }
    ensures shorter { length source.new ≤ length source.old }
{
    if !source.end_name(name) {
        return false;
    }
    let _space = source.spaces();
    source.eat('>')
}
