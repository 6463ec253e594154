// The reader: what is open, and what comes next.
ghost use Rattle.std.specs.Prelude.{◌≡◌, ◌<◌, ◌≤◌, [], true, false, length, List, ℕ, IfOk, OnOk, MatchBool, MatchResult, ◌⊎◌};
ghost use Rattle.std.specs.Str.{chars};
ghost use Rattle.xt_names.specs.Characters.{is_name_char, Ends, NotNext};
ghost use Rattle.doc_grammar.specs.Lexing.{dash};
ghost use Rattle.doc_grammar.specs.Lexemes.{is_target};
ghost use Rattle.doc_grammar.specs.Document.{begun, blank, rooted, may_type};
ghost use Rattle.doc_grammar.specs.Machine.{tag, bang, targeting, marked, content, with_aside, with_text, declares, start, finish, whole, stops, other};
ghost use Rattle.xml_source.specs.Reading.{reads, stop_of, Ran, OnStep};
ghost use Rattle.xml_source.specs.Sources.{NextIs};
ghost use Rattle.doc_reader.specs.Frames.{level_of, open_in, here};
ghost use Rattle.doc_grammar.specs.Signs as sign;

use crate::pools::Pool;
use name_scopes::NamespaceScope;
use std::alloc::{AllocError, Global};
use xml_source::{Bracket, Buffer, PlainText, RawName, Source, Step, Stop};
use xt_names::{Binding, List, Name, Text, is_ascii_text};
use xt_tree::{Attrs, Kids, Tree};

/// How many elements are open at most.
pub(crate) const LIMIT: usize = 2000;

/// An element that is open.
#[derive(Drop)]
pub(crate) struct Frame<'a> {
    pub(crate) name: RawName<'a>,
    pub(crate) element: Name,
    pub(crate) attributes: Attrs,
    /// How many namespace declarations its start tag has.
    pub(crate) declared: usize,
    pub(crate) kids: List<Tree>,
}

/// What has been read of the document.
#[derive(Clone, Copy, PartialEq, Eq)]
pub(crate) enum Level {
    /// Nothing.
    Blank,
    /// Something, but neither a DOCTYPE nor the root.
    Fresh,
    /// A DOCTYPE and not the root.
    Typed,
    /// The root.
    Rooted,
}

#[derive(Drop)]
pub(crate) struct Reader<'a> {
    pub(crate) source: Source<'a>,
    /// The elements that are open, the innermost last.
    pub(crate) frames: Vec<Frame<'a>>,
    /// The bindings in force, the innermost last.
    pub(crate) scope: NamespaceScope,
    /// The text so far in the innermost element.
    pub(crate) text: Buffer,
    /// What is being read of a value, a comment or an instruction.
    pub(crate) piece: Buffer,
    pub(crate) level: Level,
    /// The children of the document so far.
    pub(crate) kids: List<Tree>,
    /// The declarations of each element so far.
    pub(crate) declared: List<List<Binding>>,
    /// What the parts of the document share.
    pub(crate) pool: Pool,
}

impl<'a> Reader<'a> {
    /// Before the first character of a text.
    pub(crate) fn new(alloc: Global, text: &'a str) -> Result<Reader<'a>, AllocError>
        ensures { IfOk result (λ r. (r.source ≡ chars text.now) × (here r ≡ start)) }
    {
        Ok(Reader {
            source: Source::new(text),
            frames: Vec::new(alloc),
            scope: NamespaceScope::new(alloc),
            text: Buffer::new(alloc),
            piece: Buffer::new(alloc),
            level: Level::Blank,
            kids: List::new(alloc),
            declared: List::new(alloc),
            pool: Pool::new(alloc)?,
        })
    }

    /// Reads the next part of the content, or of the document around its root.
    pub(crate) fn part(&mut self, alloc: Global) -> Result<Step, AllocError>
        requires { 0 < length self.old.source }
        ensures ran { IfOk result (λ s. Ran (reads self.old.source (here self.old)) self.new.source (here self.new) s) }
        ensures falls { IfOk result (λ s. OnStep s (length self.new.source < length self.old.source)) }
    {
        if self.source.eat('<') {
            return self.markup(alloc);
        }
        if self.frames.is_empty() {
            return Ok(self.around());
        }
        self.characters()
    }

    /// Reads white space around the root.
    fn around(&mut self) -> Step
        requires some { 0 < length self.old.source }
        requires ground { self.old.frames.items ≡ [] }
        requires no_markup { NotNext sign.less_than self.old.source }
        ensures ran { Ran (reads self.old.source (here self.old)) self.new.source (here self.new) result }
        ensures falls { OnStep result (length self.new.source < length self.old.source) }
    {
        if !self.source.spaces() {
            return Step::Stopped(Stop::Other);
        }
        self.begin();
        Step::On
    }

    /// Something is read.
    fn begin(&mut self)
        ensures text { self.new.text ≡ [] }
        ensures level { level_of self.new.level ≡ begun (level_of self.old.level) }
        ensures frames { self.new.frames.items ≡ self.old.frames.items }
        ensures scope { self.new.scope ≡ self.old.scope }
        ensures kids { self.new.kids ≡ self.old.kids }
        ensures declared { self.new.declared ≡ self.old.declared }
        ensures source { self.new.source ≡ self.old.source }
    {
        self.text.clear();
        if self.level == Level::Blank {
            self.level = Level::Fresh;
        }
    }

    /// Reads characters of an element's content.
    fn characters(&mut self) -> Result<Step, AllocError>
        requires some { 0 < length self.old.source }
        requires element { 0 < length self.old.frames.items }
        requires no_markup { NotNext sign.less_than self.old.source }
        ensures ran { IfOk result (λ s. Ran (reads self.old.source (here self.old)) self.new.source (here self.new) s) }
        ensures falls { IfOk result (λ s. OnStep s (length self.new.source < length self.old.source)) }
    {
        if self.source.eat('&') {
            return match self.source.reference() {
                Ok(c) => {
                    self.text.push(c)?;
                    Ok(Step::On)
                }
                Err(stop) => Ok(Step::Stopped(stop)),
            };
        }
        if self.source.eat('>') {
            self.text.push('>')?;
            return Ok(Step::On);
        }
        if self.source.is_next(']') {
            return self.brackets();
        }
        self.plain_text()
    }

    fn plain_text(&mut self) -> Result<Step, AllocError>
        requires some { 0 < length self.old.source }
        requires element { 0 < length self.old.frames.items }
        requires no_markup { NotNext sign.less_than self.old.source }
        requires no_reference { NotNext sign.ampersand self.old.source }
        requires no_close { NotNext sign.greater_than self.old.source }
        requires no_bracket { NotNext sign.right_bracket self.old.source }
        ensures ran { IfOk result (λ s. Ran (reads self.old.source (here self.old)) self.new.source (here self.new) s) }
        ensures falls { IfOk result (λ s. OnStep s (length self.new.source < length self.old.source)) }
    {
        let run = self.source.take_run::<PlainText>();
        if run.is_empty() {
            return Ok(Step::Stopped(Stop::Other));
        }
        self.text.push_str(run)?;
        Ok(Step::On)
    }

    /// Reads closing brackets, and stops before a `>` after two of them.
    fn brackets(&mut self) -> Result<Step, AllocError>
        requires bracket { NextIs 93 self.old.source }
        requires element { 0 < length self.old.frames.items }
        ensures ran { IfOk result (λ s. Ran (reads self.old.source (here self.old)) self.new.source (here self.new) s) }
        ensures falls { IfOk result (λ s. OnStep s (length self.new.source < length self.old.source)) }
    {
        let _first = self.source.eat(']');
        self.text.push(']')?;
        if !self.source.eat(']') {
            return Ok(Step::On);
        }
        self.text.push(']')?;
        let run = self.source.take_run::<Bracket>();
        self.text.push_str(run)?;
        if self.source.is_next('>') {
            return Ok(Step::Stopped(Stop::Other));
        }
        Ok(Step::On)
    }

    /// Reads what stands after `<`.
    fn markup(&mut self, alloc: Global) -> Result<Step, AllocError>
        ensures ran { IfOk result (λ s. Ran (reads self.old.source (tag self.old.text (open_in self.old))) self.new.source (here self.new) s) }
        ensures shorter { length self.new.source ≤ length self.old.source }
    {
        match self.source.peek() {
            Some('/') => self.end_tag(alloc),
            Some('!') => self.bang(alloc),
            Some('?') => self.question(alloc),
            _ => self.start_tag(alloc),
        }
    }

    /// Reads a comment, a section or a DOCTYPE, before its `!`.
    fn bang(&mut self, alloc: Global) -> Result<Step, AllocError>
        requires { NextIs 33 self.old.source }
        ensures ran { IfOk result (λ s. Ran (reads self.old.source (tag self.old.text (open_in self.old))) self.new.source (here self.new) s) }
        ensures shorter { length self.new.source ≤ length self.old.source }
    {
        let _bang = self.source.eat('!');
        if self.source.eat('-') {
            return self.comment(alloc);
        }
        if self.frames.is_empty() {
            return Ok(self.doctype());
        }
        self.section()
    }

    fn comment(&mut self, alloc: Global) -> Result<Step, AllocError>
        ensures ran { IfOk result (λ s. Ran (reads self.old.source (marked dash self.old.text (open_in self.old))) self.new.source (here self.new) s) }
        ensures shorter { length self.new.source ≤ length self.old.source }
    {
        self.piece.clear();
        if !self.source.comment(&mut self.piece)? {
            return Ok(Step::Stopped(Stop::Other));
        }
        let comment = Tree::Comment(self.piece.to_text(alloc)?);
        self.aside(alloc, comment)?;
        Ok(Step::On)
    }

    fn section(&mut self) -> Result<Step, AllocError>
        requires element { 0 < length self.old.frames.items }
        requires no_comment { NotNext sign.hyphen self.old.source }
        ensures ran { IfOk result (λ s. Ran (reads self.old.source (bang self.old.text (open_in self.old))) self.new.source (here self.new) s) }
        ensures shorter { length self.new.source ≤ length self.old.source }
    {
        if !self.source.eat('[') {
            return Ok(Step::Stopped(Stop::Other));
        }
        if self.source.section(&mut self.text)? {
            Ok(Step::On)
        } else {
            Ok(Step::Stopped(Stop::Other))
        }
    }

    fn doctype(&mut self) -> Step
        requires ground { self.old.frames.items ≡ [] }
        requires no_comment { NotNext sign.hyphen self.old.source }
        ensures ran { Ran (reads self.old.source (bang self.old.text (open_in self.old))) self.new.source (here self.new) result }
        ensures shorter { length self.new.source ≤ length self.old.source }
    {
        if !self.may_type() {
            return Step::Stopped(Stop::Other);
        }
        let step = self.source.doctype();
        self.text.clear();
        self.level = Level::Typed;
        step
    }

    /// Whether a DOCTYPE may still come.
    fn may_type(&self) -> bool
        ensures { result ≡ may_type (level_of self.now.level) }
    {
        matches!(self.level, Level::Blank | Level::Fresh)
    }

    /// Reads an instruction, or the XML declaration, before its `?`.
    fn question(&mut self, alloc: Global) -> Result<Step, AllocError>
        requires { NextIs 63 self.old.source }
        ensures ran { IfOk result (λ s. Ran (reads self.old.source (tag self.old.text (open_in self.old))) self.new.source (here self.new) s) }
        ensures shorter { length self.new.source ≤ length self.old.source }
    {
        let _question = self.source.eat('?');
        let Some(target) = self.source.ncname() else {
            return Ok(Step::Stopped(Stop::Other));
        };
        if self.declares(target) {
            let step = self.source.xml_declaration();
            self.begin();
            return Ok(step);
        }
        if !is_target(target) {
            return Ok(Step::Stopped(Stop::Other));
        }
        self.instruction(alloc, target)
    }

    /// Whether the target begins the XML declaration: nothing comes before it, and it is `xml`.
    fn declares(&self, target: &str) -> bool
        ensures { result ≡ declares (open_in self.now) (chars target.now) }
    {
        if !self.is_blank() {
            return false;
        }
        is_ascii_text(target, "xml")
    }

    fn is_blank(&self) -> bool
        ensures { MatchBool result ((self.now.frames.items ≡ []) × (level_of self.now.level ≡ blank)) ((self.now.frames.items ≡ [] → ⊥) ⊎ (level_of self.now.level ≡ blank → ⊥)) }
    {
        if !self.frames.is_empty() {
            return false;
        }
        matches!(self.level, Level::Blank)
    }

    /// Reads an instruction after its target.
    fn instruction(&mut self, alloc: Global, target: &str) -> Result<Step, AllocError>
        requires ends { Ends is_name_char self.old.source }
        requires no_declaration { declares (open_in self.old) (chars target.now) ≡ false }
        requires target { is_target (chars target.now) ≡ true }
        ensures ran { IfOk result (λ s. Ran (reads self.old.source (targeting (chars target.now) self.old.text (open_in self.old))) self.new.source (here self.new) s) }
        ensures shorter { length self.new.source ≤ length self.old.source }
    {
        self.piece.clear();
        if !self.source.instruction(&mut self.piece)? {
            return Ok(Step::Stopped(Stop::Other));
        }
        let target = Text::make(alloc, target)?;
        let instruction = Tree::Pi(target, self.piece.to_text(alloc)?);
        self.aside(alloc, instruction)?;
        Ok(Step::On)
    }

    /// Puts a comment or an instruction after what is open.
    fn aside(&mut self, alloc: Global, tree: Tree) -> Result<(), AllocError>
        ensures here { OnOk result (here self.new ≡ content 0 [] (with_aside tree (with_text self.old.text (open_in self.old)))) }
        ensures source { self.new.source ≡ self.old.source }
    {
        self.flush(alloc)?;
        match self.frames.pop() {
            None => {
                self.begin();
                self.kids.push(tree)
            }
            Some(mut frame) => {
                frame.kids.push(tree)?;
                self.frames.push(frame)?;
                Ok(())
            }
        }
    }

    /// Makes the text so far a node, where there is a text.
    pub(crate) fn flush(&mut self, alloc: Global) -> Result<(), AllocError>
        ensures opened { OnOk result (open_in self.new ≡ with_text self.old.text (open_in self.old)) }
        ensures text { OnOk result (self.new.text ≡ []) }
        ensures count { OnOk result (length self.new.frames.items ≡ length self.old.frames.items) }
        ensures level { self.new.level ≡ self.old.level }
        ensures source { self.new.source ≡ self.old.source }
    {
        if self.text.is_empty() {
            return Ok(());
        }
        match self.frames.pop() {
            None => {
                self.text.clear();
                Ok(())
            }
            Some(mut frame) => {
                let text = self.text.to_text(alloc)?;
                frame.kids.push(Tree::Text(text))?;
                self.frames.push(frame)?;
                self.text.clear();
                Ok(())
            }
        }
    }
}

/// What a text stands for.
#[derive(Drop)]
pub(crate) struct Whole {
    pub(crate) tree: Tree,
    pub(crate) declared: List<List<Binding>>,
}

/// Why a reading stops, and how many characters are left there.
#[derive(Clone, Copy)]
pub(crate) struct Refusal {
    pub(crate) stop: Stop,
    pub(crate) left: usize,
}

impl<'a> Reader<'a> {
    /// Reads a whole text.
    pub(crate) fn read(alloc: Global, text: &str) -> Result<Result<Whole, Refusal>, AllocError>
        ensures { IfOk result (λ r. MatchResult r (λ w. reads (chars text.now) start ≡ whole w.tree w.declared) (λ f. (rest : List ℕ) × (reads (chars text.now) start ≡ stops (stop_of f.stop) rest) × (length rest ≡ f.left))) }
    {
        let mut reader = Reader::new(alloc, text)?;
        match reader.parts(alloc)? {
            Step::On => reader.finish(alloc),
            Step::Stopped(stop) => Ok(Err(Refusal {
                stop,
                left: reader.source.left(),
            })),
        }
    }

    /// Reads part by part to the end of the text.
    fn parts(&mut self, alloc: Global) -> Result<Step, AllocError>
        ensures ran { IfOk result (λ s. Ran (reads self.old.source (here self.old)) self.new.source (here self.new) s) }
        ensures over { IfOk result (λ s. OnStep s (self.new.source ≡ [])) }
    {
        'parts: loop {
            if self.source.is_over() {
                return Ok(Step::On);
            }
            match self.part(alloc)? {
                Step::On => {}
                Step::Stopped(stop) => return Ok(Step::Stopped(stop)),
            }
        }
    }

    /// Whether the root is read, and nothing is open.
    fn is_rooted(&self) -> bool
        ensures { MatchBool result ((self.now.frames.items ≡ []) × (level_of self.now.level ≡ rooted)) ((self.now.frames.items ≡ [] → ⊥) ⊎ (level_of self.now.level ≡ rooted → ⊥)) }
    {
        if !self.frames.is_empty() {
            return false;
        }
        matches!(self.level, Level::Rooted)
    }

    /// The document, at the end of the text.
    fn finish(self, alloc: Global) -> Result<Result<Whole, Refusal>, AllocError>
        ensures { IfOk result (λ r. MatchResult r (λ w. finish (here self.entry) ≡ whole w.tree w.declared) (λ f. (finish (here self.entry) ≡ stops (stop_of f.stop) []) × (f.left ≡ 0))) }
    {
        if !self.is_rooted() {
            return Ok(Err(Refusal {
                stop: Stop::Other,
                left: 0,
            }));
        }
        let tree = Tree::Doc(Kids::make(alloc, self.kids)?);
        Ok(Ok(Whole {
            tree,
            declared: self.declared,
        }))
    }
}

/// Whether an instruction may have this target, which is a name: `xml`, in any case, is reserved.
fn is_target(target: &str) -> bool
    ensures { result ≡ is_target (chars target.now) }
{
    !target.eq_ignore_ascii_case("xml")
}
