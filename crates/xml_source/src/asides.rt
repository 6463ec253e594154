// Comments, processing instructions and CDATA sections.
ghost use Rattle.std.specs.Prelude.{◌≡◌, ◌≤◌, ◌++◌, [], length, List, ℕ, MatchBool, IfOk, codes};
ghost use Rattle.xt_tree.specs.declared.trees.Tree.TheVariants.{Comment, Pi};
ghost use Rattle.doc_grammar.specs.Lexing.{dash, instruction, section, section_bracket, section_open};
ghost use Rattle.xml_source.specs.Asides.{lex_reads, made, said, stopped, target_reads};

use crate::buffers::Buffer;
use crate::classes::{NotBracket, NotDash, NotQuestion};
use crate::sources::Source;
use std::alloc::AllocError;

impl<'a> Source<'a> {
    /// Takes a comment after its `<!-`: its text, where it is one.
    pub fn comment(&mut self, text: &mut Buffer) -> Result<bool, AllocError>
        requires { text.old ≡ [] }
        ensures reads { IfOk result (λ b. MatchBool b (lex_reads self.old dash ≡ made (Comment text.new) self.new) (lex_reads self.old dash ≡ stopped self.new)) }
        ensures shorter { length self.new ≤ length self.old }
    {
        if !self.eat('-') {
            return Ok(false);
        }
        'dashes: loop {
            let run = self.take_run::<NotDash>();
            text.push_str(run)?;
            if !self.eat('-') {
                return Ok(false);
            }
            if self.eat('-') {
                return Ok(self.eat('>'));
            }
            text.push('-')?;
        }
    }

    /// Takes a section after its `<![`: its text is put at the end, where it is one.
    pub fn section(&mut self, text: &mut Buffer) -> Result<bool, AllocError>
        ensures reads { IfOk result (λ b. MatchBool b
            ((more : List ℕ) × (lex_reads self.old (section_open (codes "CDATA[")) ≡ said more self.new) × (text.new ≡ text.old ++ more))
            (lex_reads self.old (section_open (codes "CDATA[")) ≡ stopped self.new)) }
        ensures shorter { length self.new ≤ length self.old }
    {
        if !self.eat_text("CDATA[") {
            return Ok(false);
        }
        'brackets: loop {
            let run = self.take_run::<NotBracket>();
            text.push_str(run)?;
            if !self.eat(']') {
                return Ok(false);
            }
            if self.brackets(text)? {
                return Ok(true);
            }
        }
    }

    /// Takes more brackets after one, and says whether they close a section.
    fn brackets(&mut self, text: &mut Buffer) -> Result<bool, AllocError>
        ensures reads { IfOk result (λ b. (more : List ℕ) × (text.new ≡ text.old ++ more) × MatchBool b
            ((read : List ℕ) → lex_reads self.old (section_bracket read) ≡ said (read ++ more) self.new)
            ((read : List ℕ) → lex_reads self.old (section_bracket read) ≡ lex_reads self.new (section (read ++ more)))) }
        ensures shorter { length self.new ≤ length self.old }
    {
        if !self.eat(']') {
            text.push(']')?;
            return Ok(false);
        }
        'brackets: loop {
            if self.eat('>') {
                return Ok(true);
            }
            text.push(']')?;
            if !self.eat(']') {
                text.push(']')?;
                return Ok(false);
            }
        }
    }

    /// Takes the rest of an instruction after its target: its text, where it is one.
    pub fn instruction(&mut self, text: &mut Buffer) -> Result<bool, AllocError>
        requires { text.old ≡ [] }
        ensures reads { IfOk result (λ b. (target : List ℕ) → MatchBool b (target_reads self.old target ≡ made (Pi target text.new) self.new) (target_reads self.old target ≡ stopped self.new)) }
        ensures shorter { length self.new ≤ length self.old }
    {
        if self.eat('?') {
            return Ok(self.eat('>'));
        }
        if !self.spaces() {
            return Ok(false);
        }
        self.instruction_text(text)
    }

    /// Takes the text of an instruction after white space.
    fn instruction_text(&mut self, text: &mut Buffer) -> Result<bool, AllocError>
        ensures reads { IfOk result (λ b. (target : List ℕ) → MatchBool b
            (lex_reads self.old (instruction target text.old) ≡ made (Pi target text.new) self.new)
            (lex_reads self.old (instruction target text.old) ≡ stopped self.new)) }
        ensures shorter { length self.new ≤ length self.old }
    {
        'marks: loop {
            let run = self.take_run::<NotQuestion>();
            text.push_str(run)?;
            if !self.eat('?') {
                return Ok(false);
            }
            if self.eat('>') {
                return Ok(true);
            }
            text.push('?')?;
        }
    }
}
