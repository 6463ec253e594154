// The XML declaration and the document type declaration (XML 1.0, 2.8 and 4.3.3).
ghost use Rattle.std.specs.Prelude.{◌≡◌, ◌≤◌, ◌-◌, length, true};
ghost use Rattle.xt_names.specs.Characters.{is_quote};
ghost use Rattle.doc_grammar.specs.Forms.{Form, elsewhere, encoding, many};
ghost use Rattle.doc_grammar.specs.Prolog as prolog;
ghost use Rattle.xml_source.specs.PrologParts as parts;
ghost use Rattle.xml_source.specs.Spelling.{spells, end_of, stops_in, Spells, Takes};

use crate::classes::{
    ColonNameChar, Digit, NotDoubleQuote, NotSingleQuote, PublicInDouble, PublicInSingle,
    starts_colon_name,
};
use crate::sources::Source;
use crate::steps::{Step, Stop};

/// What stops for no reason of its own.
const OTHER: Step = Step::Stopped(Stop::Other);

impl<'a> Source<'a> {
    /// Takes an XML declaration after its `<?xml`.
    #[tactic(auto, unfolding(doc_grammar::specs::Prolog::xml_declaration))]
    pub fn xml_declaration(&mut self) -> Step
        ensures reads { Spells self.old (prolog.xml_declaration) result self.new }
        ensures shorter { length self.new ≤ length self.old }
    {
        if !self.spaces() {
            return OTHER;
        }
        if !self.eat_text("version") {
            return OTHER;
        }
        match self.equals() {
            Some(quote) => self.version_number(quote),
            None => OTHER,
        }
    }

    /// Takes a version number after its quote, and what follows it.
    fn version_number(&mut self, quote: char) -> Step
        ensures reads { Spells self.old (prolog.version_number quote) result self.new }
        ensures shorter { length self.new ≤ length self.old }
    {
        if !self.eat_text("1.") {
            return OTHER;
        }
        if self.take_run::<Digit>().is_empty() {
            return OTHER;
        }
        if !self.eat(quote) {
            return OTHER;
        }
        if !self.spaces() {
            return self.declaration_end();
        }
        if self.is_next('e') {
            return self.encoding_declaration();
        }
        if self.is_next('s') {
            return self.standalone();
        }
        self.declaration_end()
    }

    fn encoding_declaration(&mut self) -> Step
        ensures reads { Spells self.old (prolog.encoding_declaration) result self.new }
        ensures shorter { length self.new ≤ length self.old }
    {
        if !self.eat_text("encoding") {
            return OTHER;
        }
        match self.equals() {
            Some(quote) => self.encoding_name(quote),
            None => OTHER,
        }
    }

    /// Takes the name of the encoding after its quote, and what follows it.
    fn encoding_name(&mut self, quote: char) -> Step
        ensures reads { Spells self.old (prolog.encoding_name quote) result self.new }
        ensures shorter { length self.new ≤ length self.old }
    {
        if !self.is_utf8_named(quote) {
            return self.stop_in_encoding();
        }
        if !self.spaces() {
            return self.declaration_end();
        }
        if self.is_next('s') {
            return self.standalone();
        }
        self.declaration_end()
    }

    /// Why the name of the encoding does not go on so: another is named, or the text is over.
    fn stop_in_encoding(&self) -> Step
        ensures { stops_in encoding self.now ≡ end_of result self.now }
    {
        match self.peek() {
            Some(_) => Step::Stopped(Stop::Encoding),
            None => OTHER,
        }
    }

    /// Takes the name of UTF-8 and the quote after it.
    fn is_utf8_named(&mut self, quote: char) -> bool
        ensures reads { Takes self.old (parts.utf8_name quote) encoding result self.new }
        ensures shorter { length self.new ≤ length self.old }
    {
        if !self.letter('u', 'U') {
            return false;
        }
        if !self.letter('t', 'T') {
            return false;
        }
        if !self.letter('f', 'F') {
            return false;
        }
        if !self.eat_text("-8") {
            return false;
        }
        self.eat(quote)
    }

    fn letter(&mut self, small: char, great: char) -> bool
        requires { great ≡ small - 32 }
        ensures reads { Takes self.old (parts.letter small) encoding result self.new }
        ensures shorter { length self.new ≤ length self.old }
    {
        if self.eat(small) {
            return true;
        }
        self.eat(great)
    }

    fn standalone(&mut self) -> Step
        ensures reads { Spells self.old (prolog.standalone) result self.new }
        ensures shorter { length self.new ≤ length self.old }
    {
        if !self.eat_text("standalone") {
            return OTHER;
        }
        let Some(quote) = self.equals() else {
            return OTHER;
        };
        if !self.yes_or_no() {
            return OTHER;
        }
        if !self.eat(quote) {
            return OTHER;
        }
        self.declaration_end()
    }

    fn yes_or_no(&mut self) -> bool
        ensures reads { Takes self.old parts.yes_or_no elsewhere result self.new }
        ensures shorter { length self.new ≤ length self.old }
    {
        if self.is_next('y') {
            self.eat_text("yes")
        } else {
            self.eat_text("no")
        }
    }

    fn declaration_end(&mut self) -> Step
        ensures reads { Spells self.old (prolog.declaration_end) result self.new }
        ensures shorter { length self.new ≤ length self.old }
    {
        let _space = self.spaces();
        if !self.eat('?') {
            return OTHER;
        }
        if !self.eat('>') {
            return OTHER;
        }
        Step::On
    }

    /// Takes a document type declaration after its `<!`.
    #[tactic(auto, unfolding(doc_grammar::specs::Prolog::doctype_declaration))]
    pub fn doctype(&mut self) -> Step
        ensures reads { Spells self.old (prolog.doctype_declaration) result self.new }
        ensures shorter { length self.new ≤ length self.old }
    {
        if !self.eat_text("DOCTYPE") {
            return OTHER;
        }
        if !self.spaces() {
            return OTHER;
        }
        if !self.colon_name() {
            return OTHER;
        }
        if !self.spaces() {
            return self.doctype_end();
        }
        if self.is_next('S') {
            return self.system_id();
        }
        if self.is_next('P') {
            return self.public_id();
        }
        self.doctype_end()
    }

    /// Takes a name that may have colons.
    fn colon_name(&mut self) -> bool
        ensures reads { Takes self.old parts.colon_name elsewhere result self.new }
        ensures shorter { length self.new ≤ length self.old }
    {
        match self.peek() {
            Some(c) if starts_colon_name(c) => {
                let _name = self.take_run::<ColonNameChar>();
                true
            }
            _ => false,
        }
    }

    fn system_id(&mut self) -> Step
        ensures reads { Spells self.old (prolog.system_id) result self.new }
        ensures shorter { length self.new ≤ length self.old }
    {
        if !self.eat_text("SYSTEM") {
            return OTHER;
        }
        if !self.spaces() {
            return OTHER;
        }
        self.system_literal()
    }

    fn public_id(&mut self) -> Step
        ensures reads { Spells self.old (prolog.public_id) result self.new }
        ensures shorter { length self.new ≤ length self.old }
    {
        if !self.eat_text("PUBLIC") {
            return OTHER;
        }
        if !self.spaces() {
            return OTHER;
        }
        if !self.public_literal() {
            return OTHER;
        }
        if !self.spaces() {
            return OTHER;
        }
        self.system_literal()
    }

    /// Takes a system identifier in its quotes, and the end of the declaration.
    fn system_literal(&mut self) -> Step
        ensures reads { Spells self.old (prolog.system_literal) result self.new }
        ensures shorter { length self.new ≤ length self.old }
    {
        let Some(quote) = self.quote() else {
            return OTHER;
        };
        self.identifier(quote);
        if !self.eat(quote) {
            return OTHER;
        }
        self.doctype_end()
    }

    /// Takes the characters of a system identifier between such quotes.
    fn identifier(&mut self, quote: char)
        requires { is_quote quote ≡ true }
        ensures reads { (f : Form) → spells self.old (many (prolog.is_in_system quote) f) ≡ spells self.new f }
        ensures shorter { length self.new ≤ length self.old }
    {
        if quote == '"' {
            let _identifier = self.take_run::<NotDoubleQuote>();
        } else {
            let _identifier = self.take_run::<NotSingleQuote>();
        }
    }

    /// Takes a public identifier in its quotes.
    fn public_literal(&mut self) -> bool
        ensures reads { Takes self.old parts.public_literal elsewhere result self.new }
        ensures shorter { length self.new ≤ length self.old }
    {
        let Some(quote) = self.quote() else {
            return false;
        };
        self.public_identifier(quote);
        self.eat(quote)
    }

    /// Takes the characters of a public identifier between such quotes.
    fn public_identifier(&mut self, quote: char)
        requires { is_quote quote ≡ true }
        ensures reads { (f : Form) → spells self.old (many (prolog.is_in_public quote) f) ≡ spells self.new f }
        ensures shorter { length self.new ≤ length self.old }
    {
        if quote == '"' {
            let _identifier = self.take_run::<PublicInDouble>();
        } else {
            let _identifier = self.take_run::<PublicInSingle>();
        }
    }

    fn doctype_end(&mut self) -> Step
        ensures reads { Spells self.old (prolog.doctype_close) result self.new }
        ensures shorter { length self.new ≤ length self.old }
    {
        let _space = self.spaces();
        if self.eat('>') {
            return Step::On;
        }
        if self.is_next('[') {
            return Step::Stopped(Stop::Subset);
        }
        OTHER
    }
}
