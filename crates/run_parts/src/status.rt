// How a run ends.
ghost use Rattle.std.specs.Prelude.{◌≡◌, IfOk};
ghost use Rattle.std.specs.String.{string_bytes};
ghost use Rattle.run_parts.specs.Status.{status_number, note_line, malformed_text, rule_text};

use doc_reader::Spot;
use std::alloc::{AllocError, Global};
use xt_names::{Code, Text};

/// How a run ends. A name is that of the file that was asked for.
#[derive(Drop)]
pub enum Status {
    /// The whole text was written.
    Done,
    /// The words ask for nothing that the program does.
    Usage,
    /// The file cannot be loaded.
    Load(Text),
    /// The file has at least so many bytes, which are too many.
    TooLong(Text, u64),
    /// The file is no document, which shows there.
    Malformed(Text, Spot),
    /// A static error of the stylesheet or the query (XSLT 2.0, 2.9).
    Static(Code),
    /// The first rule that a stylesheet to be translated breaks.
    Outside(ProfileRule),
    /// A dynamic error of the run (XSLT 2.0, 2.9), or an error of serialization.
    Dynamic(Code),
    /// More calls than this depth would have been open at once.
    Deep(u32),
    /// The output failed. A prefix of the text was written.
    Write,
    /// Memory ran out. A prefix of the text was written.
    Memory,
    /// The document has no node at the place that was asked for.
    NoPlace,
}

/// A rule that stylesheets keep which can be translated.
#[derive(Clone, Copy, PartialEq, Eq, Debug)]
pub enum ProfileRule {
    /// Every global parameter is required.
    P1,
    /// `xsl:apply-imports` and `xsl:next-match` stand in a template with `match` and without `name`,
    /// outside of `xsl:for-each` and `xsl:for-each-group`.
    P2,
    /// `#current` is in a template with `match` and without `name`.
    P3,
    /// `xsl:call-template` stands where there is a focus, so in no function outside of
    /// `xsl:for-each` and `xsl:for-each-group`.
    P4,
    /// No variable or parameter has a name in `urn:xslt2xq`, and no function one in
    /// `http://www.w3.org/2005/xquery-local-functions`.
    P5,
    /// The stylesheet says nothing of white space, and omits no XML declaration.
    P6,
    /// The stylesheet has no tunnel parameter.
    P7,
    /// No function has a name in a namespace that is reserved in stylesheets.
    P8,
}

impl ProfileRule {
    /// The name of the rule.
    pub fn text(self) -> &'static str
        ensures { result.now ≡ rule_text self }
    {
        match self {
            ProfileRule::P1 => "P1",
            ProfileRule::P2 => "P2",
            ProfileRule::P3 => "P3",
            ProfileRule::P4 => "P4",
            ProfileRule::P5 => "P5",
            ProfileRule::P6 => "P6",
            ProfileRule::P7 => "P7",
            ProfileRule::P8 => "P8",
        }
    }
}

impl From<AllocError> for Status {
    ghost use Rattle.run_parts.specs.declared.status.Status.TheVariants.{Memory};

    ghost from_gives = { λ e status. status ≡ Memory };

    fn from(_: AllocError) -> Status {
        Status::Memory
    }
}

impl Status {
    /// The status of the process.
    pub fn number(&self) -> u8
        ensures { result ≡ status_number self.now }
    {
        match self {
            Status::Done => 0,
            Status::Usage => 1,
            Status::Load(_) => 2,
            Status::TooLong(_, _) => 3,
            Status::Malformed(_, _) => 4,
            Status::Static(_) => 5,
            Status::Outside(_) => 6,
            Status::Dynamic(_) => 7,
            Status::Deep(_) => 8,
            Status::Write => 9,
            Status::Memory => 10,
            Status::NoPlace => 11,
        }
    }

    /// The line that is said of it, with its line end; nothing is said of a run that is done.
    pub fn line(&self, alloc: Global) -> Result<String, AllocError>
        ensures { IfOk result (λ line. string_bytes line ≡ note_line self.now) }
    {
        match self {
            Status::Done => Ok(String::new(alloc)),
            Status::Usage => format!(in alloc; "usage\n"),
            Status::Load(file) => {
                let file = file.as_str();
                format!(in alloc; "load {file}\n")
            }
            Status::TooLong(file, n) => {
                let file = file.as_str();
                format!(in alloc; "long {file} {n}\n")
            }
            Status::Malformed(file, spot) => malformed_line(alloc, file.as_str(), *spot),
            Status::Static(code) => {
                let code = code.text();
                format!(in alloc; "static {code}\n")
            }
            Status::Outside(rule) => {
                let rule = rule.text();
                format!(in alloc; "outside {rule}\n")
            }
            Status::Dynamic(code) => {
                let code = code.text();
                format!(in alloc; "dynamic {code}\n")
            }
            Status::Deep(depth) => format!(in alloc; "deep {depth}\n"),
            Status::Write => format!(in alloc; "write\n"),
            Status::Memory => format!(in alloc; "memory\n"),
            Status::NoPlace => format!(in alloc; "noplace\n"),
        }
    }
}

fn malformed_line(alloc: Global, file: &str, spot: Spot) -> Result<String, AllocError>
    ensures { IfOk result (λ line. string_bytes line ≡ malformed_text file.now spot) }
{
    match spot {
        Spot::At(offset) => format!(in alloc; "malformed {file} {offset}\n"),
        Spot::Subset => format!(in alloc; "malformed {file} subset\n"),
        Spot::Encoding => format!(in alloc; "malformed {file} encoding\n"),
        Spot::Entity => format!(in alloc; "malformed {file} entity\n"),
        Spot::Deep => format!(in alloc; "malformed {file} deep\n"),
    }
}
