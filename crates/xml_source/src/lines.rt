// Line ends, and the places of characters in the bytes of a text.
ghost use Rattle.std.specs.Prelude.{◌≡◌, ◌≤◌, ◌++◌, length, false, IfOk, OnOk};
ghost use Rattle.std.specs.Str.{chars};
ghost use Rattle.std.specs.String.{string_bytes};
ghost use Rattle.doc_grammar.specs.Lines.{lines, bytes_before};
ghost use Rattle.xml_source.specs.LineEnds.{line_of};

use crate::sources::Source;
use memchr::memchr;
use std::alloc::{AllocError, Global};

/// Whether a carriage return is in the text. Without one the text is as its lines are read.
pub fn has_return(text: &str) -> bool
    ensures { result ≡ false → lines (chars text.now) ≡ chars text.now }
{
    memchr(b'\r', text.as_bytes()).is_some()
}

/// The text with a line feed at the end of each line (XML 1.0, 2.11).
pub fn with_line_feeds(alloc: Global, text: &str) -> Result<String, AllocError>
    ensures { IfOk result (λ s. chars (string_bytes s) ≡ lines (chars text.now)) }
{
    let mut lines = String::new(alloc);
    let mut source = Source::new(text);
    let mut cr = false;
    while let Some(c) = source.skip() {
        push_line(&mut lines, cr, c)?;
        cr = c == '\r';
    }
    Ok(lines)
}

fn push_line(lines: &mut String, cr: bool, c: char) -> Result<(), AllocError>
    ensures { OnOk result (chars (string_bytes lines.new) ≡ chars (string_bytes lines.old) ++ line_of cr c) }
{
    if c == '\r' {
        return lines.push('\n');
    }
    if cr && c == '\n' {
        return Ok(());
    }
    lines.push(c)
}

/// How many characters the text has.
pub(crate) fn count(text: &str) -> usize
    ensures { result ≡ length (chars text.now) }
{
    let mut source = Source::new(text);
    let mut count: usize = 0;
    while let Some(_c) = source.skip() {
        count += 1;
    }
    count
}

/// The byte at which the character stands that so many others come before, where line ends count as one.
pub fn offset(text: &str, taken: usize) -> u64
    ensures place { result ≡ bytes_before false (chars text.now) taken }
    ensures inside { result ≤ length text.now }
{
    let mut source = Source::new(text);
    let mut bytes: u64 = 0;
    let mut left = taken;
    let mut cr = false;
    while let Some(c) = source.skip() {
        if cr && c == '\n' {
            bytes += 1;
            cr = false;
        } else if left == 0 {
            return bytes;
        } else {
            bytes += c.len_utf8() as u64;
            left -= 1;
            cr = c == '\r';
        }
    }
    bytes
}
