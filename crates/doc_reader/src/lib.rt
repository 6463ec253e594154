//! Reads the text of a document as a tree (XML 1.0; Namespaces in XML 1.0).
//!
//! `read` gives the tree that stands for the bytes, and that tree is sound. It refuses them exactly
//! where no tree stands for them, with the first spot that fits, as the grammar of `doc_grammar` tells
//! it. `read_scoped` gives besides, for each element in document order, the namespace declarations that
//! are written on it. No depth of nesting takes stack of the machine, and no other file is looked at.
//!
//! Example: of `<a k="1">x</a>` `read` makes the document of the element `a`; `<a>` is refused at byte 3.
#![tactic(auto)]

ghost use Rattle.std.specs.Prelude.{◌≡◌, ◌≤◌, ◌<◌, ◌+◌, ◌-◌, true, false, length, take, IfOk, IfErr, MatchResult};
ghost use Rattle.std.specs.Str.{chars, IsUtf8};
ghost use Rattle.std.specs.Str.Lossy.{utf8_valid_len};
ghost use Rattle.xt_tree.specs.Sound.{is_sound_tree};
ghost use Rattle.doc_grammar.specs.Scopes.{opened};
ghost use Rattle.doc_grammar.specs.Lines.{lines, text_of, without_mark, mark_bytes, bytes_before, offset};
ghost use Rattle.doc_grammar.specs.Document.{IsDocument};
ghost use Rattle.doc_grammar.specs.Declarations.{IsDeclared};
ghost use Rattle.doc_grammar.specs.Machine.{run, start, whole};
ghost use Rattle.doc_grammar.specs.Faults.{first_fault, spot_at};
ghost use Rattle.xml_source.specs.Reading.{stop_of};
ghost use Rattle.doc_reader.specs.Fault.{HasReadCause, Refused};

mod elements;
mod faults;
mod pools;
mod readers;
mod scopes;
mod tags;
mod values;

pub use doc_grammar::Spot;
pub use faults::ReadFault;
use readers::{Reader, Whole};
use std::alloc::{AllocError, Global};
use xml_source::{Source, Stop, has_return, offset, with_line_feeds};
use xt_names::{Binding, List};
use xt_tree::Tree;

/// A tree, and for each of its elements in document order the namespace declarations that are written on it.
#[derive(Drop)]
pub struct Scoped {
    pub tree: Tree,
    pub declared: List<List<Binding>>,
}

/// The tree of a text (XML 1.0; Namespaces in XML 1.0). `ReadFault::Bad` comes exactly where no tree stands for the
/// bytes, with the first spot where they fail.
pub fn read(alloc: Global, bytes: &[u8]) -> Result<Tree, ReadFault>
    ensures found { IfOk result (λ tree. IsDocument bytes.now tree) }
    ensures sound { IfOk result (λ tree. is_sound_tree tree ≡ true) }
    ensures refused { IfErr result (HasReadCause bytes.now) }
{
    let scoped = read_scoped(alloc, bytes)?;
    Ok(scoped.tree)
}

/// The tree of a text, and the namespace declarations of each of its elements. It refuses what `read` refuses.
pub fn read_scoped(alloc: Global, bytes: &[u8]) -> Result<Scoped, ReadFault>
    ensures found { IfOk result (λ scoped. IsDocument bytes.now scoped.tree) }
    ensures sound { IfOk result (λ scoped. is_sound_tree scoped.tree ≡ true) }
    ensures declared { IfOk result (λ scoped. IsDeclared bytes.now scoped.tree scoped.declared) }
    ensures refused { IfErr result (HasReadCause bytes.now) }
{
    match str::from_utf8(bytes) {
        Ok(text) => match read_text(alloc, text)? {
            Ok(whole) => Ok(Scoped {
                tree: whole.tree,
                declared: whole.declared,
            }),
            Err(spot) => Err(ReadFault::Bad(spot)),
        },
        Err(fault) => {
            let spot = spot_before(alloc, bytes, fault.valid_up_to())?;
            Err(ReadFault::Bad(spot))
        }
    }
}

/// The first fault of bytes of which no more than this front is UTF-8.
fn spot_before(alloc: Global, bytes: &[u8], valid: usize) -> Result<Spot, AllocError>
    requires longest { valid ≡ utf8_valid_len bytes.now }
    requires inside { valid ≤ length bytes.now }
    requires front { IsUtf8 (take valid bytes.now) }
    ensures { IfOk result (λ spot. spot ≡ first_fault bytes.now) }
{
    match str::from_utf8(&bytes[..valid]) {
        Ok(text) => match read_text(alloc, text)? {
            Ok(_) => Ok(Spot::At(valid as u64)),
            Err(spot) => Ok(spot),
        },
        Err(_) => Ok(Spot::At(valid as u64)),
    }
}

/// Reads a text without its byte order mark, with a line feed at the end of each line.
fn read_text(alloc: Global, text: &str) -> Result<Result<Whole, Spot>, AllocError>
    ensures { IfOk result (λ r. MatchResult r (λ w. run opened (text_of (chars text.now)) start ≡ whole w.tree w.declared)
        (Refused (run opened (text_of (chars text.now)) start) (offset (chars text.now)))) }
{
    let rest = unmarked(text);
    let before = text.len() - rest.len();
    if has_return(rest) {
        let lines = with_line_feeds(alloc, rest)?;
        read_lines(alloc, before, rest, lines.as_str())
    } else {
        read_lines(alloc, before, rest, rest)
    }
}

/// Reads a text whose line ends have become line feeds; so many bytes come before it.
fn read_lines(
    alloc: Global,
    before: usize,
    text: &str,
    fed: &str,
) -> Result<Result<Whole, Spot>, AllocError>
    requires fed { chars fed.now ≡ lines (chars text.now) }
    requires small { before + length text.now ≤ 0x7FFF_FFFF_FFFF_FFFF }
    ensures { IfOk result (λ r. MatchResult r (λ w. run opened (lines (chars text.now)) start ≡ whole w.tree w.declared)
        (Refused (run opened (lines (chars text.now)) start)
        (λ rest. before + bytes_before false (chars text.now) (length (lines (chars text.now)) - length rest)))) }
{
    match Reader::read(alloc, fed)? {
        Ok(whole) => Ok(Ok(whole)),
        Err(refusal) => {
            let taken = Source::new(fed).left() - refusal.left;
            let at = before as u64 + offset(text, taken);
            Ok(Err(spot(refusal.stop, at)))
        }
    }
}

/// The text after its byte order mark, if it has one.
fn unmarked(text: &str) -> &str
    ensures text { chars result.now ≡ without_mark (chars text.now) }
    ensures size { length text.now ≡ mark_bytes (chars text.now) + length result.now }
{
    let mut chars = text.chars();
    // The proof speaks of what the iterator has left.
    let _text = chars.as_str();
    match chars.next() {
        Some('\u{FEFF}') => chars.as_str(),
        _ => text,
    }
}

/// The spot where a reading stops before this byte.
fn spot(stop: Stop, at: u64) -> Spot
    requires { at < 0xFFFF_FFFF_FFFF_FFFF }
    ensures { result ≡ spot_at (stop_of stop) at }
{
    match stop {
        Stop::Names => Spot::At(at + 1),
        Stop::Deep => Spot::Deep,
        Stop::Entity => Spot::Entity,
        Stop::Subset => Spot::Subset,
        Stop::Encoding => Spot::Encoding,
        Stop::Other => Spot::At(at),
    }
}
