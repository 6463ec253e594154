// Files, words, texts and trees for a test, which ends where memory runs out.
use doc_reader::read;
use driver::run;
use std::alloc::AllocGlobal;
use std::process::Abort;
use xt_io::{Files, MemFiles, MemSink};
use xt_tree::Tree;

/// The words of a run over the two files of `files_of`.
pub(crate) const TRANSFORM: &[&str] = &["transform", "s.xsl", "d.xml"];

const SHEET_START: &str =
    "<xsl:stylesheet version=\"2.0\" xmlns:xsl=\"http://www.w3.org/1999/XSL/Transform\">";

/// A stylesheet with these parts.
pub(crate) fn sheet(rt: &(impl Abort + AllocGlobal), parts: &str) -> String {
    let text = format!(in rt.alloc(); "{SHEET_START}{parts}</xsl:stylesheet>");
    text.expect(rt, "memory")
}

/// So many elements within each other, around this text.
pub(crate) fn nested(
    rt: &(impl Abort + AllocGlobal),
    name: &str,
    count: usize,
    inside: &str,
) -> String {
    let mut text = String::new(rt.alloc());
    for _ in 0..count {
        text.push_str("<").expect(rt, "memory");
        text.push_str(name).expect(rt, "memory");
        text.push_str(">").expect(rt, "memory");
    }
    text.push_str(inside).expect(rt, "memory");
    for _ in 0..count {
        text.push_str("</").expect(rt, "memory");
        text.push_str(name).expect(rt, "memory");
        text.push_str(">").expect(rt, "memory");
    }
    text
}

/// A stylesheet with a template for `a` of 39 literal elements within each other, and
/// apply-templates in the last.
pub(crate) fn widening_sheet(rt: &(impl Abort + AllocGlobal)) -> String {
    let content = nested(rt, "b", 39, "<xsl:apply-templates/>");
    let template = format!(in rt.alloc(); "<xsl:template match=\"a\">{content}</xsl:template>");
    sheet(rt, template.expect(rt, "memory").as_str())
}

/// The tree of a document.
pub(crate) fn tree(rt: &(impl Abort + AllocGlobal), text: &str) -> Tree {
    match read(rt.alloc(), text.as_bytes()) {
        Ok(tree) => tree,
        Err(_) => panic!(rt; "no document"),
    }
}

/// A stylesheet as s.xsl and, where there is one, a document as d.xml.
pub(crate) fn files_of(
    rt: &(impl Abort + AllocGlobal),
    sheet: &[u8],
    document: Option<&[u8]>,
) -> MemFiles {
    let mut files = MemFiles::new(rt.alloc());
    files.add("s.xsl", sheet).expect(rt, "memory");
    if let Some(document) = document {
        files.add("d.xml", document).expect(rt, "memory");
    }
    files
}

/// The number of the status of a run.
pub(crate) fn status_of(
    rt: &(impl Abort + AllocGlobal),
    words: &[&str],
    files: &mut impl Files,
    out: &mut MemSink,
    notes: &mut MemSink,
) -> u8 {
    let mut owned = Vec::new(rt.alloc());
    for word in words {
        let word = String::from_str(rt.alloc(), word).expect(rt, "memory");
        owned.push(word).expect(rt, "memory");
    }
    let status = run(rt.alloc(), &owned, files, out, notes);
    let number = status.number();
    drop(status);
    drop(owned);
    number
}
