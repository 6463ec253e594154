// Files, words and texts for a test, which ends where memory runs out.
use driver::run;
use std::alloc::AllocGlobal;
use std::process::Abort;
use xt_io::{Files, MemFiles, MemSink};

/// The words of a run over the query and the document of `files_with`.
pub(crate) const QUERY: &[&str] = &["query", "q.xq", "d.xml"];

/// What comes before all that is written, where nothing says to leave it out.
const DECLARATION: &[u8] = b"<?xml version=\"1.0\" encoding=\"UTF-8\"?>";

/// A query as q.xq, a document as d.xml, and further documents as e.xml and f.xml.
pub(crate) fn files_with(
    rt: &(impl Abort + AllocGlobal),
    query: &[u8],
    document: &[u8],
) -> MemFiles {
    let mut files = MemFiles::new(rt.alloc());
    files.add("q.xq", query).expect(rt, "memory");
    files.add("d.xml", document).expect(rt, "memory");
    files
        .add("e.xml", b"<e k=\"41\"> </e>")
        .expect(rt, "memory");
    files.add("f.xml", b"<f>").expect(rt, "memory");
    files
}

/// Whether a run over the files of `files_with` ends with this number, and either writes this text
/// after the XML declaration or says this line.
pub(crate) fn ends_so(
    rt: &(impl Abort + AllocGlobal),
    words: &[&str],
    query: &[u8],
    document: &[u8],
    number: u8,
    said: &str,
) -> bool {
    let mut files = files_with(rt, query, document);
    let mut out = MemSink::new(rt.alloc());
    let mut notes = MemSink::new(rt.alloc());
    let is_number = status_of(rt, words, &mut files, &mut out, &mut notes) == number;
    let is_said = if number == 0 {
        out.bytes().strip_prefix(DECLARATION) == Some(said.as_bytes()) && notes.bytes().is_empty()
    } else {
        out.bytes().is_empty() && notes.bytes().strip_suffix(b"\n") == Some(said.as_bytes())
    };
    drop(files);
    drop(out);
    drop(notes);
    is_number && is_said
}

/// The number of the status of a run.
pub(crate) fn status_of(
    rt: &(impl Abort + AllocGlobal),
    words: &[&str],
    files: &mut impl Files,
    out: &mut MemSink,
    notes: &mut MemSink,
) -> u8 {
    let mut owned = Vec::new(rt.alloc());
    for word in words {
        let word = String::from_str(rt.alloc(), word).expect(rt, "memory");
        owned.push(word).expect(rt, "memory");
    }
    let status = run(rt.alloc(), &owned, files, out, notes);
    let number = status.number();
    drop(status);
    drop(owned);
    number
}
