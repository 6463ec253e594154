// Which files a run asks for: those that the words name, each once, and no other.
use crate::made::{TRANSFORM, files_of, status_of};
use std::alloc::Global;
use xt_io::{Files, LoadFault, MemFiles, MemSink};

// Files in memory that keep the names that they are asked for, with a `;` after each.
#[derive(Drop)]
struct Asked {
    files: MemFiles,
    names: String,
}

impl Files for Asked {
    ghost use Rattle.xt_io.specs.MemFiles.{files_state};

    ghost state = { λ asked. files_state asked.files };

    fn load(&mut self, alloc: Global, name: &str, limit: u64) -> Result<Vec<u8>, LoadFault> {
        let outcome = self.files.load(alloc, name, limit);
        self.names.push_str(name)?;
        self.names.push_str(";")?;
        outcome
    }
}

const SHEET: &[u8] =
    b"<xsl:stylesheet version=\"2.0\" xmlns:xsl=\"http://www.w3.org/1999/XSL/Transform\"/>";

const SHEET_WITH_NAMES: &[u8] = b"<!DOCTYPE a SYSTEM \"e.dtd\"><?xml-stylesheet href=\"t.xsl\"?>\
    <xsl:stylesheet version=\"2.0\" xmlns:xsl=\"http://www.w3.org/1999/XSL/Transform\"/>";

const DOCUMENT_WITH_NAMES: &[u8] =
    b"<!DOCTYPE a PUBLIC \"p\" \"e.dtd\"><?xml-stylesheet href=\"t.xsl\"?>\
    <a href=\"d2.xml\" xmlns=\"ns.xml\"/>";

// Words, a stylesheet or a query, a document, the number of the status, and the names that are asked for.
type Case = (
    &'static [&'static str],
    &'static [u8],
    Option<&'static [u8]>,
    u8,
    &'static str,
);

const CASES: [Case; 16] = [
    (TRANSFORM, SHEET, Some(b"<a/>"), 0, "s.xsl;d.xml;"),
    (
        TRANSFORM,
        SHEET_WITH_NAMES,
        Some(DOCUMENT_WITH_NAMES),
        0,
        "s.xsl;d.xml;",
    ),
    (
        TRANSFORM,
        SHEET,
        Some(b"<!DOCTYPE a [<!ENTITY e SYSTEM 'e'>]><a>&e;</a>"),
        4,
        "s.xsl;d.xml;",
    ),
    (TRANSFORM, SHEET, None, 2, "s.xsl;d.xml;"),
    (TRANSFORM, b"<a>", Some(b"<a/>"), 4, "s.xsl;"),
    (TRANSFORM, b"<a/>", Some(b"<a/>"), 5, "s.xsl;"),
    (&["transform", "s.xsl"], SHEET, Some(b"<a/>"), 1, ""),
    (&["query", "s.xsl"], SHEET, Some(b"<a/>"), 1, ""),
    (
        &["query", "s.xsl", "d.xml"],
        SHEET,
        Some(b"<a/>"),
        5,
        "s.xsl;",
    ),
    (
        &["query", "s.xsl", "d.xml"],
        b"doc('e.xml'), /a/@href",
        Some(b"<a>"),
        4,
        "s.xsl;d.xml;",
    ),
    (
        &["query", "s.xsl", "d.xml", "--doc", "d.xml"],
        b"string(doc('d.xml')/a/@href)",
        Some(b"<a href=\"e.xml\"/>"),
        0,
        "s.xsl;d.xml;d.xml;",
    ),
    (
        &["query", "--doc=e.xml", "s.xsl", "d.xml"],
        b"error()",
        Some(b"<a/>"),
        2,
        "s.xsl;d.xml;e.xml;",
    ),
    (
        &["query", "s.xsl", "d.xml"],
        b"doc('e.xml')",
        Some(b"<a/>"),
        7,
        "s.xsl;d.xml;",
    ),
    (
        &[
            "transform",
            "s.xsl",
            "d.xml",
            "--doc",
            "d.xml",
            "--doc=s.xsl",
        ],
        SHEET,
        Some(b"<a/>"),
        0,
        "s.xsl;d.xml;d.xml;s.xsl;",
    ),
    (
        &["transform", "--doc=e.xml", "s.xsl", "d.xml"],
        SHEET,
        Some(b"<a/>"),
        2,
        "s.xsl;d.xml;e.xml;",
    ),
    (
        &["transform", "--doc=e.xml", "s.xsl", "d.xml"],
        SHEET,
        Some(b"<a>"),
        4,
        "s.xsl;d.xml;",
    ),
];

#[test]
fn only_the_files_of_the_words(rt: HostRuntime) {
    for (words, sheet, document, number, names) in CASES {
        let mut asked = Asked {
            files: files_of(&rt, sheet, document),
            names: String::new(rt.alloc()),
        };
        let mut out = MemSink::new(rt.alloc());
        let mut notes = MemSink::new(rt.alloc());
        assert_eq!(rt;
            status_of(&rt, words, &mut asked, &mut out, &mut notes),
            number
        );
        assert_eq!(rt; asked.names.as_str(), names);
        drop(asked);
        drop(out);
        drop(notes);
    }
}
