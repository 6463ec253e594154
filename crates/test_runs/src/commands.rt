// Runs of whole command lines: the number of the status, the output and the notes.
use crate::made::{TRANSFORM, files_of, status_of};
use xt_io::MemSink;

const ONE_ELEMENT: &[u8] =
    b"<xsl:stylesheet version=\"2.0\" xmlns:xsl=\"http://www.w3.org/1999/XSL/Transform\">\
    <xsl:template match=\"/\"><r/></xsl:template></xsl:stylesheet>";

const NO_RULES: &[u8] =
    b"<xsl:stylesheet version=\"2.0\" xmlns:xsl=\"http://www.w3.org/1999/XSL/Transform\"/>";

const TWO_RULES: &[u8] =
    b"<xsl:stylesheet version=\"2.0\" xmlns:xsl=\"http://www.w3.org/1999/XSL/Transform\">\
    <xsl:template match=\"a\">1</xsl:template>\
    <xsl:template match=\"a\">2</xsl:template></xsl:stylesheet>";

const WHOLE: &[u8] = b"<?xml version='1.0' encoding='utf-8'?>\r\n<!DOCTYPE a SYSTEM 's'><?t d?>\
    <a k='&lt;'>x&amp;<![CDATA[<y>]]><!--c--></a>";

// A run over these files.
#[derive(Clone, Copy)]
struct Case {
    words: &'static [&'static str],
    sheet: &'static [u8],
    document: Option<&'static [u8]>,
    number: u8,
    out: &'static [u8],
    notes: &'static [u8],
}

const CASES: [Case; 14] = [
    Case {
        words: TRANSFORM,
        sheet: ONE_ELEMENT,
        document: Some(b"<a/>"),
        number: 0,
        out: b"<?xml version=\"1.0\" encoding=\"UTF-8\"?><r/>",
        notes: b"",
    },
    Case {
        words: TRANSFORM,
        sheet: NO_RULES,
        document: Some(b"<a>x<b>y</b></a>"),
        number: 0,
        out: b"<?xml version=\"1.0\" encoding=\"UTF-8\"?>xy",
        notes: b"",
    },
    Case {
        words: TRANSFORM,
        sheet: TWO_RULES,
        document: Some(b"<a/>"),
        number: 0,
        out: b"<?xml version=\"1.0\" encoding=\"UTF-8\"?>2",
        notes: b"",
    },
    Case {
        words: TRANSFORM,
        sheet: ONE_ELEMENT,
        document: Some(b"<p:a/>"),
        number: 4,
        out: b"",
        notes: b"malformed d.xml 6\n",
    },
    Case {
        words: TRANSFORM,
        sheet: b"<a/>",
        document: Some(b"<p:a/>"),
        number: 5,
        out: b"",
        notes: b"static XTUN0001\n",
    },
    Case {
        words: TRANSFORM,
        sheet: ONE_ELEMENT,
        document: None,
        number: 2,
        out: b"",
        notes: b"load d.xml\n",
    },
    Case {
        words: TRANSFORM,
        sheet: b"<a/>",
        document: None,
        number: 5,
        out: b"",
        notes: b"static XTUN0001\n",
    },
    Case {
        words: TRANSFORM,
        sheet: b"<a>",
        document: None,
        number: 4,
        out: b"",
        notes: b"malformed s.xsl 3\n",
    },
    Case {
        words: TRANSFORM,
        sheet: NO_RULES,
        document: Some(WHOLE),
        number: 0,
        out: b"<?xml version=\"1.0\" encoding=\"UTF-8\"?>x&amp;&lt;y&gt;",
        notes: b"",
    },
    Case {
        words: &[],
        sheet: ONE_ELEMENT,
        document: Some(b"<a/>"),
        number: 1,
        out: b"",
        notes: b"usage\n",
    },
    Case {
        words: &["transform", "s.xsl", "-d.xml"],
        sheet: ONE_ELEMENT,
        document: Some(b"<a/>"),
        number: 1,
        out: b"",
        notes: b"usage\n",
    },
    Case {
        words: &["transform", "--depth=2", "s.xsl", "d.xml", "n=1", "m=2"],
        sheet: TWO_RULES,
        document: Some(b"<a/>"),
        number: 0,
        out: b"<?xml version=\"1.0\" encoding=\"UTF-8\"?>2",
        notes: b"",
    },
    Case {
        words: &["transform", "s.xsl", "d.xml", "--doc", "s.xsl"],
        sheet: ONE_ELEMENT,
        document: Some(b"<a/>"),
        number: 0,
        out: b"<?xml version=\"1.0\" encoding=\"UTF-8\"?><r/>",
        notes: b"",
    },
    Case {
        words: &["transform", "s.xsl", "d.xml", "n=1", "n=2"],
        sheet: ONE_ELEMENT,
        document: Some(b"<a/>"),
        number: 1,
        out: b"",
        notes: b"usage\n",
    },
];

// Documents that are none, for the stylesheet of one element, and the line that says so.
const MALFORMED: [(&[u8], &[u8]); 6] = [
    (b"", b"malformed d.xml 0\n"),
    (b"<a><b", b"malformed d.xml 5\n"),
    (b"<a k=\"1\" k=\"2\"/>", b"malformed d.xml 16\n"),
    (
        b"<!DOCTYPE a [<!ENTITY e \"x\">]><a/>",
        b"malformed d.xml subset\n",
    ),
    (b"<a>&e;</a>", b"malformed d.xml entity\n"),
    (
        b"<?xml version=\"1.0\" encoding=\"latin1\"?><a/>",
        b"malformed d.xml encoding\n",
    ),
];

#[test]
fn each_status(rt: HostRuntime) {
    for case in CASES {
        let mut files = files_of(&rt, case.sheet, case.document);
        let mut out = MemSink::new(rt.alloc());
        let mut notes = MemSink::new(rt.alloc());
        let number = status_of(&rt, case.words, &mut files, &mut out, &mut notes);
        assert_eq!(rt; number, case.number);
        assert_eq!(rt; out.bytes(), case.out);
        assert_eq!(rt; notes.bytes(), case.notes);
        drop(files);
        drop(out);
        drop(notes);
    }
}

#[test]
fn malformed_documents(rt: HostRuntime) {
    for (document, line) in MALFORMED {
        let mut files = files_of(&rt, ONE_ELEMENT, Some(document));
        let mut out = MemSink::new(rt.alloc());
        let mut notes = MemSink::new(rt.alloc());
        let number = status_of(&rt, TRANSFORM, &mut files, &mut out, &mut notes);
        assert_eq!(rt; number, 4);
        assert!(rt; out.bytes().is_empty());
        assert_eq!(rt; notes.bytes(), line);
        drop(files);
        drop(out);
        drop(notes);
    }
}

// What stands as e.xml and as f.xml, where something does; the document; and the line that is said
// of `--doc e.xml --doc=f.xml`. All are loaded before one is read, and the document comes first.
const FURTHER: [(Option<&[u8]>, Option<&[u8]>, &[u8], &[u8]); 8] = [
    (Some(b"<e/>"), Some(b"<f/>"), b"<a/>", b""),
    (None, Some(b"<f/>"), b"<a/>", b"load e.xml\n"),
    (Some(b"<e/>"), None, b"<a/>", b"load f.xml\n"),
    (None, None, b"<a/>", b"load e.xml\n"),
    (Some(b"<e>"), Some(b"<f>"), b"<a/>", b"malformed e.xml 3\n"),
    (Some(b"<e/>"), Some(b""), b"<a/>", b"malformed f.xml 0\n"),
    (Some(b"<e>"), None, b"<a/>", b"load f.xml\n"),
    (None, None, b"<a>", b"malformed d.xml 3\n"),
];

#[test]
fn further_documents(rt: HostRuntime) {
    let words: &[&str] = &[
        "transform",
        "s.xsl",
        "d.xml",
        "--doc",
        "e.xml",
        "--doc=f.xml",
    ];
    for (first, second, document, line) in FURTHER {
        let mut files = files_of(&rt, ONE_ELEMENT, Some(document));
        if let Some(bytes) = first {
            files.add("e.xml", bytes).expect(&rt, "memory");
        }
        if let Some(bytes) = second {
            files.add("f.xml", bytes).expect(&rt, "memory");
        }
        let mut out = MemSink::new(rt.alloc());
        let mut notes = MemSink::new(rt.alloc());
        status_of(&rt, words, &mut files, &mut out, &mut notes);
        assert_eq!(rt; notes.bytes(), line);
        drop(files);
        drop(out);
        drop(notes);
    }
}

// What is in s.xsl, what stands as m.xsl, where something does, and how the run ends. Modules come
// before rules, and both before the document, which is none.
const MODULES: [(&[u8], Option<&[u8]>, u8, &[u8]); 6] = [
    (
        b"<xsl:stylesheet version=\"2.0\" xmlns:xsl=\"http://www.w3.org/1999/XSL/Transform\">\
        <xsl:import href=\"m.xsl\"/><xsl:template/></xsl:stylesheet>",
        None,
        2,
        b"load m.xsl\n",
    ),
    (
        b"<xsl:stylesheet version=\"2.0\" xmlns:xsl=\"http://www.w3.org/1999/XSL/Transform\">\
        <xsl:import href=\"m.xsl\"/><xsl:template/></xsl:stylesheet>",
        Some(b"<a>"),
        4,
        b"malformed m.xsl 3\n",
    ),
    (
        b"<xsl:stylesheet version=\"2.0\" xmlns:xsl=\"http://www.w3.org/1999/XSL/Transform\">\
        <xsl:import href=\"m.xsl\"/><xsl:template/></xsl:stylesheet>",
        Some(b"<a/>"),
        5,
        b"static XTSE0500\n",
    ),
    (
        b"<xsl:stylesheet version=\"2.0\" xmlns:xsl=\"http://www.w3.org/1999/XSL/Transform\">\
        <xsl:include href=\"s.xsl\"/></xsl:stylesheet>",
        None,
        5,
        b"static XTSE0180\n",
    ),
    (
        b"<xsl:stylesheet version=\"2.0\" xmlns:xsl=\"http://www.w3.org/1999/XSL/Transform\">\
        <xsl:variable name=\"v\" select=\"$w\"/></xsl:stylesheet>",
        None,
        5,
        b"static XPST0008\n",
    ),
    (
        b"<xsl:stylesheet version=\"2.0\" xmlns:xsl=\"http://www.w3.org/1999/XSL/Transform\">\
        <xsl:variable name=\"v\" select=\"1\"/></xsl:stylesheet>",
        None,
        5,
        b"static XTUN0001\n",
    ),
];

#[test]
fn modules_and_their_rules(rt: HostRuntime) {
    for (sheet, other, number, line) in MODULES {
        let mut files = files_of(&rt, sheet, None);
        if let Some(bytes) = other {
            files.add("m.xsl", bytes).expect(&rt, "memory");
        }
        let mut out = MemSink::new(rt.alloc());
        let mut notes = MemSink::new(rt.alloc());
        let ended = status_of(&rt, TRANSFORM, &mut files, &mut out, &mut notes);
        assert_eq!(rt; ended, number);
        assert_eq!(rt; notes.bytes(), line);
        drop(files);
        drop(out);
        drop(notes);
    }
}

#[test]
fn a_write_fails_in_mid_stream(rt: HostRuntime) {
    let mut files = files_of(&rt, ONE_ELEMENT, Some(b"<a/>"));
    let mut out = MemSink::new(rt.alloc());
    out.take_at_most(10);
    out.fail_at(3).expect(&rt, "memory");
    let mut notes = MemSink::new(rt.alloc());
    let number = status_of(&rt, TRANSFORM, &mut files, &mut out, &mut notes);
    assert_eq!(rt; number, 9);
    assert_eq!(rt; out.bytes(), b"<?xml version=\"1.0\" ".as_slice());
    assert_eq!(rt; notes.bytes(), b"write\n".as_slice());
    drop(files);
    drop(out);
    drop(notes);
}

#[test]
fn a_load_fails_and_so_do_the_notes(rt: HostRuntime) {
    let mut files = files_of(&rt, ONE_ELEMENT, Some(b"<a/>"));
    files.fail_at(2).expect(&rt, "memory");
    let mut out = MemSink::new(rt.alloc());
    let mut notes = MemSink::new(rt.alloc());
    notes.take_at_most(4);
    notes.fail_at(2).expect(&rt, "memory");
    let number = status_of(&rt, TRANSFORM, &mut files, &mut out, &mut notes);
    assert_eq!(rt; number, 2);
    assert!(rt; out.bytes().is_empty());
    assert_eq!(rt; notes.bytes(), b"load".as_slice());
    drop(files);
    drop(out);
    drop(notes);
}
