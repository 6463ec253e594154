// Texts that are refused, each at its spot.
use crate::made::{push, repeated};
use doc_reader::{ReadFault, Spot, read};
use std::alloc::AllocGlobal;
use std::process::Abort;

// Texts that are no documents, each with the byte where it fails.
const FAILING: [(&str, u64); 78] = [
    ("", 0),
    (" ", 1),
    ("x<a/>", 0),
    ("<a/>x", 4),
    ("<a/><b/>", 5),
    ("<a", 2),
    ("<a>", 3),
    ("<a></b>", 5),
    ("<a></a", 6),
    ("</a>", 1),
    ("<1/>", 1),
    ("<a:/>", 3),
    ("<:a/>", 1),
    ("<a:b:c/>", 4),
    ("<p:a/>", 6),
    ("<a p:k=\"1\"/>", 12),
    ("<a k=\"1\"l=\"2\"/>", 8),
    ("<a k=\"1\" k=\"2\"/>", 16),
    ("<a xmlns:p=\"u\" xmlns:q=\"u\" p:k=\"1\" q:k=\"2\"/>", 44),
    ("<a xmlns:p=\"u\" xmlns:p=\"u\"/>", 28),
    ("<a xmlns:p=\"\"/>", 15),
    ("<a xmlns:xmlns=\"u\"/>", 20),
    ("<a xmlns:xml=\"u\"/>", 18),
    ("<a xmlns=\"http://www.w3.org/2000/xmlns/\"/>", 42),
    ("<a xmlns:p=\"http://www.w3.org/XML/1998/namespace\"/>", 51),
    ("<a><p:b xmlns:p=\"u\"/><p:c/></a>", 27),
    ("<a k=\"<\"/>", 6),
    ("<a>& </a>", 4),
    ("<a>&:x;</a>", 4),
    ("<a>&amp</a>", 7),
    ("<a>&#;</a>", 5),
    ("<a>&#x;</a>", 6),
    ("<a>&#xG;</a>", 6),
    ("<a>&#0;</a>", 6),
    ("<a>&#1114112;</a>", 11),
    ("<a>&#xD800;</a>", 10),
    ("<a>&#X41;</a>", 5),
    ("<a>]]></a>", 5),
    ("<a>]]]></a>", 6),
    ("<a><!--a--b--></a>", 10),
    ("<a><!--a---></a>", 10),
    ("<a><!-x--></a>", 6),
    ("<a><![CDATA[x]]</a>", 19),
    ("<a><![CDAT[x]]></a>", 10),
    ("<![CDATA[x]]><a/>", 2),
    ("<?xml version=\"1.0\"?>", 21),
    ("<?xml?><a/>", 5),
    ("<?XML x?><a/>", 5),
    (" <?xml version=\"1.0\"?><a/>", 6),
    ("<?xml version=\"2.0\"?><a/>", 15),
    ("<?xml version=\"1.\"?><a/>", 17),
    ("<?xml version=\"1.0\" encoding=\"utf-8", 35),
    ("<?xml version=\"1.0\" standalone=\"maybe\"?><a/>", 32),
    ("<?xml encoding=\"utf-8\"?><a/>", 6),
    ("<!DOCTYPE [ ]><a/>", 10),
    ("<!DOCTYPE a SYSTEM [ ]><a/>", 19),
    ("<!DOCTYPE a PUBLIC \"{\" \"s\"><a/>", 20),
    ("<!DOCTYPE a><!DOCTYPE a><a/>", 14),
    ("<a/><!DOCTYPE a>", 6),
    ("<!doctype a><a/>", 2),
    ("<a b/>", 4),
    ("<a b=c/>", 5),
    ("<a b=\"1/>", 9),
    ("<a><b></a></b>", 8),
    ("<a>\u{1}</a>", 3),
    ("<a>\u{FFFE}</a>", 3),
    ("<p:a></b>", 5),
    ("<a><p:b/>&e;</a>", 9),
    ("<a / >", 4),
    ("<?a:b x?><a/>", 3),
    ("<?t", 3),
    ("<?t d", 5),
    ("<a/><?xml version=\"1.0\"?>", 9),
    ("<a>\r\n<b", 7),
    ("<a>\r\n\u{1}", 5),
    ("\u{FEFF}<a/>x", 7),
    ("\u{FEFF}", 3),
    ("<a>\u{E9}</b>", 7),
];

// Texts that are no documents for a reason of its own.
const REASONS: [(&str, Spot); 11] = [
    ("<a>&e;</a>", Spot::Entity),
    ("<a>&ampx;</a>", Spot::Entity),
    ("<a>&am;</a>", Spot::Entity),
    ("<a k='&e;'/>", Spot::Entity),
    ("<!DOCTYPE a [<!ENTITY e \"x\">]><a/>", Spot::Subset),
    ("<!DOCTYPE a SYSTEM \"s\" [ ]><a/>", Spot::Subset),
    ("<!DOCTYPE a[", Spot::Subset),
    (
        "<?xml version=\"1.0\" encoding=\"latin1\"?><a/>",
        Spot::Encoding,
    ),
    (
        "<?xml version=\"1.0\" encoding=\"UTF-16\"?><a/>",
        Spot::Encoding,
    ),
    ("<?xml version=\"1.0\" encoding=\"\"?><a/>", Spot::Encoding),
    (
        "<?xml version='1.0' encoding='utf-80'?><a/>",
        Spot::Encoding,
    ),
];

// Bytes that are no text.
const BYTES: [(&[u8], u64); 4] = [
    (b"<a>\xff</a>", 3),
    (b"<p:a>\xff", 5),
    (b"<a>\xe2\x82", 3),
    (b"<a/>\xff", 4),
];

// The spot where the bytes are refused; None where they are read.
fn refused(rt: &(impl Abort + AllocGlobal), bytes: &[u8]) -> Option<Spot> {
    match read(rt.alloc(), bytes) {
        Ok(tree) => {
            drop(tree);
            None
        }
        Err(ReadFault::Bad(spot)) => Some(spot),
        Err(ReadFault::Memory(_)) => panic!(rt; "memory"),
    }
}

#[test]
fn failing_texts(rt: HostRuntime) {
    for (text, at) in FAILING {
        assert_eq!(rt; refused(&rt, text.as_bytes()), Some(Spot::At(at)), "{text}");
    }
}

#[test]
fn reasons(rt: HostRuntime) {
    for (text, spot) in REASONS {
        assert_eq!(rt; refused(&rt, text.as_bytes()), Some(spot), "{text}");
    }
}

#[test]
fn bytes_that_are_no_text(rt: HostRuntime) {
    for (bytes, at) in BYTES {
        assert_eq!(rt; refused(&rt, bytes), Some(Spot::At(at)));
    }
}

#[test]
fn too_deep(rt: HostRuntime) {
    let mut text = repeated(&rt, "<a>", 2001);
    push(&rt, &mut text, repeated(&rt, "</a>", 2001).as_str());
    assert_eq!(rt; refused(&rt, text.as_bytes()), Some(Spot::Deep));
}

const CATALOGUE: &str = "<catalogue><author id=\"k\" name=\"Knuth\"/>\
    <book year=\"1976\"><title>Algol &amp; co</title></book></catalogue>";

#[test]
fn each_front_fails_at_its_end(rt: HostRuntime) {
    let bytes = CATALOGUE.as_bytes();
    for length in 0..bytes.len() {
        assert_eq!(rt;
            refused(&rt, &bytes[..length]),
            Some(Spot::At(length as u64))
        );
    }
}
