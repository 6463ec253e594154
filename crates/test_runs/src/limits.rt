// Runs at the limits of files, documents, open rules and results.
use crate::made::{TRANSFORM, files_of, nested, sheet, status_of, widening_sheet};
use std::alloc::AllocGlobal;
use std::process::Abort;
use xt_io::MemSink;

// Whether a run ends with this number and this note, and writes something only at number 0.
fn ends_with(
    rt: &(impl Abort + AllocGlobal),
    words: &[&str],
    sheet: &str,
    document: &[u8],
    number: u8,
    line: &str,
) -> bool {
    let mut files = files_of(rt, sheet.as_bytes(), Some(document));
    let mut out = MemSink::new(rt.alloc());
    let mut notes = MemSink::new(rt.alloc());
    let is_number = status_of(rt, words, &mut files, &mut out, &mut notes) == number;
    let is_out = out.bytes().is_empty() == (number != 0);
    let is_line = notes.bytes() == line.as_bytes();
    drop(files);
    drop(out);
    drop(notes);
    is_number && is_out && is_line
}

#[test]
fn bytes_of_a_file(rt: HostRuntime) {
    let sheet = sheet(&rt, "");
    let document = vec![in rt.alloc(); b' '; 67_108_865].expect(&rt, "memory");
    assert!(rt;
        ends_with(
            &rt,
            TRANSFORM,
            sheet.as_str(),
            &document,
            3,
            "long d.xml 67108865\n"
        )
    );
    drop(sheet);
    drop(document);
}

// So many elements within each other, under the built-in rules or under a template for the document
// alone. The document and 99 elements need 100 rules.
const ELEMENTS: [(&str, usize, u8, &str); 4] = [
    ("", 99, 0, ""),
    ("", 100, 8, "deep 100\n"),
    ("<xsl:template match=\"/\"/>", 2000, 0, ""),
    (
        "<xsl:template match=\"/\"/>",
        2001,
        4,
        "malformed d.xml deep\n",
    ),
];

#[test]
fn elements_within_each_other(rt: HostRuntime) {
    for (parts, count, number, line) in ELEMENTS {
        let sheet = sheet(&rt, parts);
        let document = nested(&rt, "a", count, "");
        assert!(rt;
            ends_with(
                &rt,
                TRANSFORM,
                sheet.as_str(),
                document.as_bytes(),
                number,
                line
            ),
            "{count}"
        );
        drop(sheet);
        drop(document);
    }
}

// Each element becomes 39 levels of the result, which has at most 2,000.
const LEVELS: [(usize, u8, &str); 2] = [(51, 0, ""), (52, 7, "dynamic XTLM0002\n")];

#[test]
fn levels_of_a_result(rt: HostRuntime) {
    let sheet = widening_sheet(&rt);
    for (count, number, line) in LEVELS {
        let document = nested(&rt, "a", count, "");
        assert!(rt;
            ends_with(
                &rt,
                TRANSFORM,
                sheet.as_str(),
                document.as_bytes(),
                number,
                line
            ),
            "{count}"
        );
        drop(document);
    }
    drop(sheet);
}

// The same with other depths: of so many elements under the built-in rules, and of as many in which
// each has a template of 39 levels.
const DEPTHS: [(&[&str], usize, u8, &str); 6] = [
    (
        &["transform", "s.xsl", "d.xml", "--depth=1"],
        1,
        8,
        "deep 1\n",
    ),
    (&["transform", "s.xsl", "d.xml", "--depth=2"], 1, 0, ""),
    (
        &["transform", "s.xsl", "d.xml", "--depth", "99"],
        99,
        8,
        "deep 99\n",
    ),
    (
        &["transform", "--depth", "101", "s.xsl", "d.xml"],
        100,
        0,
        "",
    ),
    (&["transform", "s.xsl", "d.xml", "--depth=300"], 299, 0, ""),
    (
        &["transform", "s.xsl", "d.xml", "--depth=300"],
        300,
        8,
        "deep 300\n",
    ),
];

#[test]
fn depths_of_the_words(rt: HostRuntime) {
    let sheet = sheet(&rt, "");
    for (words, count, number, line) in DEPTHS {
        let document = nested(&rt, "a", count, "");
        assert!(rt;
            ends_with(
                &rt,
                words,
                sheet.as_str(),
                document.as_bytes(),
                number,
                line
            ),
            "{count}"
        );
        drop(document);
    }
    drop(sheet);
}

#[test]
fn the_greatest_depth_of_the_widest_templates(rt: HostRuntime) {
    let words: &[&str] = &["transform", "s.xsl", "d.xml", "--depth=300"];
    let sheet = widening_sheet(&rt);
    let document = nested(&rt, "a", 299, "");
    let bytes = document.as_bytes();
    assert!(rt; ends_with(&rt, words, sheet.as_str(), bytes, 7, "dynamic XTLM0002\n"));
    drop(document);
    drop(sheet);
}
