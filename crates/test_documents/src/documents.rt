// Texts that are read.
use crate::made::{document, push, repeated};
use std::alloc::AllocGlobal;
use std::process::Abort;
use xt_tree::Tree;

// Texts that are documents, each with its string value and its size.
const DOCUMENTS: [(&str, &str, u64); 42] = [
    ("<a/>", "", 2),
    ("<a></a>", "", 2),
    (" <a/> \n\t", "", 2),
    ("<a >x</a >", "x", 3),
    ("<a>x<b>y</b></a>", "xy", 5),
    ("<a k=\"1\" l=\"\"/>", "", 4),
    ("<a k=\"'\"/>", "", 3),
    ("<a k='\"'/>", "", 3),
    ("<a k = '1'\n l= \"2\"/>", "", 4),
    ("<p:a xmlns:p=\"u\" p:k=\"1\" k=\"2\"/>", "", 4),
    ("<a xmlns=\"u\"><b xmlns=\"\"/></a>", "", 3),
    ("<a xml:lang=\"en\"/>", "", 3),
    ("<a xmlns:p=\"u\" xmlns=\"u\" p:k=\"1\" k=\"2\"/>", "", 4),
    ("<a>&lt;&gt;&amp;&quot;&apos;</a>", "<>&\"'", 3),
    ("<a>&#65;&#x42;&#x01f600;</a>", "AB\u{1F600}", 3),
    ("<a>&#13;</a>", "\r", 3),
    ("<a><![CDATA[<&]]>]]&gt;</a>", "<&]]>", 3),
    ("<a>x<![CDATA[]]>y</a>", "xy", 3),
    ("<a><![CDATA[]]></a>", "", 2),
    ("<a><![CDATA[]]]]><![CDATA[>]]></a>", "]]>", 3),
    ("<a>></a>", ">", 3),
    ("<a>]></a>", "]>", 3),
    ("<a>]]</a>", "]]", 3),
    ("<a>]] ></a>", "]] >", 3),
    ("<a>]]<!---->></a>", "]]>", 5),
    ("<a>x<!--c-->y<?t d?></a>", "xy", 6),
    ("<!--c--><a/><?t?>", "", 4),
    ("<?t?><!-- - -->\n<a/><!---->", "", 5),
    ("<?xml-stylesheet href='x'?><a/>", "", 3),
    ("<a><?t ??></a>", "", 3),
    ("<a>\r\n\r</a>", "\n\n", 3),
    ("<a>x\ry</a>", "x\ny", 3),
    ("\u{FEFF}<a/>", "", 2),
    ("<?xml version='1.0'?><a/>", "", 2),
    (
        "<?xml version=\"1.1\" encoding=\"Utf-8\" standalone=\"yes\" ?><a/>",
        "",
        2,
    ),
    ("<?xml version = '1.0' standalone='no'?>\n<a/>", "", 2),
    ("<!DOCTYPE a><a/>", "", 2),
    ("<!DOCTYPE a:b SYSTEM 's\"' ><a/>", "", 2),
    ("<!DOCTYPE a PUBLIC \"-//W3C//DTD'\" \"\"><a/>", "", 2),
    ("<?xml version='1.0'?><!--c--><!DOCTYPE a><?t?><a/>", "", 4),
    (
        "<a>\u{E9}\u{20AC}\u{10FFFF}</a>",
        "\u{E9}\u{20AC}\u{10FFFF}",
        3,
    ),
    ("<\u{E9}-1.b>]]</\u{E9}-1.b>", "]]", 3),
];

// Whether the tree is sound and has this string value and size.
fn is_read_as(rt: &(impl Abort + AllocGlobal), text: &str, value: &str, size: u64) -> bool {
    let tree = document(rt, text);
    let found = tree.string_value(rt.alloc()).expect(rt, "memory");
    let is_right = tree.is_sound() && tree.size() == size && found.is(value);
    drop(found);
    drop(tree);
    is_right
}

#[test]
fn documents(rt: HostRuntime) {
    for (text, value, size) in DOCUMENTS {
        assert!(rt; is_read_as(&rt, text, value, size), "{text}");
    }
}

// Attribute values, written and read.
const VALUES: [(&str, &str); 4] = [
    ("<a k='&#10;&#x9;-\t-\r\n-\r&quot;'/>", "\n\t- - - \""),
    ("<a k='  x  y  '/>", "  x  y  "),
    ("<a k=''/>", ""),
    ("<a k=\"&lt;&amp;>'\"/>", "<&>'"),
];

fn has_value(tree: &Tree, value: &str) -> bool {
    match tree.kid(0).map(Tree::attributes) {
        Some([only]) => only.value.is(value),
        _ => false,
    }
}

#[test]
fn values_are_normalized(rt: HostRuntime) {
    for (text, value) in VALUES {
        let tree = document(&rt, text);
        assert!(rt; has_value(&tree, value), "{text}");
        drop(tree);
    }
}

#[test]
fn the_deepest_is_read(rt: HostRuntime) {
    let mut text = repeated(&rt, "<a>", 2000);
    push(&rt, &mut text, repeated(&rt, "</a>", 2000).as_str());
    assert!(rt; is_read_as(&rt, text.as_str(), "", 2001));
}

// One tag of many attributes, whose names begin alike.
fn wide(rt: &(impl Abort + AllocGlobal), begin: &str, count: u32) -> String {
    let mut text = String::from_str(rt.alloc(), "<a").expect(rt, "memory");
    for i in 0..count {
        let attribute = format!(in rt.alloc(); " {begin}{i}=\"v\"").expect(rt, "memory");
        push(rt, &mut text, attribute.as_str());
    }
    push(rt, &mut text, "/>");
    text
}

#[test]
fn a_megabyte_of_attributes(rt: HostRuntime) {
    let tree = document(&rt, wide(&rt, "k", 100_000).as_str());
    let root = tree.kid(0).expect(&rt, "a root");
    assert_eq!(rt; root.attributes().len(), 100_000);
    let last = root.attributes().last().expect(&rt, "attributes");
    assert!(rt; last.name.local.is("k99999") && last.value.is("v"));
    drop(tree);
}

#[test]
fn a_megabyte_of_declarations(rt: HostRuntime) {
    let text = wide(&rt, "xmlns:k", 60_000);
    assert!(rt; is_read_as(&rt, text.as_str(), "", 2));
}

#[test]
fn megabytes_of_text(rt: HostRuntime) {
    let words = repeated(&rt, "lorem ipsum ", 262_144);
    let text = format!(in rt.alloc(); "<a>{words}</a>").expect(&rt, "memory");
    assert!(rt; is_read_as(&rt, text.as_str(), words.as_str(), 3));
}
