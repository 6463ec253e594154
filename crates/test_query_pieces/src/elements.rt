// Direct elements (XQuery 1.0, 3.7.1).
use crate::shown::{push, read};
use std::alloc::AllocGlobal;
use std::process::Abort;

fn joined(rt: &(impl Abort + AllocGlobal), front: &str, middle: &str, back: &str) -> String {
    let mut out = String::new(rt.alloc());
    push(rt, &mut out, front);
    push(rt, &mut out, middle);
    push(rt, &mut out, back);
    out
}

// what is between the two texts is read so between the two readings
fn is_read_within(
    rt: &(impl Abort + AllocGlobal),
    around: (&str, &str),
    text: &str,
    readings: (&str, &str),
    expected: &str,
) -> bool {
    let whole = joined(rt, around.0, text, around.1);
    let wanted = joined(rt, readings.0, expected, readings.1);
    let found = read(rt, whole.as_str());
    let same = found.as_str() == wanted.as_str();
    drop(found);
    drop(wanted);
    drop(whole);
    same
}

#[test]
fn tags(rt: HostRuntime) {
    let cases = [
        ("<a/>", "StartTagOpen(a) EmptyEnd End"),
        ("<a></a>", "StartTagOpen(a) TagEnd EndTag(a) End"),
        ("<a ></a >", "StartTagOpen(a) TagEnd EndTag(a) End"),
        ("<if \n/>", "StartTagOpen(if) EmptyEnd End"),
        ("<p:a/>", "StartTagOpen(p:a) EmptyEnd End"),
        (
            "<a  b='1' p:c = \"2\" />",
            "StartTagOpen(a) Attribute(b) Chars(1) AttributeEnd Attribute(p:c) Chars(2) \
             AttributeEnd EmptyEnd End",
        ),
        (
            "<a b=''/>",
            "StartTagOpen(a) Attribute(b) AttributeEnd EmptyEnd End",
        ),
        (
            "<a b='1'c='2'/>",
            "StartTagOpen(a) Attribute(b) Chars(1) AttributeEnd Nothing",
        ),
        ("<a b/>", "StartTagOpen(a) Nothing"),
        ("<a b=1/>", "StartTagOpen(a) Nothing"),
        ("<a / >", "StartTagOpen(a) Nothing"),
        ("<a", "StartTagOpen(a) Nothing"),
        ("<p:/>", "StartTagOpen(p) Nothing"),
        ("<p:*/>", "StartTagOpen(p) Nothing"),
        ("<a:b:c/>", "StartTagOpen(a:b) Nothing"),
        ("<a></ a>", "StartTagOpen(a) TagEnd Nothing"),
        ("<a>", "StartTagOpen(a) TagEnd Nothing"),
        ("<a (: x :) />", "StartTagOpen(a) Nothing"),
    ];
    for (text, expected) in cases {
        let found = read(&rt, text);
        assert_eq!(rt; found.as_str(), expected);
        drop(found);
    }
}

#[test]
fn values(rt: HostRuntime) {
    let cases = [
        ("'x'", "Chars(x) AttributeEnd "),
        ("\"'\"", "Chars(') AttributeEnd "),
        ("'\"'", "Chars(\") AttributeEnd "),
        ("\"x\"\"y\"", "Chars(x) Chars(\") Chars(y) AttributeEnd "),
        ("'x''y'", "Chars(x) Chars(') Chars(y) AttributeEnd "),
        ("\"''\"", "Chars('') AttributeEnd "),
        ("\"{'}'}\"", "EnclosedOpen Quoted(}) Key(}) AttributeEnd "),
        (
            "'{ 1 }{2}'",
            "EnclosedOpen Digits(1) Key(}) EnclosedOpen Digits(2) Key(}) AttributeEnd ",
        ),
        ("'{{}}'", "Chars({) Chars(}) AttributeEnd "),
        (
            "'{<b c=\"d\"/>}'",
            "EnclosedOpen StartTagOpen(b) Attribute(c) Chars(d) AttributeEnd EmptyEnd Key(}) \
             AttributeEnd ",
        ),
        (
            "'&#x41;b&#10;'",
            "Reference(A) Chars(b) Reference(\n) AttributeEnd ",
        ),
        (
            "'x\r\ny\tz\n'",
            "Chars(x) Chars( ) Chars(y) Chars( ) Chars(z) Chars( ) AttributeEnd ",
        ),
        ("' \r\r'", "Chars( ) Chars( ) Chars( ) AttributeEnd "),
        ("'>(: :)'", "Chars(>(: :)) AttributeEnd "),
    ];
    let readings = ("StartTagOpen(a) Attribute(b) ", "EmptyEnd End");
    for (text, expected) in cases {
        assert!(rt; is_read_within(&rt, ("<a b=", "/>"), text, readings, expected));
    }
}

#[test]
fn values_refused(rt: HostRuntime) {
    let refused = ["'<'", "'}'", "'&b'", "'&#xFFFE;'", "'\u{1}'"];
    let readings = ("StartTagOpen(a) Attribute(b) ", "");
    for text in refused {
        assert!(rt; is_read_within(&rt, ("<a b=", "/>"), text, readings, "Nothing"));
    }
}

#[test]
fn content(rt: HostRuntime) {
    let cases = [
        ("x", "Chars(x) "),
        ("{{x}}", "Chars({) Chars(x) Chars(}) "),
        ("{\"{\"}", "EnclosedOpen Quoted({) Key(}) "),
        (
            "{1}{2}",
            "EnclosedOpen Digits(1) Key(}) EnclosedOpen Digits(2) Key(}) ",
        ),
        (
            "{ <b>{1}</b> }",
            "EnclosedOpen StartTagOpen(b) TagEnd EnclosedOpen Digits(1) Key(}) EndTag(b) Key(}) ",
        ),
        (
            "{ element b { 1 } }",
            "EnclosedOpen Key(element) Name(b) Key({) Digits(1) Key(}) Key(}) ",
        ),
        (
            " <b>t</b> ",
            "Chars( ) ChildTagOpen(b) TagEnd Chars(t) EndTag(b) Chars( ) ",
        ),
        ("<p:b/>", "ChildTagOpen(p:b) EmptyEnd "),
        ("&#x41;b&lt;", "Reference(A) Chars(b) Reference(<) "),
        (
            "x\r\ny\rz\n",
            "Chars(x) Chars(\n) Chars(y) Chars(\n) Chars(z\n) ",
        ),
        ("'\"(: x :)]]>", "Chars('\"(: x :)]]>) "),
        ("{a<b}", "EnclosedOpen Name(a) Key(<) Name(b) Key(}) "),
    ];
    let readings = ("StartTagOpen(a) TagEnd ", "EndTag(a) End");
    for (text, expected) in cases {
        assert!(rt; is_read_within(&rt, ("<a>", "</a>"), text, readings, expected));
    }
}

#[test]
fn content_refused(rt: HostRuntime) {
    let refused = [
        "}",
        "< b/>",
        "<!-- -->",
        "<![CDATA[x]]>",
        "<?p?>",
        "&b",
        "\u{1}",
    ];
    let readings = ("StartTagOpen(a) TagEnd ", "");
    for text in refused {
        assert!(rt; is_read_within(&rt, ("<a>", "</a>"), text, readings, "Nothing"));
    }
}
