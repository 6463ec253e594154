// Tokens of expressions (XQuery 1.0, 2.3.1, 3.1.1 and A.2).
use crate::shown::{read, read_operands, read_operators};

#[test]
fn tokens(rt: HostRuntime) {
    let cases = [
        ("", "End"),
        (" (: x (: y :) :) ", "End"),
        ("1 + a", "Digits(1) Key(+) Name(a) End"),
        (
            "p:a,*:b,c:*",
            "Qname(p:a) Key(,) AnyPrefix(b) Key(,) AnyLocal(c) End",
        ),
        ("a(: x :)b", "Name(a) Name(b) End"),
        ("if(a)", "Key(if) Key(() Name(a) Key()) End"),
        ("a-1 a -1", "Name(a-1) Name(a) Key(-) Digits(1) End"),
        ("1 a", "Digits(1) Name(a) End"),
        ("1(::)a", "Digits(1) Name(a) End"),
        ("a1 b", "Name(a1) Name(b) End"),
        ("{ 1 }", "Key({) Digits(1) Key(}) End"),
        ("}", "Key(}) End"),
        ("{{}}", "Key({) Key({) Key(}) Key(}) End"),
        ("9223372036854775807", "Digits(9223372036854775807) End"),
    ];
    for (text, expected) in cases {
        let found = read(&rt, text);
        assert_eq!(rt; found.as_str(), expected);
        drop(found);
    }
}

#[test]
fn literals(rt: HostRuntime) {
    let cases = [
        ("''", "Quoted() End"),
        ("'it''s'", "Quoted(it's) End"),
        ("\"say \"\"x\"\"\"", "Quoted(say \"x\") End"),
        ("'\"'", "Quoted(\") End"),
        ("'&#x41;&lt;&amp;'", "Quoted(A<&) End"),
        ("'&#65;&quot;&apos;&gt;'", "Quoted(A\"'>) End"),
        ("'&#x4a;&#x4A;'", "Quoted(JJ) End"),
        ("'&#000000000000000000000065;'", "Quoted(A) End"),
        ("'&#x10FFFF;'", "Quoted(\u{10FFFF}) End"),
        ("'&amp;lt;'", "Quoted(&lt;) End"),
        ("'a\r\nb\rc\n'", "Quoted(a\nb\nc\n) End"),
        ("'\r\r\n'", "Quoted(\n\n) End"),
        ("'&#13;\n'", "Quoted(\r\n) End"),
        ("'<a>'", "Quoted(<a>) End"),
    ];
    for (text, expected) in cases {
        let found = read(&rt, text);
        assert_eq!(rt; found.as_str(), expected);
        drop(found);
    }
}

#[test]
fn refusals(rt: HostRuntime) {
    let cases = [
        ("1a", "Digits(1) Nothing"),
        ("1.5", "Nothing"),
        ("9223372036854775808", "Nothing"),
        ("{", "Key({) Nothing"),
        ("a (: b", "Name(a) Nothing"),
        ("'a", "Nothing"),
        ("'a''", "Quoted(a) Nothing"),
        ("'&nbsp;'", "Nothing"),
        ("'&lt'", "Nothing"),
        ("'& '", "Nothing"),
        ("'&;'", "Nothing"),
        ("'&#;'", "Nothing"),
        ("'&#x;'", "Nothing"),
        ("'&#4a;'", "Nothing"),
        ("'&#X41;'", "Nothing"),
        ("'&#0;'", "Nothing"),
        ("'&#xD800;'", "Nothing"),
        ("'&#x110000;'", "Nothing"),
        ("'&#99999999999999999999;'", "Nothing"),
        ("&lt;", "Nothing"),
        ("a \u{1}", "Name(a) Nothing"),
    ];
    for (text, expected) in cases {
        let found = read(&rt, text);
        assert_eq!(rt; found.as_str(), expected);
        drop(found);
    }
}

// `<` before a name begins an element where an operand may stand, and always after a lone `/`
#[test]
fn less_than(rt: HostRuntime) {
    let cases = [
        ("a<b", "Name(a) Key(<) Name(b) End"),
        ("a <b", "Name(a) Key(<) Name(b) End"),
        ("a < b", "Name(a) Key(<) Name(b) End"),
        ("1 = <b/>", "Digits(1) Key(=) StartTagOpen(b) EmptyEnd End"),
        ("<a/>/b", "StartTagOpen(a) EmptyEnd Key(/) Name(b) End"),
        ("<a/> <b", "StartTagOpen(a) EmptyEnd Key(<) Name(b) End"),
        ("{<a/>}", "Key({) StartTagOpen(a) EmptyEnd Key(}) End"),
        ("< a", "Key(<) Name(a) End"),
        ("<<a", "Key(<<) Name(a) End"),
        ("<=a", "Key(<=) Name(a) End"),
        ("//<a/>", "Key(//) StartTagOpen(a) EmptyEnd End"),
    ];
    for (text, expected) in cases {
        let found = read(&rt, text);
        assert_eq!(rt; found.as_str(), expected);
        drop(found);
    }
    let operators = [
        ("<a", "Key(<) Name(a) End"),
        ("/<a/>", "Key(/) StartTagOpen(a) EmptyEnd End"),
        ("/ (: x :) <a/>", "Key(/) StartTagOpen(a) EmptyEnd End"),
        ("/<1", "Key(/) Key(<) Digits(1) End"),
        ("//<a", "Key(//) Key(<) Name(a) End"),
        ("/ a <b", "Key(/) Name(a) Key(<) Name(b) End"),
    ];
    for (text, expected) in operators {
        let found = read_operators(&rt, text);
        assert_eq!(rt; found.as_str(), expected);
        drop(found);
    }
    let found = read_operands(&rt, "a<b/>");
    assert_eq!(rt; found.as_str(), "Name(a) StartTagOpen(b) EmptyEnd End");
    drop(found);
}
