// The tokens of small texts, worked out by hand from XPath 2.0, A.2.
use crate::made::{listed, listed_once, walked};
use std::alloc::AllocGlobal;
use std::process::Abort;

fn lists_all(rt: &(impl Abort + AllocGlobal), rows: &[(&str, &str)]) {
    for (text, expected) in rows {
        let list = listed(rt, text);
        assert_eq!(rt; list.as_str(), *expected, "the tokens of {text}");
        drop(list);
        let walk = walked(rt, text);
        assert_eq!(rt; walk.as_str(), *expected, "token by token of {text}");
        drop(walk);
        let once = listed_once(rt, text);
        let wanted = if expected.starts_with("!") {
            "!"
        } else {
            expected
        };
        assert_eq!(rt; once.as_str(), wanted, "at once of {text}");
        drop(once);
    }
}

#[test]
fn numbers_and_names(rt: HostRuntime) {
    lists_all(
        &rt,
        &[
            ("", ""),
            ("  ", ""),
            ("a", "W a"),
            ("a-1", "W a-1"),
            ("a -1", "W a~S -~I 1"),
            ("a - 1", "W a~S -~I 1"),
            ("-1", "S -~I 1"),
            ("1a", "!1"),
            ("1 a", "I 1~W a"),
            ("1(::)a", "I 1~W a"),
            ("12a", "!2"),
            ("1p:*", "!1"),
            ("1p:n", "!1"),
            ("1é", "!1"),
            ("2*:n", "I 2~AP *:n"),
            ("2*n", "I 2~S *~W n"),
            ("1.5", "!0"),
            ("1.", "I 1~S ."),
            ("1. 5", "I 1~S .~I 5"),
            ("1 .5", "!2"),
            (".5", "!0"),
            ("..5", "S ..~I 5"),
            ("...5", "!2"),
            ("1..2", "I 1~S ..~I 2"),
            ("1.a", "I 1~S .~W a"),
            ("1e5", "!1"),
            ("a.b", "W a.b"),
            ("a.5", "W a.5"),
            ("a.", "W a."),
            ("a .. b", "W a~S ..~W b"),
            ("007", "I 007"),
            ("_a", "W _a"),
            ("élan", "W élan"),
            ("a·b", "W a·b"),
            ("·b", "!0"),
            ("名前:値", "Q 名前:値"),
        ],
    );
}

#[test]
fn colons_and_stars(rt: HostRuntime) {
    lists_all(
        &rt,
        &[
            ("p:n", "Q p:n"),
            ("p:*", "AL p:*"),
            ("*:n", "AP *:n"),
            ("*", "S *"),
            ("*:*", "!1"),
            ("* :n", "!2"),
            ("*: n", "!1"),
            ("**:n", "S *~AP *:n"),
            ("a:b:c", "!3"),
            ("a: b", "!1"),
            ("a :b", "!2"),
            ("a:", "!1"),
            ("a:1", "!1"),
            ("a:=1", "W a~S :=~I 1"),
            ("$a:=1", "S $~W a~S :=~I 1"),
            ("a := b", "W a~S :=~W b"),
            ("child::a", "W child~S ::~W a"),
            ("child::p:a", "W child~S ::~Q p:a"),
            ("child::*", "W child~S ::~S *"),
            ("child::*:a", "W child~S ::~AP *:a"),
            ("child ::p:*", "W child~S ::~AL p:*"),
            ("a:::b", "!3"),
            ("a:b-c.d", "Q a:b-c.d"),
            ("a:-b", "!1"),
            ("p:**", "AL p:*~S *"),
        ],
    );
}

#[test]
fn symbols(rt: HostRuntime) {
    lists_all(
        &rt,
        &[
            ("<<", "S <<"),
            ("<=", "S <="),
            ("<a", "S <~W a"),
            ("<<<", "S <<~S <"),
            ("<<=", "S <<~S ="),
            (">>=", "S >>~S ="),
            (">=", "S >="),
            ("><", "S >~S <"),
            ("!=", "S !="),
            ("!", "!0"),
            ("==", "S =~S ="),
            ("=>", "S =~S >"),
            ("///", "S //~S /"),
            ("//@a", "S //~S @~W a"),
            ("...", "S ..~S ."),
            ("....", "S ..~S .."),
            ("(a,b)[1]{}", "S (~W a~S ,~W b~S )~S [~I 1~S ]~S {~S }"),
            ("a|b+c-d*e", "W a~S |~W b~S +~W c-d~S *~W e"),
            ("a?;", "W a~S ?~S ;"),
            ("&", "!0"),
            ("#", "!0"),
            ("a%", "!1"),
            ("$a/b", "S $~W a~S /~W b"),
        ],
    );
}

#[test]
fn comments(rt: HostRuntime) {
    lists_all(
        &rt,
        &[
            ("(::)", ""),
            ("(: a :)", ""),
            (" (: a :) b (::) ", "W b"),
            ("(: (: :) :) a", "W a"),
            ("(:(::):)a", "W a"),
            ("(: ::) a", "W a"),
            ("(:):)a", "W a"),
            ("(:(:)a", "!0"),
            ("a (: (: :) b", "!2"),
            ("a (:", "!2"),
            ("a(:", "!1"),
            ("(: :) (:", "!6"),
            ("( :) a", "!2"),
            ("a:(::)b", "!1"),
            ("a(::)b", "W a~W b"),
            ("a(::):b", "!5"),
            (":)", "!0"),
            ("(: \" :)", ""),
            ("(: ' :) '", "!8"),
            ("((: :))", "S (~S )"),
            ("(: \u{FFFE} :)", "!0"),
        ],
    );
}

#[test]
fn literals(rt: HostRuntime) {
    lists_all(
        &rt,
        &[
            ("''", "L ''"),
            ("''''", "L ''''"),
            ("'''", "!2"),
            ("'a'", "L 'a'"),
            ("\"a\"\"b\"", "L \"a\"\"b\""),
            ("\"a\" \"b\"", "L \"a\"~L \"b\""),
            ("\"a\"\"b", "!3"),
            ("'it''s'", "L 'it''s'"),
            ("'\"'", "L '\"'"),
            ("\"'\"", "L \"'\""),
            ("'(: a'", "L '(: a'"),
            ("'a:)'", "L 'a:)'"),
            ("'a", "!0"),
            ("a'", "!1"),
            ("'&amp;'", "L '&amp;'"),
            ("'a\nb'", "L 'a\nb'"),
            ("1'a'2", "I 1~L 'a'~I 2"),
            ("'a'b", "L 'a'~W b"),
            ("'\u{FFFE}'", "!0"),
            ("''\u{FFFE}'", "!2"),
            ("\u{FFFE}", "!0"),
            ("a\u{FFFE}", "!1"),
            ("'\u{10FFFF}'", "L '\u{10FFFF}'"),
            ("\u{1}", "!0"),
            ("\u{A0}a", "!0"),
        ],
    );
}
