// Attribute value templates, with their parts: characters in `[]`, expressions in `<>`.
use crate::shown::{push, string};
use sheet_values::{Piece, template_pieces};
use std::alloc::AllocGlobal;
use std::process::Abort;

fn push_piece(rt: &(impl Abort + AllocGlobal), shown: &mut String, piece: &Piece) {
    match piece {
        Piece::Chars(text) => {
            push(rt, shown, "[");
            push(rt, shown, text.as_str());
            push(rt, shown, "]");
        }
        Piece::Code(text) => {
            push(rt, shown, "<");
            push(rt, shown, text.as_str());
            push(rt, shown, ">");
        }
        Piece::LoneOpen => push(rt, shown, "open"),
        Piece::LoneClose => push(rt, shown, "close"),
    }
}

fn is_split(rt: &(impl Abort + AllocGlobal), words: &str, wanted: &str) -> bool {
    let pieces = template_pieces(rt.alloc(), words).expect(rt, "memory");
    let mut found = string(rt, "");
    for piece in pieces.as_slice() {
        push_piece(rt, &mut found, piece);
    }
    drop(pieces);
    let same = found.as_str() == wanted;
    drop(found);
    same
}

#[test]
fn parts(rt: HostRuntime) {
    let cases = [
        ("", ""),
        ("a", "[a]"),
        ("{a}", "<a>"),
        ("a{b}c", "[a]<b>[c]"),
        ("{a}{b}", "<a><b>"),
        ("{{", "[{]"),
        ("}}", "[}]"),
        ("a{{b}}c", "[a{b}c]"),
        ("{{{a}}}", "[{]<a>[}]"),
        ("{}", "<>"),
        ("{ a }", "< a >"),
        ("{'}'}", "<'}'>"),
        ("{\"}\"}", "<\"}\">"),
        ("{'a''}'}", "<'a''}'>"),
        ("{'\"}'}", "<'\"}'>"),
        ("{(:}:)a}", "<(:}:)a>"),
        ("{(:(:}:)}:)a}", "<(:(:}:)}:)a>"),
        ("{(:':)'}'}", "<(:':)'}'>"),
        ("{(:)}:)1}", "<(:)}:)1>"),
        ("{(})}", "<(>[)]close"),
        ("{a{b}", "<a{b>"),
    ];
    for (words, wanted) in cases {
        assert!(rt; is_split(&rt, words, wanted), "{words}");
    }
}

#[test]
fn lone_braces(rt: HostRuntime) {
    let cases = [
        ("{", "open"),
        ("a{", "[a]open"),
        ("a{b", "[a]open"),
        ("{'}", "open"),
        ("{(:}", "open"),
        ("}", "close"),
        ("a}b", "[a]close[b]"),
        ("{a}}", "<a>close"),
        ("}}}", "[}]close"),
        ("{{{", "[{]open"),
        ("}{a}", "close<a>"),
    ];
    for (words, wanted) in cases {
        assert!(rt; is_split(&rt, words, wanted), "{words}");
    }
}
