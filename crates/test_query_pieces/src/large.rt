// Large inputs: no depth takes stack of the machine, and the time is linear.
use crate::shown::{push, repeated};
use query_pieces::{Found, Pieces, second};
use std::alloc::AllocGlobal;
use std::process::Abort;

const MANY: usize = 1_000_000;

// How many tokens and pieces the text is, if it is read to its end. Each is looked at from before,
// as the reader of the grammar does.
fn count(rt: &(impl Abort + AllocGlobal), text: &str) -> Option<usize> {
    let mut pieces = Pieces::new(rt.alloc(), text);
    for count in 0..=text.len() {
        let ahead = pieces.ahead();
        let _second = second(ahead);
        match pieces.read(rt.alloc(), true, ahead).expect(rt, "memory") {
            Found::Token(token) => drop(token),
            Found::End => {
                drop(pieces);
                return Some(count);
            }
            Found::Nothing => break,
        }
    }
    drop(pieces);
    None
}

// the first, the second so many times, and the third
fn around(rt: &(impl Abort + AllocGlobal), front: &str, s: &str, back: &str) -> String {
    let mut out = String::new(rt.alloc());
    push(rt, &mut out, front);
    let middle = repeated(rt, s, MANY);
    push(rt, &mut out, middle.as_str());
    drop(middle);
    push(rt, &mut out, back);
    out
}

#[test]
fn deep_elements(rt: HostRuntime) {
    let mut text = repeated(&rt, "<a>", MANY);
    let ends = repeated(&rt, "</a>", MANY);
    push(&rt, &mut text, ends.as_str());
    drop(ends);
    // the front of each, the end of its start tag, and its end tag
    assert!(rt; count(&rt, text.as_str()) == Some(3 * MANY));
    drop(text);
}

#[test]
fn deep_braces(rt: HostRuntime) {
    let mut text = repeated(&rt, "<a>{", MANY);
    let ends = repeated(&rt, "}</a>", MANY);
    push(&rt, &mut text, ends.as_str());
    drop(ends);
    assert!(rt; count(&rt, text.as_str()) == Some(5 * MANY));
    drop(text);
}

#[test]
fn long_runs(rt: HostRuntime) {
    let cases = [
        ("", "a", "", Some(1usize)),
        ("'", "a", "'", Some(1)),
        ("'", "''", "'", Some(1)),
        ("'", "&lt;", "'", Some(1)),
        ("'&#", "0", "65;'", Some(1)),
        ("", "1", "", None),
        ("", " ", "", Some(0)),
        ("(:", "(: :)", ":)", Some(0)),
        ("<a>", "b", "</a>", Some(4)),
        ("<a b='", "{{", "'/>", Some(MANY + 4)),
        ("<", "a", "/>", Some(2)),
        ("", "a{}", "", Some(3 * MANY)),
        ("'", "a", "", None),
        ("(:", "a", "", None),
    ];
    for (front, s, back, expected) in cases {
        let text = around(&rt, front, s, back);
        assert!(rt; count(&rt, text.as_str()) == expected);
        drop(text);
    }
}
