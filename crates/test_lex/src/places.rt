// The places of tokens, as bytes.
use xpath_lex::{TokenKind, token_at, tokens};

#[test]
fn places_are_bytes(rt: HostRuntime) {
    let text = "\u{e9} (: \u{540d} :)p:n \t1";
    let list = tokens(rt.alloc(), text).expect(&rt, "tokens");
    assert_eq!(rt; list.len(), 3);
    let expected = [(0usize, 2usize, "\u{e9}"), (12, 15, "p:n"), (17, 18, "1")];
    for (token, row) in list.as_slice().iter().zip(&expected) {
        assert!(rt; token.from == row.0 && token.to == row.1 && token.text == row.2);
    }
    drop(list);
}

fn is_integer(text: &str, place: usize, from: usize, to: usize) -> bool {
    if !text.is_char_boundary(place) {
        return false;
    }
    match token_at(text, place) {
        Ok(Some(token)) => {
            matches!(token.kind, TokenKind::Integer) && token.from == from && token.to == to
        }
        _ => false,
    }
}

fn fails(text: &str, place: usize, expected: usize) -> bool {
    if !text.is_char_boundary(place) {
        return false;
    }
    match token_at(text, place) {
        Err(at) => at == expected,
        _ => false,
    }
}

fn is_over(text: &str, place: usize) -> bool {
    text.is_char_boundary(place) && matches!(token_at(text, place), Ok(None))
}

#[test]
fn any_place_may_be_asked(rt: HostRuntime) {
    assert!(rt; is_integer("12 34", 0, 0, 2));
    assert!(rt; is_integer("12 34", 1, 1, 2));
    assert!(rt; is_integer("12 34", 2, 3, 5));
    assert!(rt; is_integer("a1", 1, 1, 2));
    // in the middle of names and numbers
    assert!(rt; fails("a1b", 2, 2));
    assert!(rt; fails("1.5", 1, 1));
    assert!(rt; fails("(: :)", 1, 1));
    // the end of a text has no token
    assert!(rt; is_over("ab", 2));
    assert!(rt; is_over("a1", 2));
}
