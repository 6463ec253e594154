// Large texts: no depth and no length takes stack of the machine, and the time is linear.
use crate::made::{push, repeated};
use std::alloc::AllocGlobal;
use std::process::Abort;
use xpath_lex::{LexFault, TokenKind, token_at, tokens};

const DEEP: usize = 100_000;

const MEGABYTE: usize = 1_000_000;

fn is_one(rt: &(impl Abort + AllocGlobal), text: &str, kind: TokenKind) -> bool {
    match tokens(rt.alloc(), text) {
        Ok(list) => {
            let one = match list.as_slice() {
                [token] => {
                    letter(token.kind) == letter(kind) && token.from == 0 && token.to == text.len()
                }
                _ => false,
            };
            drop(list);
            one
        }
        Err(_) => false,
    }
}

fn letter(kind: TokenKind) -> u8 {
    match kind {
        TokenKind::Integer => 0,
        TokenKind::Literal => 1,
        TokenKind::Word => 2,
        TokenKind::QWord => 3,
        TokenKind::AnyLocal => 4,
        TokenKind::AnyPrefix => 5,
        TokenKind::Symbol => 6,
    }
}

fn fault_of(rt: &(impl Abort + AllocGlobal), text: &str) -> Option<usize> {
    match tokens(rt.alloc(), text) {
        Ok(list) => {
            drop(list);
            None
        }
        Err(LexFault::BadToken(place)) => Some(place),
        Err(LexFault::Memory(_)) => None,
    }
}

// where the first token begins
fn first_place(text: &str) -> Option<usize> {
    if !text.is_char_boundary(0) {
        return None;
    }
    match token_at(text, 0) {
        Ok(Some(token)) => Some(token.from),
        _ => None,
    }
}

#[test]
fn comments_nest_deeply(rt: HostRuntime) {
    let mut text = repeated(&rt, "(:", DEEP);
    let closing = repeated(&rt, ":)", DEEP);
    push(&rt, &mut text, closing.as_str());
    push(&rt, &mut text, "a");
    assert_eq!(rt; first_place(text.as_str()), Some(4 * DEEP));
    drop(closing);
    drop(text);
}

#[test]
fn a_comment_is_not_closed(rt: HostRuntime) {
    let mut text = repeated(&rt, "a + ", MEGABYTE / 4);
    push(&rt, &mut text, "(: (: :) ");
    assert_eq!(rt; fault_of(&rt, text.as_str()), Some(MEGABYTE));
    drop(text);
    let mut long = repeated(&rt, "", 0);
    push(&rt, &mut long, "(:");
    let inside = repeated(&rt, "text ", MEGABYTE);
    push(&rt, &mut long, inside.as_str());
    assert_eq!(rt; fault_of(&rt, long.as_str()), Some(0));
    drop(inside);
    drop(long);
}

#[test]
fn tokens_are_long(rt: HostRuntime) {
    let digits = repeated(&rt, "9", MEGABYTE);
    assert!(rt; is_one(&rt, digits.as_str(), TokenKind::Integer));
    drop(digits);
    let name = repeated(&rt, "n\u{e9}", MEGABYTE / 2);
    assert!(rt; is_one(&rt, name.as_str(), TokenKind::Word));
    drop(name);
    let literal = repeated(&rt, "'ab'", MEGABYTE / 4);
    assert!(rt; is_one(&rt, literal.as_str(), TokenKind::Literal));
    drop(literal);
}

#[test]
fn a_literal_is_not_closed(rt: HostRuntime) {
    let mut text = repeated(&rt, "'ab'", MEGABYTE / 4);
    push(&rt, &mut text, "'ab");
    assert_eq!(rt; fault_of(&rt, text.as_str()), Some(MEGABYTE));
    drop(text);
}
