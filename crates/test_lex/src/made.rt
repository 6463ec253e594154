// What tests are made of. Each helper ends the test where memory runs out.
use expr_tokens::text_tokens::lexed;
use std::alloc::AllocGlobal;
use std::process::Abort;
use xpath_lex::{LexFault, Token, TokenKind, token_at, tokens};

pub(crate) fn push(rt: &(impl Abort + AllocGlobal), out: &mut String, s: &str) {
    out.push_str(s).expect(rt, "memory");
}

// the text so many times
pub(crate) fn repeated(rt: &(impl Abort + AllocGlobal), s: &str, times: usize) -> String {
    let mut out = String::new(rt.alloc());
    for _ in 0..times {
        push(rt, &mut out, s);
    }
    out
}

fn letter(kind: TokenKind) -> &'static str {
    match kind {
        TokenKind::Integer => "I ",
        TokenKind::Literal => "L ",
        TokenKind::Word => "W ",
        TokenKind::QWord => "Q ",
        TokenKind::AnyLocal => "AL ",
        TokenKind::AnyPrefix => "AP ",
        TokenKind::Symbol => "S ",
    }
}

fn push_token(rt: &(impl Abort + AllocGlobal), out: &mut String, token: &Token<'_>) {
    if !out.is_empty() {
        push(rt, out, "~");
    }
    push(rt, out, letter(token.kind));
    push(rt, out, token.text);
}

fn push_fault(rt: &(impl Abort + AllocGlobal), out: &mut String, place: usize) {
    push(rt, out, "!");
    let digits = format!(in rt.alloc(); "{place}").expect(rt, "memory");
    push(rt, out, digits.as_str());
    drop(digits);
}

// the tokens of a text, each as the letters of its kind and its text, or `!` and the place of its
// fault
pub(crate) fn listed(rt: &(impl Abort + AllocGlobal), text: &str) -> String {
    let mut out = String::new(rt.alloc());
    match tokens(rt.alloc(), text) {
        Ok(list) => {
            for token in list.as_slice() {
                push_token(rt, &mut out, token);
            }
            drop(list);
        }
        Err(LexFault::BadToken(place)) => push_fault(rt, &mut out, place),
        Err(LexFault::Memory(_)) => push(rt, &mut out, "no memory"),
    }
    out
}

// the same by the function of the text, where the place of a fault is not told
pub(crate) fn listed_once(rt: &(impl Abort + AllocGlobal), text: &str) -> String {
    let mut out = String::new(rt.alloc());
    match lexed(rt.alloc(), text).expect(rt, "memory") {
        Some(list) => {
            for token in list.as_slice() {
                push_token(rt, &mut out, token);
            }
            drop(list);
        }
        None => push(rt, &mut out, "!"),
    }
    out
}

// the same, token by token
pub(crate) fn walked(rt: &(impl Abort + AllocGlobal), text: &str) -> String {
    let mut out = String::new(rt.alloc());
    let mut place = 0;
    for _ in 0..=text.len() {
        if !text.is_char_boundary(place) {
            break;
        }
        match token_at(text, place) {
            Ok(Some(token)) => {
                push_token(rt, &mut out, &token);
                place = token.to;
            }
            Ok(None) => return out,
            Err(at) => {
                out.clear();
                push_fault(rt, &mut out, at);
                return out;
            }
        }
    }
    push(rt, &mut out, "no end");
    out
}
