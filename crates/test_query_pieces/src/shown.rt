// Tokens and pieces as words. Each helper ends the test where memory runs out.
use expr_terms::{Key, Token, is_worded, key_text};
use query_pieces::{Found, Pieces};
use std::alloc::AllocGlobal;
use std::process::Abort;
use xt_names::Text;

pub(crate) fn push(rt: &(impl Abort + AllocGlobal), out: &mut String, s: &str) {
    out.push_str(s).expect(rt, "memory");
}

// the text so many times
pub(crate) fn repeated(rt: &(impl Abort + AllocGlobal), s: &str, times: usize) -> String {
    let mut out = String::new(rt.alloc());
    for _ in 0..times {
        push(rt, &mut out, s);
    }
    out
}

fn push_one(rt: &(impl Abort + AllocGlobal), out: &mut String, word: &str, text: &str) {
    push(rt, out, word);
    push(rt, out, "(");
    push(rt, out, text);
    push(rt, out, ")");
}

fn push_name(
    rt: &(impl Abort + AllocGlobal),
    out: &mut String,
    word: &str,
    prefix: &Text,
    local: &Text,
) {
    push(rt, out, word);
    push(rt, out, "(");
    if !prefix.as_str().is_empty() {
        push(rt, out, prefix.as_str());
        push(rt, out, ":");
    }
    push(rt, out, local.as_str());
    push(rt, out, ")");
}

fn push_token(rt: &(impl Abort + AllocGlobal), out: &mut String, token: &Token) {
    match token {
        Token::Key(key) => push_one(rt, out, "Key", key_text(*key)),
        Token::Name(n) => push_one(rt, out, "Name", n.as_str()),
        Token::Qname(p, n) => push_name(rt, out, "Qname", p, n),
        Token::AnyLocal(p) => push_one(rt, out, "AnyLocal", p.as_str()),
        Token::AnyPrefix(n) => push_one(rt, out, "AnyPrefix", n.as_str()),
        Token::Digits(n) => {
            let digits = format!(in rt.alloc(); "{n}").expect(rt, "memory");
            push_one(rt, out, "Digits", digits.as_str());
            drop(digits);
        }
        Token::Quoted(t) => push_one(rt, out, "Quoted", t.as_str()),
        Token::StartTagOpen(p, n) => push_name(rt, out, "StartTagOpen", p, n),
        Token::ChildTagOpen(p, n) => push_name(rt, out, "ChildTagOpen", p, n),
        Token::Attribute(p, n) => push_name(rt, out, "Attribute", p, n),
        Token::AttributeEnd => push(rt, out, "AttributeEnd"),
        Token::TagEnd => push(rt, out, "TagEnd"),
        Token::EmptyEnd => push(rt, out, "EmptyEnd"),
        Token::EndTag(p, n) => push_name(rt, out, "EndTag", p, n),
        Token::Chars(t, true) => push_one(rt, out, "Chars", t.as_str()),
        Token::Chars(t, false) => push_one(rt, out, "Reference", t.as_str()),
        Token::EnclosedOpen => push(rt, out, "EnclosedOpen"),
    }
}

// whether an operand may come after the token, as far as the token tells
fn is_before_operand(token: &Token) -> bool {
    match token {
        Token::Key(key) => {
            !is_worded(*key)
                && !matches!(key, Key::CloseParen | Key::CloseBracket | Key::CloseBrace)
        }
        Token::EnclosedOpen => true,
        _ => false,
    }
}

// the tokens of a text to its end, or to where nothing may be read; `always` and `never` say that
// an operand may stand everywhere or nowhere, else what comes before tells
fn walked(rt: &(impl Abort + AllocGlobal), text: &str, always: bool, never: bool) -> String {
    let mut out = String::new(rt.alloc());
    let mut pieces = Pieces::new(rt.alloc(), text);
    let mut operand = true;
    for _ in 0..=text.len() {
        let may_stand = always || (operand && !never);
        let ahead = pieces.ahead();
        match pieces
            .read(rt.alloc(), may_stand, ahead)
            .expect(rt, "memory")
        {
            Found::Token(token) => {
                push_token(rt, &mut out, &token);
                push(rt, &mut out, " ");
                operand = is_before_operand(&token);
                drop(token);
            }
            Found::End => {
                push(rt, &mut out, "End");
                break;
            }
            Found::Nothing => {
                push(rt, &mut out, "Nothing");
                break;
            }
        }
    }
    drop(pieces);
    out
}

pub(crate) fn read(rt: &(impl Abort + AllocGlobal), text: &str) -> String {
    walked(rt, text, false, false)
}

pub(crate) fn read_operands(rt: &(impl Abort + AllocGlobal), text: &str) -> String {
    walked(rt, text, true, false)
}

pub(crate) fn read_operators(rt: &(impl Abort + AllocGlobal), text: &str) -> String {
    walked(rt, text, false, true)
}
