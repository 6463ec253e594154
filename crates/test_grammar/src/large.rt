// Large inputs: no depth takes stack of the machine, and the time is linear.
use crate::words::push_many;
use expr_reader::{Reading, parse};
use expr_terms::{Language, Raw, Token};
use std::alloc::AllocGlobal;
use std::process::Abort;

const MANY: usize = 10_000;

// What the tokens are read as, with how many parts the value has.
enum Outcome {
    Parts(usize),
    Nothing,
    TooDeep,
}

fn outcome_of(
    rt: &(impl Abort + AllocGlobal),
    language: Language,
    tokens: Vec<Token>,
    limit: u16,
) -> Outcome {
    let reading = parse(rt.alloc(), language, tokens.as_slice(), limit).expect(rt, "memory");
    drop(tokens);
    match reading {
        Reading::Nothing => Outcome::Nothing,
        Reading::TooDeep => Outcome::TooDeep,
        Reading::Value(raw) => {
            let count = match &raw {
                Raw::Leaf(_) => 0,
                Raw::Node(_, parts) => parts.len(),
            };
            drop(raw);
            Outcome::Parts(count)
        }
    }
}

fn parts_of(rt: &(impl Abort + AllocGlobal), language: Language, tokens: Vec<Token>) -> usize {
    match outcome_of(rt, language, tokens, 60_000) {
        Outcome::Parts(count) => count,
        Outcome::Nothing => panic!(rt; "nothing is spelled"),
        Outcome::TooDeep => panic!(rt; "too deep"),
    }
}

fn is_refused(rt: &(impl Abort + AllocGlobal), language: Language, tokens: Vec<Token>) -> bool {
    match outcome_of(rt, language, tokens, 400) {
        Outcome::Nothing => true,
        Outcome::TooDeep => false,
        Outcome::Parts(_) => false,
    }
}

fn is_too_deep(rt: &(impl Abort + AllocGlobal), language: Language, tokens: Vec<Token>) -> bool {
    match outcome_of(rt, language, tokens, 400) {
        Outcome::Nothing => false,
        Outcome::TooDeep => true,
        Outcome::Parts(_) => false,
    }
}

#[test]
fn a_long_list(rt: HostRuntime) {
    let mut tokens = Vec::new(rt.alloc());
    push_many(&rt, &mut tokens, "1 ,", 2 * MANY - 1);
    push_many(&rt, &mut tokens, "1", 1);
    assert_eq!(rt; parts_of(&rt, Language::Xpath, tokens), 2 * MANY);
}

#[test]
fn many_parentheses(rt: HostRuntime) {
    let mut tokens = Vec::new(rt.alloc());
    push_many(&rt, &mut tokens, "(", MANY);
    push_many(&rt, &mut tokens, "1", 1);
    push_many(&rt, &mut tokens, ")", MANY);
    assert_eq!(rt; parts_of(&rt, Language::Xpath, tokens), 1);
    let mut open = Vec::new(rt.alloc());
    push_many(&rt, &mut open, "(", MANY);
    assert!(rt; is_refused(&rt, Language::Xpath, open));
}

#[test]
fn many_predicates(rt: HostRuntime) {
    let mut tokens = Vec::new(rt.alloc());
    push_many(&rt, &mut tokens, "a", 1);
    push_many(&rt, &mut tokens, "[ 1 ]", MANY);
    assert_eq!(rt; parts_of(&rt, Language::Xpath, tokens), MANY + 1);
}

#[test]
fn many_arms(rt: HostRuntime) {
    let mut tokens = Vec::new(rt.alloc());
    push_many(&rt, &mut tokens, "if ( 1 ) then 2 else", MANY / 4);
    push_many(&rt, &mut tokens, "3", 1);
    assert_eq!(rt; parts_of(&rt, Language::Xpath, tokens), MANY / 2 + 1);
}

#[test]
fn many_operators(rt: HostRuntime) {
    let mut tokens = Vec::new(rt.alloc());
    push_many(&rt, &mut tokens, "1 -", MANY);
    push_many(&rt, &mut tokens, "1", 1);
    assert_eq!(rt; parts_of(&rt, Language::Xpath, tokens), MANY + 1);
}

#[test]
fn many_signs(rt: HostRuntime) {
    let mut tokens = Vec::new(rt.alloc());
    push_many(&rt, &mut tokens, "-", MANY);
    push_many(&rt, &mut tokens, "1", 1);
    assert!(rt; is_too_deep(&rt, Language::Xpath, tokens));
}

#[test]
fn many_open_predicates(rt: HostRuntime) {
    let mut tokens = Vec::new(rt.alloc());
    push_many(&rt, &mut tokens, "a [", MANY);
    push_many(&rt, &mut tokens, "1", 1);
    push_many(&rt, &mut tokens, "]", MANY);
    assert!(rt; is_too_deep(&rt, Language::Xpath, tokens));
    // One bracket too few: nothing is spelled, however deep it is.
    let mut open = Vec::new(rt.alloc());
    push_many(&rt, &mut open, "a [", MANY);
    push_many(&rt, &mut open, "1", 1);
    push_many(&rt, &mut open, "]", MANY - 1);
    assert!(rt; is_refused(&rt, Language::Xpath, open));
}
