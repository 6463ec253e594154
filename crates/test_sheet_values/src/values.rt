// Names, modes, priorities, name tests and choices, each with what it means or breaks.
use crate::shown;
use sheet_values::{
    declared_name, function_name, mode_choice, mode_list, name_tests, priority, qname, yes_or_no,
};
use std::alloc::AllocGlobal;
use std::process::Abort;
use xt_names::SheetStaticCode;

type Case = (&'static str, &'static str);

fn is_shown(found: String, wanted: &str) -> bool {
    let same = found.as_str() == wanted;
    drop(found);
    same
}

fn name_of(rt: &(impl Abort + AllocGlobal), words: &str) -> String {
    let bound = shown::scope(rt);
    let text = shown::text(rt, words);
    let found = qname(rt.alloc(), &bound, &text);
    drop(text);
    drop(bound);
    match found {
        Ok(name) => shown::name(rt, &name),
        Err(fault) => shown::fault(rt, fault),
    }
}

#[test]
fn names(rt: HostRuntime) {
    let cases: [Case; 14] = [
        ("a", "a"),
        ("p:a", "{urn:p}a"),
        ("x:a", "{http://www.w3.org/1999/XSL/Transform}a"),
        ("q:a", "XTSE0280"),
        ("u:a", "XTSE0280"),
        ("", "XTSE0020"),
        (" a", "XTSE0020"),
        ("a b", "XTSE0020"),
        ("1a", "XTSE0020"),
        (":a", "XTSE0020"),
        ("p:", "XTSE0020"),
        ("p:a:b", "XTSE0020"),
        ("p:*", "XTSE0020"),
        ("*", "XTSE0020"),
    ];
    for (words, wanted) in cases {
        assert!(rt; is_shown(name_of(&rt, words), wanted), "{words}");
    }
}

fn declared_of(rt: &(impl Abort + AllocGlobal), words: &str) -> String {
    let bound = shown::scope(rt);
    let text = shown::text(rt, words);
    let code = SheetStaticCode::XTSE0020;
    let found = declared_name(rt.alloc(), &bound, &text, code);
    drop(text);
    drop(bound);
    match found {
        Ok(name) => shown::name(rt, &name),
        Err(fault) => shown::fault(rt, fault),
    }
}

fn function_of(rt: &(impl Abort + AllocGlobal), words: &str) -> String {
    let bound = shown::scope(rt);
    let text = shown::text(rt, words);
    let found = function_name(rt.alloc(), &bound, &text);
    drop(text);
    drop(bound);
    match found {
        Ok(name) => shown::name(rt, &name),
        Err(fault) => shown::fault(rt, fault),
    }
}

#[test]
fn declared_names(rt: HostRuntime) {
    let cases: [Case; 5] = [
        ("a", "a"),
        ("p:a", "{urn:p}a"),
        ("x:a", "XTSE0080"),
        ("f:a", "XTSE0080"),
        ("q:a", "XTSE0280"),
    ];
    for (words, wanted) in cases {
        assert!(rt; is_shown(declared_of(&rt, words), wanted), "{words}");
    }
    let functions: [Case; 5] = [
        ("p:a", "{urn:p}a"),
        ("a", "XTSE0740"),
        ("1", "XTSE0020"),
        ("q:a", "XTSE0280"),
        ("f:a", "XTSE0080"),
    ];
    for (words, wanted) in functions {
        assert!(rt; is_shown(function_of(&rt, words), wanted), "{words}");
    }
}

fn modes_of(rt: &(impl Abort + AllocGlobal), words: &str) -> String {
    let bound = shown::scope(rt);
    let text = shown::text(rt, words);
    let found = mode_list(rt.alloc(), &bound, &text);
    drop(text);
    drop(bound);
    match found {
        Ok(modes) => shown::modes(rt, &modes),
        Err(fault) => shown::fault(rt, fault),
    }
}

fn choice_of(rt: &(impl Abort + AllocGlobal), words: &str) -> String {
    let bound = shown::scope(rt);
    let text = shown::text(rt, words);
    let found = mode_choice(rt.alloc(), &bound, &text);
    drop(text);
    drop(bound);
    match found {
        Ok(choice) => shown::choice(rt, &choice),
        Err(fault) => shown::fault(rt, fault),
    }
}

#[test]
fn modes(rt: HostRuntime) {
    let cases: [Case; 14] = [
        ("a", "|a"),
        ("#all", "all"),
        ("  #all\t", "all"),
        ("#default", "|#"),
        ("p:a #default b", "|{urn:p}a|#|b"),
        ("", "XTSE0550"),
        (" ", "XTSE0550"),
        ("#all a", "XTSE0550"),
        ("a #all", "XTSE0550"),
        ("#current", "XTSE0550"),
        ("a b a", "XTSE0550"),
        ("#default #default", "XTSE0550"),
        ("a q:b", "XTSE0280"),
        ("a x:b", "XTSE0080"),
    ];
    for (words, wanted) in cases {
        assert!(rt; is_shown(modes_of(&rt, words), wanted), "{words}");
    }
    let choices: [Case; 9] = [
        ("a", "a"),
        (" p:a ", "{urn:p}a"),
        ("#default", "#"),
        ("#current", "current"),
        ("#all", "XTSE0020"),
        ("", "XTSE0020"),
        ("a b", "XTSE0020"),
        ("q:a", "XTSE0280"),
        ("x:a", "XTSE0080"),
    ];
    for (words, wanted) in choices {
        assert!(rt; is_shown(choice_of(&rt, words), wanted), "{words}");
    }
}

fn priority_of(rt: &(impl Abort + AllocGlobal), words: &str) -> String {
    let text = shown::text(rt, words);
    let found = priority(rt.alloc(), &text);
    drop(text);
    match found {
        Ok(number) => {
            let made = format!(in rt.alloc(); "{number}");
            made.expect(rt, "memory")
        }
        Err(fault) => shown::fault(rt, fault),
    }
}

#[test]
fn priorities(rt: HostRuntime) {
    let cases: [Case; 24] = [
        ("0", "0"),
        ("1", "1000"),
        ("-1", "-1000"),
        ("1.5", "1500"),
        ("1.25", "1250"),
        ("1.05", "1050"),
        ("-0.001", "-1"),
        ("-0", "0"),
        ("007", "7000"),
        ("999999999.999", "999999999999"),
        ("-999999999.999", "-999999999999"),
        ("1000000000", "XTUN0001"),
        ("1.0001", "XTUN0001"),
        ("+1", "XTUN0001"),
        (".5", "XTUN0001"),
        ("5.", "XTUN0001"),
        (".", "XTSE0020"),
        ("", "XTSE0020"),
        ("-", "XTSE0020"),
        (" 1", "XTSE0020"),
        ("1e3", "XTSE0020"),
        ("1.2.3", "XTSE0020"),
        ("--1", "XTSE0020"),
        ("\u{661}", "XTSE0020"),
    ];
    for (words, wanted) in cases {
        assert!(rt; is_shown(priority_of(&rt, words), wanted), "{words}");
    }
}

fn tests_of(rt: &(impl Abort + AllocGlobal), words: &str) -> String {
    let bound = shown::scope(rt);
    let text = shown::text(rt, words);
    let found = name_tests(rt.alloc(), &bound, &text);
    drop(text);
    drop(bound);
    match found {
        Ok(tests) => {
            let made = shown::tests(rt, tests.as_slice());
            drop(tests);
            made
        }
        Err(fault) => shown::fault(rt, fault),
    }
}

fn yes_of(rt: &(impl Abort + AllocGlobal), words: &str) -> String {
    let text = shown::text(rt, words);
    let found = yes_or_no(&text);
    drop(text);
    match found {
        Ok(true) => shown::string(rt, "yes"),
        Ok(false) => shown::string(rt, "no"),
        Err(fault) => shown::fault(rt, fault),
    }
}

#[test]
fn elements_and_choices(rt: HostRuntime) {
    let cases: [Case; 7] = [
        ("* a", "|*|a"),
        ("p:* *:n p:a", "|{urn:p}*|*:n|{urn:p}a"),
        ("", ""),
        ("q:*", "XTSE0280"),
        ("a()", "XTSE0020"),
        ("*:*", "XTSE0020"),
        ("a,b", "XTSE0020"),
    ];
    for (words, wanted) in cases {
        assert!(rt; is_shown(tests_of(&rt, words), wanted), "{words}");
    }
    let choices: [Case; 5] = [
        ("yes", "yes"),
        ("no", "no"),
        ("", "XTSE0020"),
        ("Yes", "XTSE0020"),
        (" yes", "XTSE0020"),
    ];
    for (words, wanted) in choices {
        assert!(rt; is_shown(yes_of(&rt, words), wanted), "{words}");
    }
}
