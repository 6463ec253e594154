// Which texts have the shape of a pattern.
use expr_reader::{Reading, parse};
use expr_terms::{Language, Token};
use expr_tokens::terms;
use pattern_forms::pattern_shapes::is_pattern;
use std::alloc::AllocGlobal;
use std::process::Abort;
use xpath_lex::tokens;

fn terms_of(rt: &(impl Abort + AllocGlobal), words: &str) -> Vec<Token> {
    match tokens(rt.alloc(), words) {
        Err(_) => panic!(rt; "no tokens"),
        Ok(found) => {
            let made = terms(rt.alloc(), found.as_slice()).expect(rt, "memory");
            drop(found);
            match made {
                None => panic!(rt; "no terms"),
                Some(made) => made,
            }
        }
    }
}

fn has_shape(rt: &(impl Abort + AllocGlobal), words: &str) -> bool {
    let made = terms_of(rt, words);
    let reading = parse(rt.alloc(), Language::Xpath, made.as_slice(), 400).expect(rt, "memory");
    drop(made);
    match reading {
        Reading::Nothing => panic!(rt; "nothing is spelled"),
        Reading::TooDeep => panic!(rt; "too deep"),
        Reading::Value(raw) => {
            let found = is_pattern(&raw);
            drop(raw);
            found
        }
    }
}

#[test]
fn patterns(rt: HostRuntime) {
    let cases = [
        "a",
        "/",
        "a/b",
        "//a",
        "/a//b",
        "a//@b",
        "/a | b",
        "a | / | c[1]",
        "child::a/attribute::b",
        "text()",
        "@*",
        "p:*[2][b]",
        "*:a",
        "processing-instruction('x')",
    ];
    for words in cases {
        assert!(rt; has_shape(&rt, words), "{words}");
    }
}

#[test]
fn no_patterns(rt: HostRuntime) {
    let cases = [
        "a union b",
        "(a)",
        "a/..",
        "/..",
        "self::a",
        "descendant::a",
        ".",
        "a, b",
        "1",
        "key('k', 'v')",
        "key('k', 'v')/a",
        "a/(b)",
        "a/descendant::b",
        "-a",
        "a = b",
        "for $x in a return b",
        "a | (b)",
        "a | b union c",
        "$x",
        "()",
    ];
    for words in cases {
        assert!(rt; !has_shape(&rt, words), "{words}");
    }
}
