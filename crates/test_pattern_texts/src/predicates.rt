// Which expressions may be predicates of patterns.
use bound_prefixes::BoundPrefixes;
use expr_resolve::Setting;
use pattern_forms::is_pattern_predicate;
use std::alloc::AllocGlobal;
use std::process::Abort;
use xpath_lex::tokens;
use xpath_syntax::parse_expr;
use xt_names::{List, Text};
use xt_syntax::Prefixes;

fn text(rt: &(impl Abort + AllocGlobal), s: &str) -> Text {
    Text::make(rt.alloc(), s).expect(rt, "memory")
}

fn setting(rt: &(impl Abort + AllocGlobal)) -> Setting {
    Setting {
        prefixes: Prefixes {
            bound: BoundPrefixes::new(List::new(rt.alloc())).expect(rt, "memory"),
            element_default: text(rt, ""),
            function_default: text(rt, "http://www.w3.org/2005/xpath-functions"),
        },
        strip: true,
    }
}

fn is_allowed(rt: &(impl Abort + AllocGlobal), s: &Setting, words: &str) -> bool {
    match tokens(rt.alloc(), words) {
        Err(_) => panic!(rt; "no tokens"),
        Ok(found) => {
            let parsed = parse_expr(rt.alloc(), &found, s, 40);
            drop(found);
            match parsed {
                Err(_) => panic!(rt; "no expression"),
                Ok(e) => {
                    let allowed = is_pattern_predicate(&e);
                    drop(e);
                    allowed
                }
            }
        }
    }
}

#[test]
fn what_may_stand(rt: HostRuntime) {
    let cases = [
        "1",
        "last()",
        "position() = 1",
        "position() < last()",
        "last() = 2",
        "@a = 1",
        "@a = 1 and b",
        "b and c and @a > 3",
        "@a = 'x'",
        "b = 'x'",
        "count(b) > 2",
        "exists(b/c[1])",
        "empty(@a)",
        "name() = 'a'",
        "local-name() != 'a'",
        "true()",
        "not(b)",
        "(b)",
        "b and c or d",
        "b//c",
        "ancestor::b[position() = last()]",
    ];
    let s = setting(&rt);
    for words in cases {
        assert!(rt; is_allowed(&rt, &s, words), "{words}");
    }
    drop(s);
}

#[test]
fn what_may_not(rt: HostRuntime) {
    let cases = [
        "@a = 1 and @b = 2",
        "@a = 1 or b",
        "not(@a = 1)",
        "b[@a = 1]",
        "b = 1",
        "@* = 1",
        "@a[1] = 1",
        "$x",
        "1 = 1",
        "1 = position()",
        "1 and b",
        "//b",
        "/",
        "b | c",
        "string-length(b) = 1",
        "'x'",
        "position()",
        "b, c",
        "if (b) then c else d",
        "(b)[1]",
    ];
    let s = setting(&rt);
    for words in cases {
        assert!(rt; !is_allowed(&rt, &s, words), "{words}");
    }
    drop(s);
}
