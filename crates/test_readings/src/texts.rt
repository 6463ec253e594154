// Expressions with a limit of nesting.
use bound_prefixes::BoundPrefixes;
use expr_resolve::Setting;
use std::alloc::AllocGlobal;
use std::process::Abort;
use xpath_syntax::expr_readings::parse_text;
use xt_names::{List, Text};
use xt_syntax::{ParseFault, Prefixes};

fn text(rt: &(impl Abort + AllocGlobal), s: &str) -> Text {
    Text::make(rt.alloc(), s).expect(rt, "memory")
}

fn setting(rt: &(impl Abort + AllocGlobal)) -> Setting {
    Setting {
        prefixes: Prefixes {
            bound: BoundPrefixes::new(List::new(rt.alloc())).expect(rt, "memory"),
            element_default: text(rt, ""),
            function_default: text(rt, "http://www.w3.org/2005/xpath-functions"),
        },
        strip: true,
    }
}

// `value`, or why there is none.
fn told(
    rt: &(impl Abort + AllocGlobal),
    setting: &Setting,
    words: &str,
    limit: u16,
) -> &'static str {
    match parse_text(rt.alloc(), words, setting, limit) {
        Err(ParseFault::Syntax) => "syntax",
        Err(ParseFault::TooDeep) => "deep",
        Err(ParseFault::Static(code)) => code.text(),
        Err(ParseFault::Memory(_)) => "memory",
        Ok(e) => {
            drop(e);
            "value"
        }
    }
}

#[test]
fn expressions(rt: HostRuntime) {
    let cases = [
        ("a (: b :) + 1", 2, "value"),
        ("a +", 2, "syntax"),
        ("", 2, "syntax"),
        ("a \"", 2, "syntax"),
        ("(: a", 2, "syntax"),
        ("1a", 2, "syntax"),
        ("1 + -(1)", 2, "deep"),
        ("1 + -(1)", 3, "value"),
        ("q:a", 1, "XPST0081"),
        ("1 + q:a", 1, "deep"),
        ("1 + q:a + ", 1, "syntax"),
    ];
    let s = setting(&rt);
    for (words, limit, wanted) in cases {
        assert_eq!(rt; told(&rt, &s, words, limit), wanted, "{words}");
    }
    drop(s);
}
