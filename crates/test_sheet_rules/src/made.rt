// Texts, names, expressions and codes for a test.
use bound_prefixes::BoundPrefixes;
use expr_resolve::Setting;
use std::alloc::AllocGlobal;
use std::process::Abort;
use xpath_lex::tokens;
use xpath_syntax::parse_expr;
use xt_names::{Code, ExprName, List, Shared, Text};
use xt_syntax::{Expr, Prefixes};

/// The namespace of the functions of a test, which is the default one.
pub(crate) const FUNCTIONS: &str = "http://www.w3.org/2005/xpath-functions";

pub(crate) fn text(rt: &(impl Abort + AllocGlobal), of: &str) -> Text {
    Text::make(rt.alloc(), of).expect(rt, "memory")
}

pub(crate) fn name(rt: &(impl Abort + AllocGlobal), uri: &str, local: &str) -> ExprName {
    ExprName {
        uri: text(rt, uri),
        local: text(rt, local),
    }
}

fn setting(rt: &(impl Abort + AllocGlobal)) -> Setting {
    Setting {
        prefixes: Prefixes {
            bound: BoundPrefixes::new(List::new(rt.alloc())).expect(rt, "memory"),
            element_default: text(rt, ""),
            function_default: text(rt, FUNCTIONS),
        },
        strip: true,
    }
}

fn expr(rt: &(impl Abort + AllocGlobal), words: &str) -> Expr {
    let setting = setting(rt);
    match tokens(rt.alloc(), words) {
        Err(_) => panic!(rt; "no tokens"),
        Ok(found) => {
            let parsed = parse_expr(rt.alloc(), &found, &setting, 400);
            drop(found);
            drop(setting);
            parsed.expect(rt, "an expression")
        }
    }
}

/// The expression that the words spell.
pub(crate) fn shared(rt: &(impl Abort + AllocGlobal), words: &str) -> Shared<Expr> {
    Shared::make(rt.alloc(), expr(rt, words)).expect(rt, "memory")
}

/// The codes, with a space between them.
pub(crate) fn codes_told(rt: &(impl Abort + AllocGlobal), codes: &List<Code>) -> String {
    let mut out = String::new(rt.alloc());
    for (place, code) in codes.as_slice().iter().enumerate() {
        if place > 0 {
            out.push_str(" ").expect(rt, "memory");
        }
        out.push_str(code.text()).expect(rt, "memory");
    }
    out
}
