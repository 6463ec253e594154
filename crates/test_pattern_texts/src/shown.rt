// Patterns as texts: `^` at the front of a rooted one, and before each step `/` or `//`.
use bound_prefixes::BoundPrefixes;
use expr_resolve::Setting;
use pattern_syntax::parse_pattern;
use std::alloc::AllocGlobal;
use std::process::Abort;
use xt_names::{Binding, List, Text};
use xt_syntax::{Expr, ParseFault, Pattern, PatternStep, Prefixes};
use xt_types::{Axis, NameTest, Test};

pub(crate) fn put(rt: &(impl Abort + AllocGlobal), out: &mut String, s: &str) {
    out.push_str(s).expect(rt, "memory");
}

fn put_name(rt: &(impl Abort + AllocGlobal), out: &mut String, name: &NameTest) {
    match name {
        NameTest::Any => put(rt, out, "*"),
        NameTest::Uri(uri) => {
            put(rt, out, "{");
            put(rt, out, uri.as_str());
            put(rt, out, "}*");
        }
        NameTest::Local(local) => {
            put(rt, out, "*:");
            put(rt, out, local.as_str());
        }
        NameTest::Exact(name) => {
            put(rt, out, "{");
            put(rt, out, name.uri.as_str());
            put(rt, out, "}");
            put(rt, out, name.local.as_str());
        }
    }
}

fn put_test(rt: &(impl Abort + AllocGlobal), out: &mut String, test: &Test) {
    match test {
        Test::Named(name) => put_name(rt, out, name),
        Test::Node => put(rt, out, "node()"),
        Test::Text => put(rt, out, "text()"),
        Test::Comment => put(rt, out, "comment()"),
        Test::Pi(None) => put(rt, out, "pi()"),
        Test::Pi(Some(target)) => {
            put(rt, out, "pi(");
            put(rt, out, target.as_str());
            put(rt, out, ")");
        }
        _ => put(rt, out, "other"),
    }
}

// The form of a predicate.
fn form(e: &Expr) -> &'static str {
    match e {
        Expr::Int(_) => "[integer]",
        Expr::And(_) => "[and]",
        Expr::General(_, _, _) => "[comparison]",
        Expr::Slash(_, _) => "[path]",
        Expr::Step(_, _, _) => "[step]",
        Expr::Call(_, _) => "[call]",
        _ => "[other]",
    }
}

fn put_step(rt: &(impl Abort + AllocGlobal), out: &mut String, step: &PatternStep) {
    put(rt, out, if step.deep { "//" } else { "/" });
    match step.axis {
        Axis::Child => {}
        Axis::Attribute => put(rt, out, "@"),
        _ => put(rt, out, "axis "),
    }
    put_test(rt, out, &step.test);
    for e in step.quiet.as_slice() {
        put(rt, out, form(e));
    }
}

fn put_pattern(rt: &(impl Abort + AllocGlobal), out: &mut String, p: &Pattern) {
    if p.rooted {
        put(rt, out, "^");
    }
    for step in p.steps.as_slice() {
        put_step(rt, out, step);
    }
}

fn put_patterns(rt: &(impl Abort + AllocGlobal), out: &mut String, all: &[Pattern]) {
    for (place, p) in all.iter().enumerate() {
        if place > 0 {
            put(rt, out, " | ");
        }
        put_pattern(rt, out, p);
    }
}

fn text(rt: &(impl Abort + AllocGlobal), s: &str) -> Text {
    Text::make(rt.alloc(), s).expect(rt, "memory")
}

fn bind(rt: &(impl Abort + AllocGlobal), bound: &mut List<Binding>, prefix: &str, uri: &str) {
    let binding = Binding {
        prefix: text(rt, prefix),
        uri: text(rt, uri),
    };
    bound.push(binding).expect(rt, "memory");
}

// `p` is bound to `u`, and `xs` to the uri of types.
fn setting(rt: &(impl Abort + AllocGlobal), element_default: &str) -> Setting {
    let mut bound = List::new(rt.alloc());
    bind(rt, &mut bound, "p", "u");
    bind(rt, &mut bound, "xs", "http://www.w3.org/2001/XMLSchema");
    Setting {
        prefixes: Prefixes {
            bound: BoundPrefixes::new(bound).expect(rt, "memory"),
            element_default: text(rt, element_default),
            function_default: text(rt, "http://www.w3.org/2005/xpath-functions"),
        },
        strip: true,
    }
}

pub(crate) fn parsed(
    rt: &(impl Abort + AllocGlobal),
    element_default: &str,
    words: &str,
) -> Result<List<Pattern>, ParseFault> {
    let s = setting(rt, element_default);
    let found = parse_pattern(rt.alloc(), words, &s);
    drop(s);
    found
}

pub(crate) fn cause(fault: &ParseFault) -> &'static str {
    match fault {
        ParseFault::Syntax => "syntax",
        ParseFault::TooDeep => "too deep",
        ParseFault::Static(code) => code.text(),
        ParseFault::Memory(_) => "memory",
    }
}

// What a text is parsed to, or why it is no pattern.
pub(crate) fn shown(rt: &(impl Abort + AllocGlobal), element_default: &str, words: &str) -> String {
    let mut out = String::new(rt.alloc());
    match parsed(rt, element_default, words) {
        Err(fault) => put(rt, &mut out, cause(&fault)),
        Ok(all) => {
            put_patterns(rt, &mut out, all.as_slice());
            drop(all);
        }
    }
    out
}
