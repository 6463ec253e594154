// What is used, as text: `$a` a variable, `a/2` a call with two arguments, `a/2'b'` one whose first
// argument is a literal, `call 3(a b)` a call of a template, and `apply 0` or `apply current`.
use bound_prefixes::BoundPrefixes;
use expr_resolve::Setting;
use sheet_uses::Use;
use std::alloc::AllocGlobal;
use std::process::Abort;
use xpath_lex::tokens;
use xpath_syntax::parse_expr;
use xt_names::{ExprName, List, Text};
use xt_sheets::ModeUse;
use xt_syntax::{Expr, Prefixes};

pub fn text(rt: &(impl Abort + AllocGlobal), of: &str) -> Text {
    Text::make(rt.alloc(), of).expect(rt, "memory")
}

pub fn name(rt: &(impl Abort + AllocGlobal), local: &str) -> ExprName {
    ExprName {
        uri: text(rt, ""),
        local: text(rt, local),
    }
}

fn setting(rt: &(impl Abort + AllocGlobal)) -> Setting {
    Setting {
        prefixes: Prefixes {
            bound: BoundPrefixes::new(List::new(rt.alloc())).expect(rt, "memory"),
            element_default: text(rt, ""),
            function_default: text(rt, "http://www.w3.org/2005/xpath-functions"),
        },
        strip: true,
    }
}

pub fn expr(rt: &(impl Abort + AllocGlobal), words: &str) -> Expr {
    let setting = setting(rt);
    match tokens(rt.alloc(), words) {
        Err(_) => panic!(rt; "no tokens"),
        Ok(found) => {
            let parsed = parse_expr(rt.alloc(), &found, &setting, 400);
            drop(found);
            drop(setting);
            parsed.expect(rt, "an expression")
        }
    }
}

fn put(rt: &(impl Abort + AllocGlobal), out: &mut String, text: &str) {
    out.push_str(text).expect(rt, "memory");
}

// A number of one digit; none of more is in a test.
fn put_digit(rt: &(impl Abort + AllocGlobal), out: &mut String, number: usize) {
    let digits = ["0", "1", "2", "3", "4", "5", "6", "7", "8", "9"];
    put(rt, out, if number < 10 { digits[number] } else { "many" });
}

fn put_literal(rt: &(impl Abort + AllocGlobal), out: &mut String, literal: &Option<Text>) {
    if let Some(text) = literal {
        put(rt, out, "'");
        put(rt, out, text.as_str());
        put(rt, out, "'");
    }
}

fn put_names(rt: &(impl Abort + AllocGlobal), out: &mut String, names: &List<ExprName>) {
    put(rt, out, "(");
    for name in names.as_slice() {
        put(rt, out, " ");
        put(rt, out, name.local.as_str());
    }
    put(rt, out, ")");
}

fn put_mode(rt: &(impl Abort + AllocGlobal), out: &mut String, mode: ModeUse) {
    put(rt, out, "apply ");
    match mode {
        ModeUse::Number(number) => put_digit(rt, out, number as usize),
        ModeUse::Current => put(rt, out, "current"),
    }
}

fn put_use(rt: &(impl Abort + AllocGlobal), out: &mut String, one: &Use) {
    match one {
        Use::Variable(name) => {
            put(rt, out, "$");
            put(rt, out, name.local.as_str());
        }
        Use::Call(name, arity, literal) => {
            put(rt, out, name.local.as_str());
            put(rt, out, "/");
            put_digit(rt, out, *arity);
            put_literal(rt, out, literal);
        }
        Use::Template(number, names) => {
            put(rt, out, "call ");
            put_digit(rt, out, *number as usize);
            put_names(rt, out, names);
        }
        Use::Apply(mode) => put_mode(rt, out, *mode),
    }
}

pub fn told(rt: &(impl Abort + AllocGlobal), uses: &List<Use>) -> String {
    let mut out = String::new(rt.alloc());
    for (place, one) in uses.as_slice().iter().enumerate() {
        if place > 0 {
            put(rt, &mut out, ", ");
        }
        put_use(rt, &mut out, one);
    }
    out
}
