// Values as texts: names as `{uri}local`, the default mode as `#`, and a broken rule as its code.
use bound_prefixes::BoundPrefixes;
use expr_names::ResolveFault;
use sheet_values::{ModeChoice, Modes};
use std::alloc::AllocGlobal;
use std::process::Abort;
use xt_names::{Binding, ExprName, List, Text};
use xt_types::NameTest;

pub(crate) fn text(rt: &(impl Abort + AllocGlobal), s: &str) -> Text {
    Text::make(rt.alloc(), s).expect(rt, "memory")
}

pub(crate) fn string(rt: &(impl Abort + AllocGlobal), s: &str) -> String {
    String::from_str(rt.alloc(), s).expect(rt, "memory")
}

pub(crate) fn push(rt: &(impl Abort + AllocGlobal), shown: &mut String, more: &str) {
    shown.push_str(more).expect(rt, "memory");
}

/// The prefix `p` is bound twice, first to `urn:p`; there is a default namespace; `x` and `f` are
/// bound to reserved namespaces.
pub(crate) fn scope(rt: &(impl Abort + AllocGlobal)) -> BoundPrefixes {
    let bound = [
        ("p", "urn:p"),
        ("p", "urn:outer"),
        ("", "urn:default"),
        ("x", "http://www.w3.org/1999/XSL/Transform"),
        ("f", "http://www.w3.org/2005/xpath-functions"),
        ("u", ""),
    ];
    let mut made = List::new(rt.alloc());
    for (prefix, uri) in bound {
        let prefix = text(rt, prefix);
        let uri = text(rt, uri);
        made.push(Binding { prefix, uri }).expect(rt, "memory");
    }
    BoundPrefixes::new(made).expect(rt, "memory")
}

pub(crate) fn fault(rt: &(impl Abort + AllocGlobal), fault: ResolveFault) -> String {
    match fault {
        ResolveFault::Static(code) => string(rt, code.text()),
        ResolveFault::Memory(_) => panic!(rt; "memory"),
    }
}

fn push_name(rt: &(impl Abort + AllocGlobal), shown: &mut String, name: &ExprName) {
    if name.local.is_empty() {
        push(rt, shown, "#");
        return;
    }
    if !name.uri.is_empty() {
        push(rt, shown, "{");
        push(rt, shown, name.uri.as_str());
        push(rt, shown, "}");
    }
    push(rt, shown, name.local.as_str());
}

pub(crate) fn name(rt: &(impl Abort + AllocGlobal), name: &ExprName) -> String {
    let mut shown = String::new(rt.alloc());
    push_name(rt, &mut shown, name);
    shown
}

pub(crate) fn modes(rt: &(impl Abort + AllocGlobal), modes: &Modes) -> String {
    match modes {
        Modes::All => string(rt, "all"),
        Modes::Names(names) => {
            let mut shown = String::new(rt.alloc());
            for name in names.as_slice() {
                push(rt, &mut shown, "|");
                push_name(rt, &mut shown, name);
            }
            shown
        }
    }
}

pub(crate) fn choice(rt: &(impl Abort + AllocGlobal), choice: &ModeChoice) -> String {
    match choice {
        ModeChoice::Current => string(rt, "current"),
        ModeChoice::Named(named) => name(rt, named),
    }
}

fn push_test(rt: &(impl Abort + AllocGlobal), shown: &mut String, test: &NameTest) {
    match test {
        NameTest::Any => push(rt, shown, "*"),
        NameTest::Uri(uri) => {
            push(rt, shown, "{");
            push(rt, shown, uri.as_str());
            push(rt, shown, "}*");
        }
        NameTest::Local(local) => {
            push(rt, shown, "*:");
            push(rt, shown, local.as_str());
        }
        NameTest::Exact(name) => push_name(rt, shown, name),
    }
}

pub(crate) fn tests(rt: &(impl Abort + AllocGlobal), tests: &[NameTest]) -> String {
    let mut shown = String::new(rt.alloc());
    for test in tests {
        push(rt, &mut shown, "|");
        push_test(rt, &mut shown, test);
    }
    shown
}
