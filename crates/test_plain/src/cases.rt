// Expressions with what they can read.
use crate::told::{bind, expr, focus_on, number, some_documents, some_root, some_vars, told};
use lazy_seq::Seq;
use plain_eval::{Focus, Vars, eval_plain};
use std::alloc::AllocGlobal;
use std::process::Abort;
use xdm_items::Item;
use xt_atoms::Atom;

// Which case gives something else.
fn wrong_case<'a>(
    rt: &(impl Abort + AllocGlobal),
    cases: &[(&'a str, &'a str)],
    vars: &Vars,
    focus: Option<&Focus>,
) -> &'a str {
    for (words, wanted) in cases {
        let found = told(rt, words, vars, focus);
        let same = found.as_str() == *wanted;
        drop(found);
        if !same {
            return words;
        }
    }
    "none"
}

#[test]
fn variables(rt: HostRuntime) {
    let vars = some_vars(&rt);
    let cases = [
        ("$n + 1", "42"),
        ("$s", "a b"),
        ("count($s)", "2"),
        ("$s[2]", "b"),
        ("for $n in (1, 2) return $n", "1 2"),
        ("for $x in $s return concat($x, $n)", "a41 b41"),
        ("some $x in $s satisfies $x = 'b'", "true"),
        ("$m", "XPDY0002"),
        ("(1, $m)[1]", "XPDY0002"),
        ("if ($n = 41) then 1 else $m", "1"),
    ];
    let wrong = wrong_case(&rt, &cases, &vars, None);
    assert_eq!(rt; wrong, "none");
    drop(vars);
}

// The variable that was bound last hides the other of its name, in the copy alone.
#[test]
fn variables_of_a_copy(rt: HostRuntime) {
    let vars = some_vars(&rt);
    let mut more = vars.copy().expect(&rt, "memory");
    bind(&rt, &mut more, "n", number(&rt, 1));
    let outer = wrong_case(&rt, &[("$n, $s", "41 a b")], &vars, None);
    let inner = wrong_case(&rt, &[("$n, $s", "1 a b")], &more, None);
    drop(vars);
    drop(more);
    assert_eq!(rt; (outer, inner), ("none", "none"));
}

#[test]
fn focus_on_a_node(rt: HostRuntime) {
    let vars = Vars::new(rt.alloc());
    let focus = focus_on(&rt, some_root(&rt));
    let cases = [
        ("position()", "2"),
        ("last()", "3"),
        ("position() + last()", "5"),
        (".", "<a><b k=\"1\"/><b k=\"2\"/></a>"),
        ("count(a)", "1"),
        ("count(b)", "0"),
        ("a/b[2]/string(@k)", "2"),
        ("a/b[last()]/string(@k)", "2"),
        ("a/b[position() = 1]/string(@k)", "1"),
        ("(//b)[2]/string(@k)", "2"),
        ("//b/string(@k)", "1 2"),
        ("empty(//c)", "true"),
        ("/a/b[1]/..//b/position()", "1 2"),
        ("(5, 6)[position() = last()]", "6"),
    ];
    let wrong = wrong_case(&rt, &cases, &vars, Some(&focus));
    assert_eq!(rt; wrong, "none");
    drop(focus);
    drop(vars);
}

#[test]
fn focus_on_an_atom(rt: HostRuntime) {
    let vars = Vars::new(rt.alloc());
    let focus = focus_on(&rt, Item::Atom(Atom::Int(7)));
    let cases = [
        (". + 1", "8"),
        ("position(), last()", "2 3"),
        ("b", "XPTY0020"),
        ("@k", "XPTY0020"),
        ("/", "XPTY0020"),
        ("//b", "XPTY0020"),
        ("./b", "XPTY0019"),
    ];
    let wrong = wrong_case(&rt, &cases, &vars, Some(&focus));
    assert_eq!(rt; wrong, "none");
    drop(focus);
    drop(vars);
}

#[test]
fn no_focus(rt: HostRuntime) {
    let vars = Vars::new(rt.alloc());
    let cases = [
        (".", "XPDY0002"),
        ("position()", "XPDY0002"),
        ("last()", "XPDY0002"),
        ("b", "XPDY0002"),
        ("b[@k]", "XPDY0002"),
        ("/", "XPDY0002"),
        ("//b", "XPDY0002"),
        ("exists(//b)", "XPDY0002"),
        ("string()", "XPDY0002"),
        ("(1, 2)[. = 2]", "2"),
    ];
    let wrong = wrong_case(&rt, &cases, &vars, None);
    assert_eq!(rt; wrong, "none");
    drop(vars);
}

#[test]
fn documents(rt: HostRuntime) {
    let set = some_documents(&rt);
    let vars = Vars::with_set(rt.alloc(), &set).expect(&rt, "memory");
    drop(set);
    let copy = vars.copy().expect(&rt, "memory");
    drop(vars);
    let cases = [
        ("doc('e.xml')/e/@k + 1", "42"),
        ("doc('e.xml') is doc('e.xml')", "true"),
        ("doc(())", ""),
        ("doc('x.xml')", "FODC0002"),
        ("doc(1)", "XPTY0004"),
    ];
    let some = wrong_case(&rt, &cases, &copy, None);
    drop(copy);
    let none = Vars::new(rt.alloc());
    let refused = wrong_case(&rt, &[("doc('e.xml')", "FODC0002")], &none, None);
    drop(none);
    assert_eq!(rt; (some, refused), ("none", "none"));
}

#[test]
fn errors(rt: HostRuntime) {
    let vars = some_vars(&rt);
    let cases = [
        ("1 idiv 0", "FOAR0001"),
        ("9223372036854775807 + 1", "FOAR0002"),
        ("count(0 to 9223372036854775807)", "FOAR0002"),
        ("'a' + 1", "XPTY0004"),
        ("$s + 1", "XPTY0004"),
        ("$s treat as node()", "XPDY0050"),
        ("($s, $s)[error()]", "FOER0000"),
        ("()[error()]", ""),
        ("1/a", "XPTY0019"),
        ("nothing()", "XPST0017"),
        ("true(1)", "XPST0017"),
    ];
    let wrong = wrong_case(&rt, &cases, &vars, None);
    assert_eq!(rt; wrong, "none");
    drop(vars);
}

fn value(rt: &(impl Abort + AllocGlobal), words: &str) -> Seq {
    let vars = Vars::new(rt.alloc());
    let e = expr(rt, words);
    let answer = eval_plain(rt.alloc(), &e, &vars, None);
    drop(e);
    drop(vars);
    answer.expect(rt, "a value")
}

fn is_number(item: Option<Item>, n: i64) -> bool {
    match item {
        Some(Item::Atom(Atom::Int(found))) => found == n,
        _ => false,
    }
}

// A list that no memory holds.
#[test]
fn values_on_demand(rt: HostRuntime) {
    let mut items = value(&rt, "1 to 9223372036854775807");
    let count = items.len().expect(&rt, "memory");
    let far = items.at(9_000_000_000_000_000_000).expect(&rt, "memory");
    drop(items);
    assert_eq!(rt; count, Some(9_223_372_036_854_775_807));
    assert!(rt; is_number(far, 9_000_000_000_000_000_000));
}
