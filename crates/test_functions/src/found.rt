// Which functions there are, and with how many arguments (Functions and Operators, 2 to 16).
use crate::made::text;
use fn_lib::find;
use std::alloc::AllocGlobal;
use std::process::Abort;
use xt_names::ExprName;

const FUNCTIONS: &str = "http://www.w3.org/2005/xpath-functions";

fn is_found(rt: &(impl Abort + AllocGlobal), uri: &str, local: &str, arity: usize) -> bool {
    let name = ExprName {
        uri: text(rt, uri),
        local: text(rt, local),
    };
    let found = find(&name, arity);
    drop(name);
    found.is_some()
}

// Whether just these numbers of arguments are taken, up to five.
fn takes_from_to(
    rt: &(impl Abort + AllocGlobal),
    local: &str,
    least: usize,
    greatest: usize,
) -> bool {
    for arity in 0..6usize {
        if is_found(rt, FUNCTIONS, local, arity) != (least <= arity && arity <= greatest) {
            return false;
        }
    }
    true
}

// Each name with the least and the greatest number of its arguments.
#[test]
fn each_function_takes_so_many_arguments(rt: HostRuntime) {
    let cases = [
        ("string name local-name namespace-uri root", 0, 1),
        ("string-length normalize-space", 0, 1),
        ("true false position last error", 0, 0),
        (
            "node-name boolean not count empty exists data abs max min",
            1,
            1,
        ),
        ("zero-or-one one-or-more exactly-one distinct-values", 1, 1),
        (
            "reverse unordered codepoints-to-string string-to-codepoints",
            1,
            1,
        ),
        (
            "prefix-from-QName local-name-from-QName namespace-uri-from-QName",
            1,
            1,
        ),
        ("sum", 1, 2),
        (
            "index-of remove deep-equal string-join contains starts-with",
            2,
            2,
        ),
        ("ends-with substring-before substring-after compare", 2, 2),
        ("codepoint-equal QName", 2, 2),
        ("subsequence substring", 2, 3),
        ("insert-before translate", 3, 3),
        ("concat", 2, 5),
    ];
    for (words, least, greatest) in cases {
        for word in words.split(" ") {
            assert!(rt; takes_from_to(&rt, word, least, greatest), "{word}");
        }
    }
    assert!(rt; is_found(&rt, FUNCTIONS, "concat", 1_000_000));
}

// Functions of stylesheets alone, functions that are left out, parts of names, and other namespaces.
#[test]
fn other_functions_are_unknown(rt: HostRuntime) {
    let locals = "current key current-group current-grouping-key doc document avg round floor id
        lang matches replace tokenize string-Join STRING strin strings substring-befor xs:integer";
    for local in locals.split_whitespace() {
        assert!(rt; takes_from_to(&rt, local, 6, 5), "{local}");
    }
    assert!(rt; takes_from_to(&rt, "", 6, 5));
    for uri in [
        "",
        "http://www.w3.org/2005/xpath-function",
        "http://www.w3.org/2001/XMLSchema",
    ] {
        assert!(rt; !is_found(&rt, uri, "count", 1), "{uri}");
    }
}
