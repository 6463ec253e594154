// What expressions use.
use crate::told::{expr, name, told};
use name_rules::VariableScope;
use sheet_uses::push_expr_uses;
use std::alloc::AllocGlobal;
use std::process::Abort;
use xt_names::List;

fn uses(rt: &(impl Abort + AllocGlobal), words: &str, scope: &VariableScope) -> String {
    let e = expr(rt, words);
    let mut found = List::new(rt.alloc());
    push_expr_uses(&e, scope, &mut found).expect(rt, "memory");
    let out = told(rt, &found);
    drop(found);
    drop(e);
    out
}

// Which case uses something else.
fn wrong_case<'a>(
    rt: &(impl Abort + AllocGlobal),
    cases: &[(&'a str, &'a str)],
    scope: &VariableScope,
) -> &'a str {
    for (words, wanted) in cases {
        let found = uses(rt, words, scope);
        let same = found.as_str() == *wanted;
        drop(found);
        if !same {
            return words;
        }
    }
    "none"
}

#[test]
fn variables(rt: HostRuntime) {
    let scope = VariableScope::new(rt.alloc()).expect(&rt, "memory");
    let cases = [
        ("1", ""),
        ("$a", "$a"),
        ("$a + $b * $a", "$a, $b, $a"),
        ("for $x in $x return $x", "$x"),
        ("for $x in $a, $y in $x return ($x, $y, $z)", "$a, $z"),
        ("(for $x in $a return 1), $x", "$a, $x"),
        ("some $x in $a satisfies $x = $b", "$a, $b"),
        ("every $x in (1, 2), $y in $x satisfies $y", ""),
        ("a[$p]/b[$q]", "$p, $q"),
        ("(1, 2)[$p]", "$p"),
        ("if ($a) then $b else $c", "$a, $b, $c"),
        ("$a instance of item()", "$a"),
        ("-$a treat as node()*", "$a"),
        ("$a is $b or $c << $d and $e | $f", "$a, $b, $c, $d, $e, $f"),
    ];
    let wrong = wrong_case(&rt, &cases, &scope);
    assert_eq!(rt; wrong, "none");
    drop(scope);
}

#[test]
fn variables_bound_around(rt: HostRuntime) {
    let scope = VariableScope::new(rt.alloc()).expect(&rt, "memory");
    let scope = scope.with(name(&rt, "a")).expect(&rt, "memory");
    let cases = [("$a + $b", "$b"), ("for $b in $a return $b", "")];
    let wrong = wrong_case(&rt, &cases, &scope);
    assert_eq!(rt; wrong, "none");
    drop(scope);
}

#[test]
fn calls(rt: HostRuntime) {
    let scope = VariableScope::new(rt.alloc()).expect(&rt, "memory");
    let cases = [
        ("count($a)", "count/1, $a"),
        ("key('k', $v)", "key/2'k', $v"),
        ("concat(key('k', 1), 'x', $y)", "concat/3, key/2'k', $y"),
        ("a[position() = last()]", "position/0, last/0"),
        ("string-join(('a'), '')", "string-join/2'a'"),
        ("contains(., 'a')", "contains/2"),
        ("not(true())", "not/1, true/0"),
    ];
    let wrong = wrong_case(&rt, &cases, &scope);
    assert_eq!(rt; wrong, "none");
    drop(scope);
}
