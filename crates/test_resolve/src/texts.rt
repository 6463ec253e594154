// Texts of XPath, from their characters to what they mean, and why they are none.
use crate::shown::parsed;
use std::alloc::AllocGlobal;
use std::process::Abort;

#[test]
fn values_and_causes(rt: HostRuntime) {
    let cases = [
        ("1 = 2 = 3", "syntax"),
        ("- - 1", "minus(minus(1))"),
        ("1a", "no tokens"),
        ("9223372036854775807", "9223372036854775807"),
        ("9223372036854775808", "syntax"),
        (
            "-9223372036854775807 - 1",
            "-(minus(9223372036854775807) 1)",
        ),
        ("", "syntax"),
        ("$a -1", "-($a 1)"),
        ("$a-1", "$a-1"),
        ("1 div 2", "syntax"),
        ("p:a[1]/@b", "path(child::{u}a(1) attribute::b)"),
        ("q:a[1]/@b", "XPST0081"),
        ("namespace::a", "XPST0010"),
        ("'it''s'", "'it's'"),
        (
            "a[position() = last()]",
            "child::{e}a(any-eq({f}position {f}last))",
        ),
        ("let $a := 1 return 2", "syntax"),
        ("<a/>", "syntax"),
        (
            "for $x in (1, 2), $y in $x return $y",
            "flwor for x for y(comma(1 2) $x $y)",
        ),
        (
            "(: a (: b :) :) //a",
            "path(path(root descendant-or-self::node[]) child::{e}a)",
        ),
    ];
    for (text, wanted) in cases {
        let found = parsed(&rt, text, 40);
        assert_eq!(rt; found.as_str(), wanted, "{text}");
        drop(found);
    }
}

fn repeated(
    rt: &(impl Abort + AllocGlobal),
    front: &str,
    text: &str,
    times: usize,
    end: &str,
) -> String {
    let mut out = String::new(rt.alloc());
    for _ in 0..times {
        out.push_str(front).expect(rt, "memory");
    }
    out.push_str(text).expect(rt, "memory");
    for _ in 0..times {
        out.push_str(end).expect(rt, "memory");
    }
    out
}

#[test]
fn how_deep(rt: HostRuntime) {
    let nested = repeated(&rt, "(", "1", 20_000, ")");
    let found = parsed(&rt, nested.as_str(), 1);
    assert_eq!(rt; found.as_str(), "1");
    drop(found);
    drop(nested);
    let sums = repeated(&rt, "", "1", 399, "+1");
    let within = parsed(&rt, sums.as_str(), 400);
    assert!(rt; within.as_str() != "deep");
    drop(within);
    let past = parsed(&rt, sums.as_str(), 399);
    assert_eq!(rt; past.as_str(), "deep");
    drop(past);
    drop(sums);
    let open = repeated(&rt, "(: ", "1", 1_000, "");
    let found = parsed(&rt, open.as_str(), 40);
    assert_eq!(rt; found.as_str(), "no tokens");
    drop(found);
    drop(open);
}
