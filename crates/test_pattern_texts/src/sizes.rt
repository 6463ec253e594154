// Texts that are long or nest deep.
use crate::shown::{cause, parsed, shown};
use std::alloc::AllocGlobal;
use std::process::Abort;

// The front so many times, the text, and the end as often.
fn repeated(
    rt: &(impl Abort + AllocGlobal),
    front: &str,
    text: &str,
    times: usize,
    end: &str,
) -> String {
    let mut out = String::new(rt.alloc());
    for _ in 0..times {
        out.push_str(front).expect(rt, "memory");
    }
    out.push_str(text).expect(rt, "memory");
    for _ in 0..times {
        out.push_str(end).expect(rt, "memory");
    }
    out
}

// How many alternatives a text has, and how many steps they have.
fn counts(rt: &(impl Abort + AllocGlobal), words: &str) -> (usize, usize) {
    match parsed(rt, "", words) {
        Err(fault) => panic!(rt; "{}", cause(&fault)),
        Ok(all) => {
            let mut steps: usize = 0;
            for p in all.as_slice() {
                steps = steps.saturating_add(p.steps.len());
            }
            let found = (all.len(), steps);
            drop(all);
            found
        }
    }
}

#[test]
fn many_alternatives_and_steps(rt: HostRuntime) {
    let cases = [
        ("a|", "b", (5001, 5001)),
        ("a/", "b", (1, 5001)),
        ("a//", "b", (1, 5001)),
    ];
    for (front, text, wanted) in cases {
        let words = repeated(&rt, front, text, 5000, "");
        assert_eq!(rt; counts(&rt, words.as_str()), wanted, "{front}");
        drop(words);
    }
    let words = repeated(&rt, "", "a", 5000, "[1]");
    assert_eq!(rt; counts(&rt, words.as_str()), (1, 1));
    drop(words);
}

#[test]
fn predicates_nest_to_the_limit(rt: HostRuntime) {
    let cases = [
        ("a[", "b", 40, "]", "/{}a[step]"),
        ("a[", "b", 41, "]", "too deep"),
        ("(", "a", 1000, ")", "XTSE0340"),
        ("-", "a", 39, "", "XTSE0340"),
        ("-", "a", 40, "", "too deep"),
        ("key(", "a", 41, ")", "XTUN0001"),
    ];
    for (front, text, times, end, wanted) in cases {
        let words = repeated(&rt, front, text, times, end);
        let found = shown(&rt, "", words.as_str());
        drop(words);
        assert_eq!(rt; found.as_str(), wanted, "{front}");
        drop(found);
    }
}

#[test]
fn parentheses_count_no_level(rt: HostRuntime) {
    let inner = repeated(&rt, "(", "b", 1000, ")");
    let words = repeated(&rt, "a[", inner.as_str(), 1, "]");
    drop(inner);
    let found = shown(&rt, "", words.as_str());
    drop(words);
    assert_eq!(rt; found.as_str(), "/{}a[step]");
    drop(found);
}

#[test]
fn levels_outside_of_predicates_do_not_count(rt: HostRuntime) {
    let outside = repeated(&rt, "a//", "b", 100, "");
    let words = repeated(&rt, outside.as_str(), "[c]", 1, " | d");
    drop(outside);
    let found = counts(&rt, words.as_str());
    drop(words);
    assert_eq!(rt; found, (2, 102));
    let predicate = repeated(&rt, "a//", "b", 20, "");
    let deep = repeated(&rt, "a[", predicate.as_str(), 1, "]");
    drop(predicate);
    let found = shown(&rt, "", deep.as_str());
    drop(deep);
    assert_eq!(rt; found.as_str(), "too deep");
    drop(found);
}
