// Default priorities of patterns, by the table of XSLT 2.0, 6.4.
use crate::made::{list_of, text, with};
use pattern_syntax::pattern_priorities::default_priority;
use std::alloc::AllocGlobal;
use std::process::Abort;
use xt_names::{ExprName, List};
use xt_syntax::{Expr, Pattern, PatternStep};
use xt_types::{Axis, NameTest, Test};

fn name_test_of(rt: &(impl Abort + AllocGlobal), word: &str) -> NameTest {
    match word {
        "*" => NameTest::Any,
        "p:*" => NameTest::Uri(text(rt, "p")),
        "*:a" => NameTest::Local(text(rt, "a")),
        _ => NameTest::Exact(ExprName {
            uri: text(rt, ""),
            local: text(rt, word),
        }),
    }
}

fn test_of(rt: &(impl Abort + AllocGlobal), word: &str) -> Test {
    match word {
        "node()" => Test::Node,
        "text()" => Test::Text,
        "comment()" => Test::Comment,
        "document-node()" => Test::Doc,
        "element()" => Test::Elem(NameTest::Any),
        "processing-instruction()" => Test::Pi(None),
        "processing-instruction(x)" => Test::Pi(Some(text(rt, "x"))),
        _ => Test::Named(name_test_of(rt, word)),
    }
}

// A step on the child axis, with the predicate `[1]` where one is written.
fn step_of(rt: &(impl Abort + AllocGlobal), word: &str) -> PatternStep {
    match word.split_once("[") {
        None => PatternStep {
            axis: Axis::Child,
            test: test_of(rt, word),
            quiet: List::new(rt.alloc()),
            deep: false,
        },
        Some((test, _)) => PatternStep {
            axis: Axis::Child,
            test: test_of(rt, test),
            quiet: list_of(rt, Expr::Int(1)),
            deep: false,
        },
    }
}

// The pattern of a text whose steps and `/` stand apart by a space.
fn pattern_of(rt: &(impl Abort + AllocGlobal), words: &str) -> Pattern {
    let mut rooted = false;
    let mut steps = List::new(rt.alloc());
    for word in words.split_whitespace() {
        if word != "/" {
            steps = with(rt, steps, step_of(rt, word));
        } else if steps.is_empty() {
            rooted = true;
        }
    }
    Pattern { rooted, steps }
}

#[test]
fn priorities(rt: HostRuntime) {
    let cases = [
        ("*", -500),
        ("p:*", -250),
        ("*:a", -250),
        ("a", 0),
        ("processing-instruction(x)", 0),
        ("processing-instruction()", -500),
        ("node()", -500),
        ("text()", -500),
        ("comment()", -500),
        ("document-node()", -500),
        ("element()", -500),
        ("/", -500),
        ("a[1]", 500),
        ("*[1]", 500),
        ("node()[1]", 500),
        ("a / b", 500),
        ("* / *", 500),
        ("/ a", 500),
        ("/ *", 500),
        ("/ a / b", 500),
    ];
    for (words, wanted) in cases {
        let pattern = pattern_of(&rt, words);
        let found = default_priority(&pattern);
        drop(pattern);
        assert_eq!(rt; found, wanted, "{words}");
    }
}
