// Predicates and patterns from short texts.
//
// A predicate is written with its operator last, and its words stand apart by commas: `@k,'m,=` is
// `@k = "m"`. A step is `b`, `@k` or `axis::b`, and `1,[]b` is `b[1]`. The steps of a pattern stand
// apart by spaces, and `b[@k,'m,=][1]` has two predicates.
use crate::made::{text, with};
use std::alloc::AllocGlobal;
use std::process::Abort;
use xt_names::{CompareOp, ExprName, List, Shared};
use xt_syntax::{Expr, Pattern, PatternStep};
use xt_types::{Axis, NameTest, Test};

const FN: &str = "http://www.w3.org/2005/xpath-functions";

fn name_test(rt: &(impl Abort + AllocGlobal), word: &str) -> NameTest {
    match word {
        "*" => NameTest::Any,
        _ => NameTest::Exact(ExprName {
            uri: text(rt, ""),
            local: text(rt, word),
        }),
    }
}

pub(crate) fn test_of(rt: &(impl Abort + AllocGlobal), word: &str) -> Test {
    match word {
        "node()" => Test::Node,
        "text()" => Test::Text,
        "comment()" => Test::Comment,
        "pi()" => Test::Pi(None),
        "pi(go)" => Test::Pi(Some(text(rt, "go"))),
        _ => Test::Named(name_test(rt, word)),
    }
}

fn axis_of(word: &str) -> Axis {
    match word {
        "following-sibling" => Axis::FollowingSibling,
        "preceding-sibling" => Axis::PrecedingSibling,
        "descendant" => Axis::Descendant,
        "ancestor" => Axis::Ancestor,
        "parent" => Axis::Parent,
        _ => Axis::Itself,
    }
}

// The axis of a step, and its test.
fn parts_of(word: &str) -> (Axis, &str) {
    match word.strip_prefix("@") {
        Some(name) => (Axis::Attribute, name),
        None => match word.split_once("::") {
            Some((axis, name)) => (axis_of(axis), name),
            None => (Axis::Child, word),
        },
    }
}

fn shared<T: Drop>(rt: &(impl Abort + AllocGlobal), value: T) -> Shared<T> {
    Shared::make(rt.alloc(), value).expect(rt, "memory")
}

fn push(rt: &(impl Abort + AllocGlobal), stack: &mut Vec<Expr>, e: Expr) {
    stack.push(e).expect(rt, "memory");
}

fn pop(rt: &(impl Abort + AllocGlobal), stack: &mut Vec<Expr>) -> Expr {
    stack.pop().expect(rt, "an operand")
}

fn compare(rt: &(impl Abort + AllocGlobal), stack: &mut Vec<Expr>, op: CompareOp) {
    let b = shared(rt, pop(rt, stack));
    let a = shared(rt, pop(rt, stack));
    push(rt, stack, Expr::General(op, a, b));
}

fn slash(rt: &(impl Abort + AllocGlobal), stack: &mut Vec<Expr>) {
    let b = shared(rt, pop(rt, stack));
    let a = shared(rt, pop(rt, stack));
    push(rt, stack, Expr::Slash(a, b));
}

fn two(rt: &(impl Abort + AllocGlobal), stack: &mut Vec<Expr>) -> Shared<List<Expr>> {
    let b = pop(rt, stack);
    let a = pop(rt, stack);
    let first = with(rt, List::new(rt.alloc()), a);
    shared(rt, with(rt, first, b))
}

fn call(rt: &(impl Abort + AllocGlobal), stack: &mut Vec<Expr>, local: &str, args: List<Expr>) {
    let name = ExprName {
        uri: text(rt, FN),
        local: text(rt, local),
    };
    push(rt, stack, Expr::Call(name, shared(rt, args)));
}

fn call_with(rt: &(impl Abort + AllocGlobal), stack: &mut Vec<Expr>, local: &str) {
    let args = with(rt, List::new(rt.alloc()), pop(rt, stack));
    call(rt, stack, local, args);
}

fn step(rt: &(impl Abort + AllocGlobal), stack: &mut Vec<Expr>, word: &str, tests: List<Expr>) {
    let (axis, test) = parts_of(word);
    push(
        rt,
        stack,
        Expr::Step(axis, test_of(rt, test), shared(rt, tests)),
    );
}

fn operator(word: &str) -> Option<CompareOp> {
    match word {
        "=" => Some(CompareOp::Eq),
        "!=" => Some(CompareOp::Ne),
        "<" => Some(CompareOp::Lt),
        "<=" => Some(CompareOp::Le),
        ">" => Some(CompareOp::Gt),
        ">=" => Some(CompareOp::Ge),
        _ => None,
    }
}

fn integer(word: &str) -> Option<i64> {
    match word {
        "0" => Some(0),
        "1" => Some(1),
        "2" => Some(2),
        "3" => Some(3),
        "9" => Some(9),
        _ => None,
    }
}

// A call, a literal or a step.
fn read_word(rt: &(impl Abort + AllocGlobal), stack: &mut Vec<Expr>, word: &str) {
    match word {
        "position" | "last" | "name" | "local-name" | "true" | "false" => {
            call(rt, stack, word, List::new(rt.alloc()));
        }
        "not" | "exists" | "empty" | "count" => call_with(rt, stack, word),
        _ => read_step(rt, stack, word),
    }
}

fn read_step(rt: &(impl Abort + AllocGlobal), stack: &mut Vec<Expr>, word: &str) {
    if let Some(literal) = word.strip_prefix("'") {
        push(rt, stack, Expr::Str(text(rt, literal)));
    } else if let Some(name) = word.strip_prefix("[]") {
        let tests = with(rt, List::new(rt.alloc()), pop(rt, stack));
        step(rt, stack, name, tests);
    } else {
        step(rt, stack, word, List::new(rt.alloc()));
    }
}

fn read_next(rt: &(impl Abort + AllocGlobal), stack: &mut Vec<Expr>, word: &str) {
    match word {
        "/" => slash(rt, stack),
        "and" => {
            let all = two(rt, stack);
            push(rt, stack, Expr::And(all));
        }
        "or" => {
            let all = two(rt, stack);
            push(rt, stack, Expr::Or(all));
        }
        _ => read_value(rt, stack, word),
    }
}

fn read_value(rt: &(impl Abort + AllocGlobal), stack: &mut Vec<Expr>, word: &str) {
    if let Some(op) = operator(word) {
        compare(rt, stack, op);
    } else if let Some(k) = integer(word) {
        push(rt, stack, Expr::Int(k));
    } else {
        read_word(rt, stack, word);
    }
}

pub(crate) fn expr_of(rt: &(impl Abort + AllocGlobal), words: &str) -> Expr {
    let mut stack = Vec::new(rt.alloc());
    for word in words.split(",") {
        read_next(rt, &mut stack, word);
    }
    pop(rt, &mut stack)
}

pub(crate) fn predicates_of(rt: &(impl Abort + AllocGlobal), words: &str) -> List<Expr> {
    let mut tests = List::new(rt.alloc());
    for part in words.split("[") {
        if let Some(predicate) = part.strip_suffix("]") {
            tests = with(rt, tests, expr_of(rt, predicate));
        }
    }
    tests
}

fn step_of(rt: &(impl Abort + AllocGlobal), word: &str, deep: bool) -> PatternStep {
    let test = match word.split_once("[") {
        Some((test, _)) => test,
        None => word,
    };
    let (axis, test) = parts_of(test);
    PatternStep {
        axis,
        test: test_of(rt, test),
        quiet: predicates_of(rt, word),
        deep,
    }
}

pub(crate) fn pattern_of(rt: &(impl Abort + AllocGlobal), words: &str) -> Pattern {
    let mut rooted = false;
    let mut deep = false;
    let mut steps = List::new(rt.alloc());
    for word in words.split_whitespace() {
        if word == "/" || word == "//" {
            rooted = rooted || steps.is_empty();
            deep = word == "//";
        } else {
            steps = with(rt, steps, step_of(rt, word, deep));
            deep = false;
        }
    }
    Pattern { rooted, steps }
}
