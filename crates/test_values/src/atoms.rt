// Atoms: their copies, arithmetic, casts, texts, comparisons and keys.
use crate::made::{list_of, name_in, string, untyped, with};
use std::alloc::AllocGlobal;
use std::process::Abort;
use xt_atoms::{
    Atom, SortClass, ValueFault, arith, boolean_from, boolean_of, cast, castable, copy_atom_list,
    general_compare, holds, integer_from, integer_operand, integers_are_read_back, key_same,
    sort_class, text_order, to_text, trimmed, value_compare,
};
use xt_names::{ArithOp, AtomType, Code, CompareOp, DynamicCode};

const WRONG_TYPE: Code = Code::Dynamic(DynamicCode::XPTY0004);

const NO_VALUE: Code = Code::Dynamic(DynamicCode::FORG0001);

// the name `a` in `urn:p`, with this prefix
fn name(rt: &(impl Abort + AllocGlobal), prefix: &str) -> Atom {
    Atom::of_name(rt.alloc(), name_in(rt, prefix, "urn:p", "a")).expect(rt, "memory")
}

fn is_name(atom: &Atom) -> bool {
    match atom {
        Atom::QName(name) => {
            let name = name.get();
            name.prefix.is("p") && name.uri.is("urn:p") && name.local.is("a")
        }
        _ => false,
    }
}

#[test]
fn atoms_are_copied(rt: HostRuntime) {
    let atoms = with(&rt, list_of(&rt, name(&rt, "p")), Atom::Int(7));
    let copy = copy_atom_list(&atoms).expect(&rt, "memory");
    drop(atoms);
    assert!(rt; matches!(copy.as_slice(), [first, Atom::Int(7)] if is_name(first)));
    drop(copy);
}

// a number, or the eight characters of an error
type Answer = Result<i64, &'static str>;

fn shown(answer: Result<i64, Code>) -> Answer {
    match answer {
        Ok(number) => Ok(number),
        Err(code) => Err(code.text()),
    }
}

const COMPUTED: [(ArithOp, i64, i64, Answer); 10] = [
    (ArithOp::Add, 2, -5, Ok(-3)),
    (ArithOp::Sub, 2, -5, Ok(7)),
    (ArithOp::Mul, 2, -5, Ok(-10)),
    (ArithOp::Add, i64::MAX, 1, Err("FOAR0002")),
    (ArithOp::Idiv, -7, 2, Ok(-3)),
    (ArithOp::Idiv, i64::MIN, -1, Err("FOAR0002")),
    (ArithOp::Idiv, 1, 0, Err("FOAR0001")),
    (ArithOp::Mod, -7, 2, Ok(-1)),
    (ArithOp::Mod, i64::MIN, -1, Ok(0)),
    (ArithOp::Mod, 1, 0, Err("FOAR0001")),
];

#[test]
fn integers_are_computed(rt: HostRuntime) {
    for (op, a, b, wanted) in COMPUTED {
        let answer = shown(arith(op, &Atom::Int(a), &Atom::Int(b)));
        assert_eq!(rt; answer, wanted, "of {a} and {b}");
    }
}

const UNTYPED_SUMS: [(&str, Answer); 2] = [(" 2 ", Ok(5)), ("two", Err("FORG0001"))];

#[test]
fn untyped_operands_are_cast(rt: HostRuntime) {
    for (text, wanted) in UNTYPED_SUMS {
        let operand = untyped(&rt, text);
        let answer = shown(arith(ArithOp::Add, &operand, &Atom::Int(3)));
        drop(operand);
        assert_eq!(rt; answer, wanted, "of {text}");
    }
}

#[test]
fn a_truth_value_is_no_operand(rt: HostRuntime) {
    assert!(rt; integer_operand(&Atom::Bool(true)) == Err(WRONG_TYPE));
}

const INTEGERS: [(&str, Option<i64>); 8] = [
    (" 42 ", Some(42)),
    ("\r\n+007\t", Some(7)),
    ("-9223372036854775808", Some(i64::MIN)),
    ("9223372036854775808", None),
    ("", None),
    ("+-1", None),
    ("1 2", None),
    ("\u{A0}1", None),
];

fn is_cast(answer: &Result<Atom, ValueFault>, wanted: Option<i64>) -> bool {
    match (answer, wanted) {
        (Ok(Atom::Int(number)), Some(wanted)) => *number == wanted,
        (Err(ValueFault::Error(code)), None) => *code == NO_VALUE,
        _ => false,
    }
}

#[test]
fn texts_are_cast_to_integers(rt: HostRuntime) {
    for (text, wanted) in INTEGERS {
        let from = string(&rt, text);
        let answer = cast(rt.alloc(), &from, AtomType::Int);
        drop(from);
        assert!(rt; is_cast(&answer, wanted), "of {text}");
        drop(answer);
    }
}

const TRUTHS: [(&str, Option<bool>); 6] = [
    ("true", Some(true)),
    (" 1\n", Some(true)),
    ("false", Some(false)),
    ("0", Some(false)),
    ("TRUE", None),
    ("", None),
];

#[test]
fn texts_are_cast_to_truth_values(rt: HostRuntime) {
    for (text, truth) in TRUTHS {
        assert_eq!(rt; boolean_of(text), truth, "of {text}");
    }
}

#[test]
fn numbers_and_truth_values_are_cast(rt: HostRuntime) {
    assert!(rt; boolean_from(&Atom::Int(0)) == Ok(false));
    assert!(rt; boolean_from(&Atom::Int(-2)) == Ok(true));
    assert!(rt; integer_from(&Atom::Bool(true)) == Ok(1));
    assert!(rt; castable(&Atom::Int(2), AtomType::Str));
    assert!(rt; !castable(&Atom::Int(2), AtomType::Any));
}

#[test]
fn a_name_is_cast_to_texts_alone(rt: HostRuntime) {
    let name = name(&rt, "p");
    assert!(rt; castable(&name, AtomType::Untyped) && !castable(&name, AtomType::Int));
    drop(name);
}

fn has_text(rt: &(impl Abort + AllocGlobal), atom: Atom, wanted: &str) -> bool {
    let made = to_text(rt.alloc(), &atom).expect(rt, "memory");
    drop(atom);
    let same = made.is(wanted);
    drop(made);
    same
}

#[test]
fn atoms_have_texts(rt: HostRuntime) {
    assert!(rt; has_text(&rt, Atom::Int(i64::MIN), "-9223372036854775808"));
    assert!(rt; has_text(&rt, Atom::Int(0), "0"));
    assert!(rt; has_text(&rt, Atom::Bool(false), "false"));
    assert!(rt; has_text(&rt, name(&rt, "p"), "p:a"));
    assert!(rt; has_text(&rt, name(&rt, ""), "a"));
}

#[test]
fn only_general_comparisons_cast(rt: HostRuntime) {
    let text = untyped(&rt, "01");
    assert!(rt; general_compare(CompareOp::Eq, &text, &Atom::Int(1)) == Ok(true));
    assert!(rt; value_compare(CompareOp::Eq, &text, &Atom::Int(1)) == Err(WRONG_TYPE));
    drop(text);
}

#[test]
fn texts_stand_by_code_points(rt: HostRuntime) {
    assert!(rt; text_order("a", "b").is_lt() && text_order("a", "").is_gt());
    assert!(rt; text_order("\u{FFFD}", "\u{10000}").is_lt());
    assert!(rt; text_order("ab", "ab").is_eq());
    assert!(rt; holds(CompareOp::Ne, text_order("a", "b")));
}

#[test]
fn values_of_a_kind_are_compared(rt: HostRuntime) {
    assert!(rt; value_compare(CompareOp::Lt, &Atom::Bool(false), &Atom::Bool(true)) == Ok(true));
    assert!(rt; value_compare(CompareOp::Ge, &Atom::Int(-1), &Atom::Int(0)) == Ok(false));
    assert!(rt; value_compare(CompareOp::Eq, &Atom::Int(1), &Atom::Bool(true)) == Err(WRONG_TYPE));
}

#[test]
fn names_have_no_order(rt: HostRuntime) {
    let (a, b) = (name(&rt, "p"), name(&rt, "q"));
    assert!(rt; value_compare(CompareOp::Eq, &a, &b) == Ok(true));
    assert!(rt; value_compare(CompareOp::Lt, &a, &b) == Err(WRONG_TYPE));
    assert!(rt; key_same(&a, &b));
    drop((a, b));
}

#[test]
fn keys_of_two_kinds_differ(rt: HostRuntime) {
    let (typed, untyped) = (string(&rt, "1"), untyped(&rt, "1"));
    assert!(rt; key_same(&typed, &untyped) && !key_same(&typed, &Atom::Int(1)));
    drop((typed, untyped));
}

fn has_class(atom: Atom, wanted: Option<SortClass>) -> bool {
    let class = sort_class(&atom);
    drop(atom);
    class == wanted
}

#[test]
fn sort_classes_are_told(rt: HostRuntime) {
    assert!(rt; has_class(name(&rt, ""), None));
    assert!(rt; has_class(untyped(&rt, ""), Some(SortClass::Text)));
    assert!(rt; has_class(Atom::Int(1), Some(SortClass::Int)));
    assert!(rt; has_class(Atom::Bool(true), Some(SortClass::Bool)));
}

#[test]
fn white_space_is_trimmed(rt: HostRuntime) {
    assert_eq!(rt; trimmed(" \ta b\r\n"), "a b");
    integers_are_read_back();
}
