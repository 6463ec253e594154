// Copies of values of instructions, in which a text stands for each expression and pattern.
use crate::instrs::{AvtPart, Grouping, Sort, sort};
use crate::made::{list_of_two, shared, text};
use xt_sheets::copy_avt_part_list;

fn are_chars_and_code(first: &AvtPart, second: &AvtPart) -> bool {
    matches!(first, AvtPart::Chars(chars) if chars.is("a"))
        && matches!(second, AvtPart::Code(code) if code.get().is("e"))
}

#[test]
fn parts_of_a_value_are_copied(rt: HostRuntime) {
    let code = AvtPart::Code(shared(&rt, text(&rt, "e")));
    let parts = list_of_two(&rt, AvtPart::Chars(text(&rt, "a")), code);
    let copy = copy_avt_part_list(&parts).expect(&rt, "memory");
    drop(parts);
    assert!(rt; matches!(copy.as_slice(), [a, e] if are_chars_and_code(a, e)));
    drop(copy);
}

fn is_sort(sort: &Sort, key: &str) -> bool {
    sort.key.get().is(key) && sort.descending && sort.number == Some(false)
}

#[test]
fn a_sort_key_is_copied(rt: HostRuntime) {
    let made = sort(&rt, "k");
    let copy = made.copy().expect(&rt, "memory");
    drop(made);
    assert!(rt; is_sort(&copy, "k"));
    drop(copy);
}

#[test]
fn a_grouping_is_copied(rt: HostRuntime) {
    let made = Grouping::By(shared(&rt, text(&rt, "k")));
    let copy = made.copy().expect(&rt, "memory");
    drop(made);
    assert!(rt; matches!(&copy, Grouping::By(key) if key.get().is("k")));
    drop(copy);
}
