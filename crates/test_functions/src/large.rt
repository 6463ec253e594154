// Large inputs.
use crate::made::{element, list_of, name, number, one, one_item, text, two, with, word};
use fn_lib::{Builtin, call};
use std::alloc::AllocGlobal;
use std::process::Abort;
use xdm_items::{Item, ItemList};
use xt_atoms::{Atom, to_text};
use xt_names::{List, Text, TextBuilder};
use xt_tree::{Node, Tree};

// so many strings to join, and so many values
const STRINGS: usize = 1_000_000;

const MANY: i64 = 300_000;

// the answer, and the arguments dropped
fn answer(rt: &(impl Abort + AllocGlobal), f: Builtin, args: List<ItemList>) -> ItemList {
    let outcome = call(rt.alloc(), f, args.as_slice());
    drop(args);
    outcome.expect(rt, "a value")
}

// how many bytes the one text has
fn bytes_of(items: &ItemList) -> usize {
    match items.as_slice() {
        [Item::Atom(Atom::Str(value))] => value.as_str().len(),
        _ => 0,
    }
}

fn is_true(items: &ItemList) -> bool {
    matches!(items.as_slice(), [Item::Atom(Atom::Bool(true))])
}

// the text so many times
fn repeated(rt: &(impl Abort + AllocGlobal), s: &str, times: usize) -> Text {
    let mut made = TextBuilder::new(rt.alloc());
    for _ in 0..times {
        made.push_str(s).expect(rt, "memory");
    }
    made.finish().expect(rt, "memory")
}

fn text_list(rt: &(impl Abort + AllocGlobal), whole: Text) -> ItemList {
    one_item(rt, Item::Atom(Atom::Str(whole)))
}

fn word_list(rt: &(impl Abort + AllocGlobal), s: &str) -> ItemList {
    one_item(rt, word(rt, s))
}

// so many times the same text
fn equal_words(rt: &(impl Abort + AllocGlobal), s: &str, times: usize) -> ItemList {
    let own = text(rt, s);
    let mut items = ItemList::new(rt.alloc());
    for _ in 0..times {
        let copy = own.copy().expect(rt, "memory");
        items.push(Item::Atom(Atom::Str(copy))).expect(rt, "memory");
    }
    drop(own);
    items
}

#[test]
fn many_strings_are_joined(rt: HostRuntime) {
    let args = two(&rt, equal_words(&rt, "abc", STRINGS), word_list(&rt, "--"));
    let items = answer(&rt, Builtin::StringJoin, args);
    assert_eq!(rt; bytes_of(&items), 5 * STRINGS - 2);
    drop(items);
}

// a thousand characters of three bytes each
fn alphabet(rt: &(impl Abort + AllocGlobal)) -> Text {
    let mut made = TextBuilder::new(rt.alloc());
    for c in '\u{4E00}'..='\u{51E7}' {
        made.push(c).expect(rt, "memory");
    }
    made.finish().expect(rt, "memory")
}

// The thousandth character has no partner, and `a` is not among them.
#[test]
fn ten_megabytes_are_translated_by_a_thousand_characters(rt: HostRuntime) {
    let whole = repeated(&rt, "\u{4E00}\u{51E7}a\u{51E6}", 1_000_000);
    let some = two(&rt, text_list(&rt, whole), text_list(&rt, alphabet(&rt)));
    let args = with(&rt, some, text_list(&rt, repeated(&rt, "x", 999)));
    let items = answer(&rt, Builtin::Translate, args);
    assert_eq!(rt; bytes_of(&items), 3_000_000);
    drop(items);
}

// the digits of the numbers below
fn digits(rt: &(impl Abort + AllocGlobal), below: i64) -> ItemList {
    let mut items = ItemList::new(rt.alloc());
    for n in 0..below {
        let digits = to_text(rt.alloc(), &Atom::Int(n)).expect(rt, "memory");
        items
            .push(Item::Atom(Atom::Str(digits)))
            .expect(rt, "memory");
    }
    items
}

#[test]
fn many_values_are_distinct(rt: HostRuntime) {
    let items = answer(&rt, Builtin::DistinctValues, one(&rt, digits(&rt, MANY)));
    assert_eq!(rt; items.len(), 300_000);
    drop(items);
}

#[test]
fn a_value_is_found_among_many(rt: HostRuntime) {
    let args = two(&rt, digits(&rt, MANY), word_list(&rt, "299999"));
    let items = answer(&rt, Builtin::IndexOf, args);
    assert!(rt; matches!(items.as_slice(), [Item::Atom(Atom::Int(300_000))]));
    drop(items);
}

fn long_text(rt: &(impl Abort + AllocGlobal)) -> ItemList {
    text_list(rt, repeated(rt, "abcdefghi ", 300_000))
}

#[test]
fn a_long_text_is_searched_and_cut(rt: HostRuntime) {
    let args = two(&rt, long_text(&rt), word_list(&rt, "hi abd"));
    let found = answer(&rt, Builtin::Contains, args);
    assert!(rt; !is_true(&found));
    drop(found);
    let start = one_item(&rt, number(1_000_001));
    let rest = answer(&rt, Builtin::Substring, two(&rt, long_text(&rt), start));
    assert_eq!(rt; bytes_of(&rest), 2_000_000);
    drop(rest);
    let normal = answer(&rt, Builtin::NormalizeSpace, one(&rt, long_text(&rt)));
    assert_eq!(rt; bytes_of(&normal), 2_999_999);
    drop(normal);
}

// so many times eight characters are 64 MiB, the greatest text that is read
const EIGHTS: usize = 8_388_608;

fn copied(rt: &(impl Abort + AllocGlobal), whole: &Text) -> ItemList {
    text_list(rt, whole.copy().expect(rt, "memory"))
}

// how long the answer to the text and the other text is, as a text or a number
fn told_of(rt: &(impl Abort + AllocGlobal), f: Builtin, whole: &Text, other: ItemList) -> i64 {
    let items = answer(rt, f, two(rt, copied(rt, whole), other));
    let told = match items.as_slice() {
        [Item::Atom(Atom::Int(number))] => *number,
        [Item::Atom(Atom::Bool(truth))] => *truth as i64,
        _ => i64::try_from(bytes_of(&items)).unwrap_or(-1),
    };
    drop(items);
    told
}

#[test]
fn the_greatest_text_passes_through_functions_of_two(rt: HostRuntime) {
    let whole = repeated(&rt, "abcdefg ", EIGHTS);
    let cases = [
        (Builtin::Contains, "gg", 0),
        (Builtin::StartsWith, "abcdefg a", 1),
        (Builtin::EndsWith, " abcdefg ", 1),
        (Builtin::SubstringBefore, "gg", 0),
        (Builtin::SubstringBefore, "g", 6),
        (Builtin::SubstringAfter, "g", 67_108_857),
        (Builtin::Compare, "abcdefg b", -1),
        (Builtin::CodepointEqual, "abcdefg ", 0),
        (Builtin::Concat, "abc", 67_108_867),
        (Builtin::StringJoin, "abc", 67_108_864),
    ];
    for (f, other, wanted) in cases {
        let told = told_of(&rt, f, &whole, word_list(&rt, other));
        assert_eq!(rt; told, wanted, "{other}");
    }
    let rest = told_of(
        &rt,
        Builtin::Substring,
        &whole,
        one_item(&rt, number(67_108_860)),
    );
    assert_eq!(rt; rest, 5);
    drop(whole);
}

#[test]
fn the_greatest_text_is_counted_and_changed(rt: HostRuntime) {
    let whole = repeated(&rt, "abcdefg ", EIGHTS);
    let count = answer(&rt, Builtin::StringLength, one(&rt, copied(&rt, &whole)));
    assert!(rt; matches!(count.as_slice(), [Item::Atom(Atom::Int(67_108_864))]));
    drop(count);
    let normal = answer(&rt, Builtin::NormalizeSpace, one(&rt, copied(&rt, &whole)));
    assert_eq!(rt; bytes_of(&normal), 67_108_863);
    drop(normal);
    let some = two(&rt, copied(&rt, &whole), word_list(&rt, "ga"));
    let args = with(&rt, some, word_list(&rt, "x"));
    let translated = answer(&rt, Builtin::Translate, args);
    assert_eq!(rt; bytes_of(&translated), 7 * EIGHTS);
    drop(translated);
    drop(whole);
}

// Four characters of one to four bytes, again and again.
#[test]
fn a_million_characters_are_told_as_numbers_and_made_of_them(rt: HostRuntime) {
    let whole = repeated(&rt, "a\u{E9}\u{4E00}\u{1F600}", 250_000);
    let numbers = answer(
        &rt,
        Builtin::StringToCodepoints,
        one(&rt, text_list(&rt, whole)),
    );
    assert_eq!(rt; numbers.len(), STRINGS);
    let made = answer(&rt, Builtin::CodepointsToString, one(&rt, numbers));
    assert_eq!(rt; bytes_of(&made), 2_500_000);
    drop(made);
}

// What is looked for begins at every place of the text, and occurs at none.
#[test]
fn a_part_that_nearly_occurs_everywhere(rt: HostRuntime) {
    let whole = text_list(&rt, repeated(&rt, "a", 2_000_000));
    let front = repeated(&rt, "a", 1_000_000);
    let mut part = TextBuilder::new(rt.alloc());
    part.push_text(&front).expect(&rt, "memory");
    part.push_str("b").expect(&rt, "memory");
    let wanted = text_list(&rt, part.finish().expect(&rt, "memory"));
    drop(front);
    let found = answer(&rt, Builtin::Contains, two(&rt, whole, wanted));
    assert!(rt; !is_true(&found));
    drop(found);
}

// elements inside of one another, so many, with a text in the innermost
fn nested(rt: &(impl Abort + AllocGlobal), depth: usize) -> Tree {
    let mut tree = Tree::Text(text(rt, "t"));
    for _ in 0..depth {
        let kids = list_of(rt, tree);
        tree = element(rt, name(rt, "", "", "a"), List::new(rt.alloc()), kids);
    }
    tree
}

fn nested_list(rt: &(impl Abort + AllocGlobal), number: u64) -> ItemList {
    let root = Node::root_of(rt.alloc(), number, nested(rt, 2_000)).expect(rt, "memory");
    one_item(rt, Item::Node(root))
}

#[test]
fn trees_of_two_thousand_levels_are_deep_equal(rt: HostRuntime) {
    let args = two(&rt, nested_list(&rt, 1), nested_list(&rt, 2));
    let items = answer(&rt, Builtin::DeepEqual, args);
    assert!(rt; is_true(&items));
    drop(items);
}
