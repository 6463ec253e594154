// Rows in order.
use crate::made::{MANY, name, text, word};
use order_group::{KeyRow, SortFault, sort_by_keys};
use std::alloc::AllocGlobal;
use std::process::Abort;
use xt_atoms::Atom;
use xt_names::List;

fn row(rt: &(impl Abort + AllocGlobal), first: Option<Atom>, second: Option<Atom>) -> KeyRow {
    let mut cells = List::new(rt.alloc());
    cells.push(first).expect(rt, "memory");
    cells.push(second).expect(rt, "memory");
    KeyRow { cells }
}

fn add_row(
    rt: &(impl Abort + AllocGlobal),
    rows: &mut List<KeyRow>,
    first: Option<Atom>,
    second: Option<Atom>,
) {
    rows.push(row(rt, first, second)).expect(rt, "memory");
}

// the places in order, or the empty list where a column is mixed
fn sorted(rt: &(impl Abort + AllocGlobal), rows: &List<KeyRow>, descending: &[bool]) -> List<u64> {
    match sort_by_keys(rt.alloc(), rows, descending) {
        Ok(places) => places,
        Err(fault) => {
            drop(fault);
            List::new(rt.alloc())
        }
    }
}

// last and first names, of which one has no first name
fn names(rt: &(impl Abort + AllocGlobal)) -> List<KeyRow> {
    let mut rows = List::new(rt.alloc());
    add_row(
        rt,
        &mut rows,
        Some(word(rt, "Jones")),
        Some(word(rt, "Joan")),
    );
    add_row(rt, &mut rows, Some(word(rt, "Jones")), None);
    add_row(
        rt,
        &mut rows,
        Some(word(rt, "Adams")),
        Some(word(rt, "Zoe")),
    );
    add_row(
        rt,
        &mut rows,
        Some(word(rt, "Jones")),
        Some(word(rt, "Joan")),
    );
    rows
}

#[test]
fn names_are_sorted(rt: HostRuntime) {
    let rows = names(&rt);
    let up = sorted(&rt, &rows, &[false, false]);
    assert!(rt; up.as_slice() == [2, 1, 0, 3].as_slice());
    let down = sorted(&rt, &rows, &[true, true]);
    assert!(rt; down.as_slice() == [0, 3, 1, 2].as_slice());
    drop(up);
    drop(down);
    drop(rows);
}

fn mixed_column(rt: &(impl Abort + AllocGlobal)) -> u64 {
    let mut rows = List::new(rt.alloc());
    add_row(rt, &mut rows, Some(Atom::Int(1)), Some(Atom::Int(1)));
    add_row(rt, &mut rows, Some(Atom::Int(1)), Some(Atom::Bool(true)));
    let column = match sort_by_keys(rt.alloc(), &rows, &[false, false]) {
        Err(SortFault::Mixed(column)) => column,
        Err(SortFault::Memory(_)) => u64::MAX,
        Ok(places) => {
            drop(places);
            u64::MAX
        }
    };
    drop(rows);
    column
}

#[test]
fn a_column_of_two_kinds_is_mixed(rt: HostRuntime) {
    assert!(rt; mixed_column(&rt) == 1);
}

// `-` for no atom, else the kind and the value
fn cell_of(rt: &(impl Abort + AllocGlobal), word: &str) -> Option<Atom> {
    let (kind, value) = word.split_once(":").unwrap_or((word, ""));
    match kind {
        "-" => None,
        "i" => Some(Atom::Int(value.parse::<i64>().unwrap_or(0))),
        "s" => Some(Atom::Str(text(rt, value))),
        "u" => Some(Atom::Untyped(text(rt, value))),
        "b" => Some(Atom::Bool(value == "true")),
        _ => Some(Atom::of_name(rt.alloc(), name(rt, value)).expect(rt, "memory")),
    }
}

// Rows apart by blanks, their cells by a comma.
fn rows_of(rt: &(impl Abort + AllocGlobal), words: &str) -> List<KeyRow> {
    let mut rows = List::new(rt.alloc());
    for word in words.split_whitespace() {
        let (first, second) = word.split_once(",").unwrap_or((word, "-"));
        add_row(rt, &mut rows, cell_of(rt, first), cell_of(rt, second));
    }
    rows
}

// Whether the rows have these places in order; none where a column is mixed.
fn are_sorted_to(
    rt: &(impl Abort + AllocGlobal),
    words: &str,
    descending: &[bool],
    places: &[u64],
) -> bool {
    let rows = rows_of(rt, words);
    let found = sorted(rt, &rows, descending);
    drop(rows);
    let are = found.as_slice() == places;
    drop(found);
    are
}

// Untyped values count as strings, strings stand by code points, false before true, and no atom
// before all; a name has no order, and what has an order with no other kind neither.
#[test]
fn columns_of_each_kind(rt: HostRuntime) {
    assert!(rt; are_sorted_to(&rt, "i:10 i:9 i:-1", &[false, false], &[2, 1, 0]));
    assert!(rt; are_sorted_to(&rt, "s:10 u:9 s:1", &[false, false], &[2, 0, 1]));
    assert!(rt;
        are_sorted_to(
            &rt,
            "s:a s:B s:\u{10000} s:\u{FFFD}",
            &[false, false],
            &[1, 0, 3, 2]
        )
    );
    assert!(rt; are_sorted_to(&rt, "b:true b:false -", &[false, false], &[2, 1, 0]));
    assert!(rt; are_sorted_to(&rt, "b:true b:false -", &[true, false], &[0, 1, 2]));
    assert!(rt; are_sorted_to(&rt, "- - -", &[true, true], &[0, 1, 2]));
    assert!(rt; are_sorted_to(&rt, "", &[false, false], &[]));
    assert!(rt; are_sorted_to(&rt, "i:1,s:b i:0,s:a i:1,s:a", &[true, false], &[2, 0, 1]));
    assert!(rt; are_sorted_to(&rt, "i:1,s:b i:0,s:a i:1,s:a", &[false, true], &[1, 0, 2]));
    for mixed in ["i:1 s:1", "u:1 b:true", "q:a q:a", "q:a", "-,i:1 -,u:1"] {
        assert!(rt; are_sorted_to(&rt, mixed, &[false, false], &[]), "{mixed}");
    }
}

// the rest by 2, and the number itself
fn many_rows(rt: &(impl Abort + AllocGlobal)) -> List<KeyRow> {
    let mut rows = List::new(rt.alloc());
    for n in 0..MANY {
        let number = n as i64;
        add_row(
            rt,
            &mut rows,
            Some(Atom::Int(number % 2)),
            Some(Atom::Int(number)),
        );
    }
    rows
}

// first the odd numbers from the greatest on, and then the even ones
fn are_in_order(places: &[u64]) -> bool {
    let mut next: u64 = MANY - 1;
    for place in places {
        if *place != next {
            return false;
        }
        next = if next == 1 {
            MANY - 2
        } else {
            next.saturating_sub(2)
        };
    }
    places.len() as u64 == MANY
}

#[test]
fn many_rows_are_sorted(rt: HostRuntime) {
    let rows = many_rows(&rt);
    let places = sorted(&rt, &rows, &[true, true]);
    assert!(rt; are_in_order(places.as_slice()));
    drop(places);
    drop(rows);
}
