// Rows of sort keys in order.
ghost use Rattle.std.specs.Prelude.{◌≡◌, ◌+◌, ◌<◌, ◌^◌, length, OnOk, IfOk, map, option_copied};
ghost use Rattle.std.specs.Ordering.{is_lt};
ghost use Rattle.order_group.specs.Rows.{in_order, is_of, cell_is_of, all_of, has_order, mixed_from, row_order, cell_at};
ghost use Rattle.order_group.specs.Sorts.{cells_of, numbered, IsSorted};
ghost use Rattle.order_group.specs.Entries.{keyed_entries};
ghost use Rattle.xt_names.specs.Lists.{stable_order};

use crate::rows::{cell, row_order};
use std::alloc::{AllocError, Global};
use xt_atoms::{Atom, SortClass};
use xt_names::List;

/// The keys of a row, one for each column; None is the empty key.
#[derive(Drop)]
pub struct KeyRow {
    pub cells: List<Option<Atom>>,
}

/// Why rows are not put in order.
#[derive(Drop)]
pub enum SortFault {
    /// This column, counted from 0, is the first that holds two sort classes or a QName.
    Mixed(u64),
    /// Memory ran out.
    Memory(AllocError),
}

// A row in its place.
#[derive(Clone, Copy)]
struct Entry<'a> {
    row: &'a KeyRow,
    place: u64,
}

/// The places of the rows, from 0, in their one stable order (XSLT 2.0, 13.1; XQuery 1.0, 3.8.3):
/// the first column in which two rows differ decides, the empty key is least, and a column where
/// `descending` is true is the other way round. `Mixed` comes exactly where a column holds two sort
/// classes or a QName.
pub fn sort_by_keys(
    alloc: Global,
    rows: &List<KeyRow>,
    descending: &[bool],
) -> Result<List<u64>, SortFault>
    ensures { IsSorted descending.now rows.now result }
{
    match mixed_from(0, descending, rows.as_slice()) {
        Some(column) => Err(SortFault::Mixed(column)),
        None => match sorted_places(alloc, rows.as_slice(), descending) {
            Ok(places) => Ok(places),
            Err(e) => Err(SortFault::Memory(e)),
        },
    }
}

fn sorted_places(
    alloc: Global,
    rows: &[KeyRow],
    descending: &[bool],
) -> Result<List<u64>, AllocError>
    ensures { IfOk result (λ places. places ≡ in_order descending.now (numbered 0 rows.now)) }
{
    let mut entries = entries_of(alloc, rows)?;
    sort_entries(&mut entries, descending)?;
    let places = places_of(alloc, entries.as_slice())?;
    Ok(places)
}

fn entries_of(alloc: Global, rows: &[KeyRow]) -> Result<Vec<Entry<'_>>, AllocError>
    ensures { IfOk result (λ v. keyed_entries v.items ≡ numbered 0 rows.now) }
{
    let mut entries = Vec::with_capacity(alloc, rows.len())?;
    let mut place = 0;
    for row in rows {
        entries.push(Entry { row, place })?;
        place += 1;
    }
    Ok(entries)
}

fn sort_entries(entries: &mut Vec<Entry<'_>>, descending: &[bool]) -> Result<(), AllocError>
    ensures { OnOk result (entries.new.items ≡ stable_order
        (λ x y. is_lt (row_order 0 descending.now x.row.now.cells y.row.now.cells))
        entries.old.items) }
{
    entries.sort_by(|a, b| row_order(
        0,
        descending,
        a.row.cells.as_slice(),
        b.row.cells.as_slice(),
    ))?;
    Ok(())
}

fn places_of(alloc: Global, entries: &[Entry<'_>]) -> Result<List<u64>, AllocError>
    ensures { IfOk result (λ places. places ≡ map (λ e. e.place) entries.now) }
{
    let mut places = List::new(alloc);
    for entry in entries {
        places.push(entry.place)?;
    }
    Ok(places)
}

/// The first column from `column` on that has no order.
#[tactic(auto, unfolding(crate::specs::Rows::mixed_from))]
fn mixed_from(column: usize, descending: &[bool], rows: &[KeyRow]) -> Option<u64>
    requires { column + length descending.now < 2 ^ 64 }
    ensures { result ≡ mixed_from column descending.now (cells_of rows.now) }
{
    match descending {
        [] => None,
        [_, more @ ..] => {
            if has_order(column, rows) {
                mixed_from(column + 1, more, rows)
            } else {
                Some(column as u64)
            }
        }
    }
}

fn has_order(column: usize, rows: &[KeyRow]) -> bool
    ensures { result ≡ has_order (map (cell_at column) (cells_of rows.now)) }
{
    all_of(SortClass::Text, column, rows)
        || all_of(SortClass::Int, column, rows)
        || all_of(SortClass::Bool, column, rows)
}

fn all_of(class: SortClass, column: usize, rows: &[KeyRow]) -> bool
    ensures { result ≡ all_of class (map (cell_at column) (cells_of rows.now)) }
{
    for row in rows {
        if !cell_is_of(class, cell(column, row.cells.as_slice())) {
            return false;
        }
    }
    true
}

#[tactic(auto, unfolding(crate::specs::Rows::cell_is_of))]
fn cell_is_of(class: SortClass, cell: Option<&Atom>) -> bool
    ensures { result ≡ cell_is_of class (option_copied cell.entry) }
{
    match cell {
        None => true,
        Some(atom) => is_of(class, atom),
    }
}

#[tactic(auto, unfolding(crate::specs::Rows::is_of))]
fn is_of(class: SortClass, a: &Atom) -> bool
    ensures { result ≡ is_of class a.now }
{
    match (class, a) {
        (SortClass::Text, Atom::Str(_) | Atom::Untyped(_)) => true,
        (SortClass::Int, Atom::Int(_)) => true,
        (SortClass::Bool, Atom::Bool(_)) => true,
        _ => false,
    }
}
