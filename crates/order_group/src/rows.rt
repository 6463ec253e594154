// How two rows of sort keys stand.
ghost use Rattle.std.specs.Prelude.{◌≡◌, ◌+◌, ◌<◌, ◌^◌, length, option_copied};
ghost use Rattle.order_group.specs.Rows.{class_number, atom_order, cell_order, directed, row_order, cell_at};

use std::cmp::Ordering;
use xt_atoms::{Atom, text_order};

#[tactic(auto, unfolding(crate::specs::Rows::class_number))]
fn class_number(a: &Atom) -> u8
    ensures { result ≡ class_number a.now }
{
    match a {
        Atom::Str(_) | Atom::Untyped(_) => 0,
        Atom::Int(_) => 1,
        Atom::Bool(_) => 2,
        Atom::QName(_) => 3,
    }
}

/// How two atoms of one column stand.
#[tactic(auto, unfolding(crate::specs::Rows::atom_order))]
fn atom_order(a: &Atom, b: &Atom) -> Ordering
    ensures { result ≡ atom_order a.now b.now }
{
    match (a, b) {
        (Atom::Str(x) | Atom::Untyped(x), Atom::Str(y) | Atom::Untyped(y)) => {
            text_order(x.as_str(), y.as_str())
        }
        (Atom::Int(x), Atom::Int(y)) => x.cmp(y),
        (Atom::Bool(x), Atom::Bool(y)) => x.cmp(y),
        _ => class_number(a).cmp(&class_number(b)),
    }
}

/// The empty key is least.
#[tactic(auto, unfolding(crate::specs::Rows::cell_order))]
fn cell_order(a: Option<&Atom>, b: Option<&Atom>) -> Ordering
    ensures { result ≡ cell_order (option_copied a.entry) (option_copied b.entry) }
{
    match (a, b) {
        (None, None) => Ordering::Equal,
        (None, Some(_)) => Ordering::Less,
        (Some(_), None) => Ordering::Greater,
        (Some(x), Some(y)) => atom_order(x, y),
    }
}

#[tactic(auto, unfolding(crate::specs::Rows::directed))]
fn directed(descending: bool, a: Option<&Atom>, b: Option<&Atom>) -> Ordering
    ensures { result
        ≡ directed descending cell_order (option_copied a.entry) (option_copied b.entry) }
{
    if descending {
        cell_order(b, a)
    } else {
        cell_order(a, b)
    }
}

/// How two rows stand from a column on.
#[tactic(auto, unfolding(crate::specs::Rows::row_order))]
pub fn row_order(
    column: usize,
    descending: &[bool],
    a: &[Option<Atom>],
    b: &[Option<Atom>],
) -> Ordering
    requires { column + length descending.now < 2 ^ 64 }
    ensures { result ≡ row_order column descending.now a.now b.now }
{
    match descending {
        [] => Ordering::Equal,
        [first, more @ ..] => match directed(*first, cell(column, a), cell(column, b)) {
            Ordering::Equal => row_order(column + 1, more, a, b),
            order => order,
        },
    }
}

fn shown(cell: &Option<Atom>) -> Option<&Atom>
    ensures { option_copied result ≡ cell.now }
{
    match cell {
        Some(atom) => Some(atom),
        None => None,
    }
}

/// The cell of a column, counted from 0; a row has the empty key past its end.
#[tactic(auto, using(crate::proofs::Cells::next_cell))]
pub fn cell(column: usize, cells: &[Option<Atom>]) -> Option<&Atom>
    ensures { option_copied result ≡ cell_at column cells.now }
{
    match cells {
        [] => None,
        [first, rest @ ..] => {
            if column == 0 {
                shown(first)
            } else {
                cell(column - 1, rest)
            }
        }
    }
}
