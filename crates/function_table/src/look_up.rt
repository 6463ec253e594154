ghost use Rattle.std.specs.Prelude.{◌≡◌, IsTrue};
ghost use Rattle.std.specs.Str.{chars};
ghost use Rattle.function_table.specs.Find.{is_in_fn, takes, found_in, found, is_doc, is_known};
ghost use Rattle.function_table.specs.Rows.{row_of, rows_as, are_ascii};
ghost use Rattle.function_table.specs.Table.{table};

use crate::builtins::Builtin;
use crate::rows::{Row, rows_of};
use xt_names::{ExprName, is_ascii_text};

/// The function that every expression may call by this name with so many arguments; None exactly where the table has no
/// such function (XQuery 1.0 and XPath 2.0 Functions and Operators). It takes no memory.
#[tactic(auto, unfolding(crate::specs::Find::found))]
pub fn find(name: &ExprName, arity: usize) -> Option<Builtin>
    ensures { result ≡ found name.now arity }
{
    if is_in_fn(name) {
        found_in_table(name.local.as_str(), arity)
    } else {
        None
    }
}

/// Whether expressions of stylesheets and queries alike may call the function: one of the table, or `doc` with one argument.
#[tactic(auto, unfolding(crate::specs::Find::is_known))]
pub fn is_known(name: &ExprName, arity: usize) -> bool
    ensures { result ≡ is_known name.now arity }
{
    find(name, arity).is_some() || is_doc(name, arity)
}

/// Whether the name is in the namespace of the functions.
#[tactic(auto, unfolding(crate::specs::Find::is_in_fn))]
pub fn is_in_fn(name: &ExprName) -> bool
    ensures { result ≡ is_in_fn name.now }
{
    is_ascii_text(name.uri.as_str(), "http://www.w3.org/2005/xpath-functions")
}

#[tactic(auto, unfolding(crate::specs::Find::is_doc))]
fn is_doc(name: &ExprName, arity: usize) -> bool
    ensures { result ≡ is_doc name.now arity }
{
    is_in_fn(name) && is_ascii_text(name.local.as_str(), "doc") && arity == 1
}

fn found_in_table(local: &str, arity: usize) -> Option<Builtin>
    ensures { result ≡ found_in table (chars local.now) arity }
{
    match local.chars().next() {
        Some(first) => found_in(rows_of(first), local, arity),
        None => None,
    }
}

/// The function of the first of these rows with this name that takes so many arguments.
#[tactic(auto, unfolding(crate::specs::Find::found_in))]
fn found_in(rows: &[Row], local: &str, arity: usize) -> Option<Builtin>
    requires { IsTrue (are_ascii rows.now) }
    ensures { result ≡ found_in (rows_as rows.now) (chars local.now) arity }
{
    for row in rows {
        if is_ascii_text(local, row.0) && takes(row, arity) {
            return Some(row.1);
        }
    }
    None
}

fn takes(row: &Row, arity: usize) -> bool
    ensures { result ≡ takes (row_of row.now) arity }
{
    row.2 <= arity && arity <= row.3
}
