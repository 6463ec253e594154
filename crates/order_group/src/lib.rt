//! The order and the groups of sequences.
//!
//! `sort_by_keys` puts rows of sort keys in their one stable order, which `order by` and xsl:sort
//! share. `group_by`, `group_adjacent` and `group_starting` make the groups of xsl:for-each-group.
//! All answer with places, so that callers sort and group whatever has those keys.
//!
//! Example: of the rows `(b)`, `(a)`, `()`, `(a)` the places in order are 2, 1, 3, 0; of items with
//! these keys `group_by` makes the groups `b` with the place 0 and `a` with the places 1 and 3.
#![tactic(auto)]

pub mod atom_keys;
mod groups;
mod laws;
mod rows;
mod sorts;

pub use groups::{Group, group_adjacent, group_by, group_starting};
pub use laws::{rows_have_one_order, sorted_values_follow_their_keys};
pub use sorts::{KeyRow, SortFault, sort_by_keys};
