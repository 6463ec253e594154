//! Atoms as keys of tables.
//!
//! An `AtomKey` is what decides whether two atoms are the same key, and has an equality and a hash.
//! A `KeyTable` holds places by key, in the order in which the keys were first seen, and finds a
//! key without a walk over the others.
//!
//! Example: after `table.add(&Atom::Int(7), 0)?` and `table.add(&Atom::Int(7), 3)?` the places of 7
//! are 0 and 3.

mod keys;
mod tables;

pub use keys::{AtomKey, equal_keys_are_the_same_key};
pub use tables::{KeyEntry, KeyTable};
