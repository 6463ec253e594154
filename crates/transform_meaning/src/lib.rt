//! What stylesheets mean (XSLT 2.0): definitions and laws alone, nothing runs.
//!
//! `Instrs` gives each form of instructions a meaning over the meanings of its parts, where the ways
//! out of an instruction are given (`Doors`): the program of its expressions, a rule for a node, a
//! named template. `Templates` ties the knot by the number of calls that are left, and `Sheets` says
//! what a stylesheet makes of a document.
//!
//! Example: a stylesheet without rules makes of a document one of its text.
#![tactic(auto)]

mod laws;

pub use laws::{
    keys_are_looked_up_in_the_tree_of_the_node, nodes_without_rules_go_by_those_that_are_built_in,
    without_calls_left_templates_need_one, without_sort_keys_items_are_taken_in_order,
    without_sort_keys_perform_sort_gives_the_items_as_they_are,
    without_sort_keys_templates_are_applied_in_order,
};
