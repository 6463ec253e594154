//! Axes, node tests and sequence types, which paths and signatures of both languages speak of.
//!
//! Contracts see each of them as the plain value: texts are lists of characters, and two tests or types are one where
//! they are written alike. `is_regular_type` tells the types of a regular form. That form is meant to be the one that texts
//! give; there is no grammar of such texts yet, so nothing here proves that it is.
//!
//! Example: `element(a)*` is `SeqType::Of(ItemType::Kind(Test::Elem(NameTest::Exact(a))), Count::Many)`, which is
//! regular; `element(*:a)*` would be the same with `NameTest::Local`, which is not.
#![tactic(auto)]

mod axes;
mod copies;
mod node_tests;
mod regular;
mod types;

pub use axes::Axis;
pub use copies::{
    copy_item_type_list, copy_name_test_list, copy_option, copy_seq_type_list,
    copy_space_rule_list, copy_test_list,
};
pub use node_tests::{NameTest, SpaceRule, Test};
pub use regular::{is_regular_name_test, is_regular_test, is_regular_type};
pub use types::{Count, ItemType, SeqType};
