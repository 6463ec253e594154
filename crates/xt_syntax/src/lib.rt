//! The syntax of expressions, patterns and queries. Instructions and sheets stand in xt_sheets.
//!
//! Contracts see plain syntax: two values are equal where they are written alike. Within expressions each expression and
//! each list is in a `Shared`, so a copy goes down no level; a pattern and the declarations of a
//! query hold theirs
//! themselves.
//!
//! Example: `1, $x` is `Expr::Comma` of the list of `Expr::Int(1)` and `Expr::Var(x)`.
#![tactic(auto)]

mod expr_copies;
mod exprs;
mod options;
mod pattern_copies;
mod patterns;
mod prefixes;
mod queries;
mod query_copies;

pub use expr_copies::{
    copy_arm_list, copy_bind_list, copy_clause_list, copy_direct_attr_list, copy_expr_list,
    copy_flwor_list, copy_name_source_list, copy_order_list, copy_part_list,
};
pub use exprs::{Arm, Bind, Clause, DirectAttr, Expr, Flwor, NameSource, Order, Part};
pub use options::copy_shared_option;
pub use pattern_copies::{copy_pattern_list, copy_pattern_step_list};
pub use patterns::{Pattern, PatternStep};
pub use prefixes::{ParseFault, Prefixes};
pub use queries::{Query, QueryFunction, QueryParam, QueryVar};
pub use query_copies::{
    copy_prefixes_list, copy_query_function_list, copy_query_list, copy_query_param_list,
    copy_query_var_list,
};
pub use xt_types;
pub use xt_types::{Axis, Count, ItemType, NameTest, SeqType, SpaceRule, Test};
