//! The syntax of instructions and stylesheets, above that of expressions and patterns in xt_syntax.
//!
//! Contracts see plain syntax: two values are equal where they are written alike. Within instructions each expression and
//! each list is in a `Shared`, so a copy goes down no level; the declarations of a stylesheet hold
//! theirs themselves.
//!
//! The types that hold expressions take the type of those, and of patterns, as parameters: proofs about them then look
//! into no expression. They stand in the modules `instrs` and `values`; the names below give them the expressions and
//! patterns of xt_syntax.
//!
//! Example: `<xsl:if test="$x">a</xsl:if>` is `Instr::If` of `Expr::Var(x)` and the list of `Instr::Chars(a)`.
#![tactic(auto)]

mod instr_copies;
pub mod instrs;
mod sheet_copies;
mod sheets;
mod value_copies;
pub mod values;

pub use instr_copies::{copy_bound_list, copy_instr_list, copy_value_list, copy_when_list};
pub use sheet_copies::{
    copy_global_list, copy_key_rule_list, copy_level_list, copy_rule_list,
    copy_sheet_function_list, copy_sheet_list, copy_template_list,
};
pub use sheets::{Global, KeyRule, Level, Rule, Sheet, SheetFunction, Template};
pub use value_copies::{
    copy_avt_name_list, copy_avt_part_list, copy_grouping_list, copy_literal_attr_list,
    copy_mode_use_list, copy_sort_list,
};
pub use values::ModeUse;
pub use xt_syntax::{SpaceRule, xt_types};
use xt_syntax::{Expr, Pattern};

/// An instruction whose expressions and patterns are those of xt_syntax.
pub type Instr = instrs::Instr<Expr, Pattern>;
/// One of the tests of an `xsl:choose`.
pub type When = instrs::When<Expr, Pattern>;
/// A variable or parameter, or a parameter that is passed.
pub type Bound = instrs::Bound<Expr, Pattern>;
/// What a variable or parameter is bound to.
pub type Value = instrs::Value<Expr, Pattern>;
/// A part of an attribute value template.
pub type AvtPart = values::AvtPart<Expr>;
/// An attribute value template.
pub type Avt = values::Avt<Expr>;
/// A name that is computed when the instruction runs.
pub type AvtName = values::AvtName<Expr>;
/// An attribute of a literal result element.
pub type LiteralAttr = values::LiteralAttr<Expr>;
/// A sort key.
pub type Sort = values::Sort<Expr>;
/// What puts items into one group.
pub type Grouping = values::Grouping<Expr, Pattern>;
