use crate::{Bound, Instr};
use xt_names::{ExprName, List};
use xt_syntax::{Expr, Pattern, SeqType, SpaceRule};

/// A stylesheet with all its modules (XSLT 2.0, 3.10). Its prefixes are resolved, and of the declarations that one of
/// higher import precedence replaces none is left.
#[derive(Drop)]
pub struct Sheet {
    /// The stylesheet levels in order of precedence, which counts from 1.
    pub levels: List<Level>,
    /// The global variables and parameters in the order in which they are evaluated.
    pub globals: List<Global>,
    /// The templates, which rules and calls name by their places from 0.
    pub templates: List<Template>,
    /// The template rules by precedence, then in declaration order.
    pub rules: List<Rule>,
    /// The stylesheet functions.
    pub functions: List<SheetFunction>,
    /// The declarations of keys.
    pub keys: List<KeyRule>,
    /// The modes, which have numbers from 0; the default mode comes first, and its uri and local part are empty.
    pub modes: List<ExprName>,
    /// Of which elements white space is stripped: the first rule whose test passes a name decides.
    pub space: List<SpaceRule>,
    /// Whether the XML declaration is left out of the output.
    pub omit: bool,
}

/// A stylesheet level: a module with those that it includes (XSLT 2.0, 3.10.3).
#[derive(Clone, Copy, PartialEq, Eq, Debug)]
pub struct Level {
    /// The levels that are imported into this one are those from this precedence up to its own, without it.
    pub first: u32,
}

/// A global variable or parameter (XSLT 2.0, 9.5).
#[derive(Drop)]
pub struct Global {
    /// The variable or parameter.
    pub bound: Bound,
    /// Whether it is a parameter.
    pub param: bool,
}

/// A template (XSLT 2.0, 6.1 and 10.1).
#[derive(Drop)]
pub struct Template {
    /// The name by which it is called.
    pub name: Option<ExprName>,
    /// Its parameters.
    pub params: List<Bound>,
    /// The type after `as`.
    pub kind: Option<SeqType>,
    /// Its content after the parameters.
    pub body: List<Instr>,
    /// Whether it has `match`.
    pub has_match: bool,
}

/// A template rule: one alternative of the pattern of a template (XSLT 2.0, 6.4). Its place is its position from 1.
#[derive(Drop)]
pub struct Rule {
    /// The place of its template, from 0.
    pub template: u32,
    /// What it matches.
    pub pattern: Pattern,
    /// The numbers of the modes in which it stands (6.5).
    pub modes: List<u32>,
    /// The precedence of its level.
    pub precedence: u32,
    /// Its priority in thousandths.
    pub priority: i64,
}

/// A stylesheet function (XSLT 2.0, 10.3).
#[derive(Drop)]
pub struct SheetFunction {
    /// Its name.
    pub name: ExprName,
    /// Its parameters.
    pub params: List<Bound>,
    /// The type after `as`.
    pub kind: Option<SeqType>,
    /// Its content after the parameters.
    pub body: List<Instr>,
}

/// A declaration of a key: one alternative of its pattern (XSLT 2.0, 16.3.1).
#[derive(Drop)]
pub struct KeyRule {
    /// The name of the key.
    pub name: ExprName,
    /// Which nodes it indexes.
    pub pattern: Pattern,
    /// What they are found by: `use`.
    pub key: Expr,
}
