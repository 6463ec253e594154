// Declarations, and the module that they make up.
use crate::templates::{RulePart, TemplatePart};
use xt_names::{ExprName, List, Shared};
use xt_sheets::instrs::{Bound, Instr};
use xt_sheets::xt_types::{SeqType, SpaceRule};

/// A global variable or parameter (XSLT 2.0, 9.5).
#[derive(Drop)]
pub struct GlobalPart<E, P> {
    /// The variable or parameter.
    pub bound: Bound<E, P>,
    /// Whether it is a parameter.
    pub param: bool,
}

/// A stylesheet function (XSLT 2.0, 10.3).
#[derive(Drop)]
pub struct FunctionPart<E, P> {
    /// Its name.
    pub name: ExprName,
    /// Its parameters.
    pub params: List<Bound<E, P>>,
    /// The type after `as`.
    pub kind: Option<SeqType>,
    /// Its content after the parameters.
    pub body: List<Instr<E, P>>,
}

/// A declaration of a key: one alternative of its pattern (XSLT 2.0, 16.3.1).
#[derive(Drop)]
pub struct KeyPart<E, P> {
    /// The name of the key.
    pub name: ExprName,
    /// Which nodes it indexes.
    pub pattern: P,
    /// What they are found by: `use`.
    pub key: Shared<E>,
}

/// What one child of the root declares (XSLT 2.0, 3.6.2).
#[derive(Drop)]
pub enum Part<E, P> {
    /// `xsl:variable` or `xsl:param`.
    Global(GlobalPart<E, P>),
    /// `xsl:template`, and a rule for each alternative of its pattern; without `match` there is no rule.
    Template(TemplatePart<E, P>, List<RulePart<P>>),
    /// `xsl:function`.
    Function(FunctionPart<E, P>),
    /// `xsl:key`: a declaration for each alternative of its pattern.
    Key(List<KeyPart<E, P>>),
    /// `xsl:strip-space` or `xsl:preserve-space` (4.4): a rule for each test, in the order in which
    /// they are written.
    Space(List<SpaceRule>),
    /// `xsl:output` (20): whether the XML declaration is left out; None where it does not say.
    Output(Option<bool>),
    /// An element of another namespace, which is passed over.
    Ignored,
    /// `xsl:import` or `xsl:include`.
    Linked,
}

/// A module (XSLT 2.0, 3.6).
#[derive(Drop)]
pub struct Module<E, P> {
    /// What the element children of the root declare, one by one.
    pub parts: List<Shared<Part<E, P>>>,
    /// The modes, whose numbers are their places from 0; the default mode comes first, and the
    /// others in the order in which they first appear. The name of the default mode has no characters.
    pub modes: List<ExprName>,
    /// The names of the templates that are called, whose numbers are their places from 0, in the
    /// order in which they first appear.
    pub called: List<ExprName>,
}
