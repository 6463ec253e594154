// Templates and their rules.
ghost use Rattle.std.specs.Prelude.{◌≡◌, IfOk};

use std::alloc::AllocError;
use xt_names::{ExprName, List, Shared};
use xt_sheets::instrs::{Bound, Instr};
use xt_sheets::xt_types::SeqType;

/// A template (XSLT 2.0, 6.1 and 10.1).
#[derive(Drop)]
pub struct TemplatePart<E, P> {
    /// The name by which it is called.
    pub name: Option<ExprName>,
    /// Its parameters.
    pub params: List<Bound<E, P>>,
    /// The type after `as`.
    pub kind: Option<SeqType>,
    /// Its content after the parameters.
    pub body: List<Instr<E, P>>,
    /// Whether it has `match`.
    pub has_match: bool,
}

/// A template rule: one alternative of the pattern of a template (XSLT 2.0, 6.4).
#[derive(Drop)]
pub struct RulePart<P> {
    /// What it matches.
    pub pattern: P,
    /// The modes in which it stands.
    pub modes: ModeSet,
    /// Its priority in thousandths.
    pub priority: i64,
}

/// The modes in which a template rule stands (XSLT 2.0, 6.5).
#[derive(Drop)]
pub enum ModeSet {
    /// `#all`.
    All,
    /// The modes with these numbers, in the order in which they are written.
    Numbers(Shared<List<u32>>),
}

impl ModeSet {
    /// The same modes.
    pub fn copy(&self) -> Result<ModeSet, AllocError>
        ensures { IfOk result (λ copy. copy ≡ self.now) }
    {
        match self {
            ModeSet::All => Ok(ModeSet::All),
            ModeSet::Numbers(numbers) => Ok(ModeSet::Numbers(numbers.copy()?)),
        }
    }
}
