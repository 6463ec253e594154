// What texts mean where they stand.
ghost use Rattle.expr_names.specs.Answers.{Answers};

use crate::sheet_texts::places::StaticContext;
use expr_names::ResolveFault;
use std::alloc::Global;
use xt_names::{List, Shared, Text};
use xt_types::SeqType;

/// What reads expressions, patterns and types: each method gives what the text means at the place,
/// and refuses it exactly where it breaks a rule there, with the code of the first one.
pub trait Reader {
    ghost use Rattle.std.specs.Prelude.{◌≡◌};
    ghost use Rattle.expr_names.specs.Answers.{Answers};
    ghost use Rattle.sheet_values.specs.SheetTexts.Readings.{Reading};

    type Expr: Drop;

    type Pattern: Drop;

    /// What texts mean, and which rules they break.
    ghost reads: { Self → Reading Self.Expr Self.Pattern };

    /// The expression that the text spells (XPath 2.0, 2).
    fn expr(
        &self,
        alloc: Global,
        place: &StaticContext,
        text: &Text,
    ) -> Result<Shared<Self::Expr>, ResolveFault>
        ensures { Answers result ((reads self.now).expr_faults place.now text.now)
            ((reads self.now).expr_value place.now text.now) };

    /// The alternatives of the pattern that the text spells (XSLT 2.0, 5.5.2).
    fn patterns(
        &self,
        alloc: Global,
        place: &StaticContext,
        text: &Text,
    ) -> Result<List<Self::Pattern>, ResolveFault>
        ensures { Answers result ((reads self.now).patterns_faults place.now text.now)
            ((reads self.now).patterns_value place.now text.now) };

    /// The type that the text spells (XPath 2.0, 2.5.3).
    fn sequence_type(
        &self,
        alloc: Global,
        place: &StaticContext,
        text: &Text,
    ) -> Result<SeqType, ResolveFault>
        ensures { Answers result ((reads self.now).type_faults place.now text.now)
            ((reads self.now).type_value place.now text.now) };

    /// Whether the expression may be the `use` of a key: it names and binds no variable, and calls
    /// no key() (XSLT 2.0, 16.3.1).
    fn is_key_use(&self, expr: &Self::Expr) -> bool
        ensures { result ≡ (reads self.now).is_key_use expr.now };

    /// The default priority of one alternative of a pattern, in thousandths (XSLT 2.0, 6.4).
    fn default_priority(&self, pattern: &Self::Pattern) -> i64
        ensures { result ≡ (reads self.now).default_priority pattern.now };
}
