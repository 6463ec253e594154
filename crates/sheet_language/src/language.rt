// The reader over the parsers.
use crate::expressions::expr_at;
use crate::patterns::patterns_at;
use crate::types::type_at;
use expr_names::ResolveFault;
use pattern_syntax::pattern_priorities::default_priority;
use sheet_expressions::is_key_use;
use sheet_values::sheet_texts::{Reader, StaticContext};
use std::alloc::Global;
use xt_names::{List, Shared, Text};
use xt_syntax::{Expr, Pattern};
use xt_types::SeqType;

/// The language of the texts of stylesheets: expressions of XPath, patterns and sequence types, read
/// by the parsers (XSLT 2.0, 5.2 and 5.5).
#[derive(Drop)]
pub struct SheetLanguage {}

impl Reader for SheetLanguage {
    ghost use Rattle.sheet_language.specs.Language.{sheet_reading};

    type Expr = Expr;

    type Pattern = Pattern;

    ghost reads = { λ language. sheet_reading };

    fn expr(
        &self,
        alloc: Global,
        place: &StaticContext,
        text: &Text,
    ) -> Result<Shared<Expr>, ResolveFault> {
        expr_at(alloc, place, text)
    }

    fn patterns(
        &self,
        alloc: Global,
        place: &StaticContext,
        text: &Text,
    ) -> Result<List<Pattern>, ResolveFault> {
        patterns_at(alloc, place, text)
    }

    fn sequence_type(
        &self,
        alloc: Global,
        place: &StaticContext,
        text: &Text,
    ) -> Result<SeqType, ResolveFault> {
        type_at(alloc, place, text)
    }

    fn is_key_use(&self, expr: &Expr) -> bool {
        is_key_use(expr)
    }

    fn default_priority(&self, pattern: &Pattern) -> i64 {
        default_priority(pattern)
    }
}
