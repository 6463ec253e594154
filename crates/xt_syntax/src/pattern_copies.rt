// Copies share the parts.
ghost use Rattle.std.specs.Prelude.{◌≡◌, IfOk};

use crate::expr_copies::copy_expr_list;
use crate::patterns::{Pattern, PatternStep};
use std::alloc::AllocError;
use xt_names::{List, Share, copy_list};

impl PatternStep {
    /// The same step.
    pub fn copy(&self) -> Result<PatternStep, AllocError>
        ensures { IfOk result (λ copy. copy ≡ self.now) }
    {
        Ok(PatternStep {
            axis: self.axis,
            test: self.test.copy()?,
            quiet: copy_expr_list(&self.quiet)?,
            deep: self.deep,
        })
    }
}

impl Pattern {
    /// The same pattern.
    pub fn copy(&self) -> Result<Pattern, AllocError>
        ensures { IfOk result (λ copy. copy ≡ self.now) }
    {
        Ok(Pattern {
            rooted: self.rooted,
            steps: copy_pattern_step_list(&self.steps)?,
        })
    }
}

impl Share for PatternStep {
    fn share(&self) -> Result<PatternStep, AllocError> {
        self.copy()
    }
}

impl Share for Pattern {
    fn share(&self) -> Result<Pattern, AllocError> {
        self.copy()
    }
}

/// The list of the same steps.
pub fn copy_pattern_step_list(items: &List<PatternStep>) -> Result<List<PatternStep>, AllocError>
    ensures { IfOk result (λ copy. copy ≡ items.now) }
{
    copy_list(items)
}

/// The list of the same patterns.
pub fn copy_pattern_list(items: &List<Pattern>) -> Result<List<Pattern>, AllocError>
    ensures { IfOk result (λ copy. copy ≡ items.now) }
{
    copy_list(items)
}
