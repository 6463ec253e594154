// What import precedence is, in the words of the Recommendation.
ghost use Rattle.module_loading.specs.ImportLevels.Laws.{LevelsNest, ImportsLieBelow, EachLevelHasItsFirst};
ghost use Rattle.module_loading.specs.ImportLevels.Laws.{IncludesShareALevel};

/// Levels are numbered in post-order: those after the links of a module lie above those numbered
/// before, up to the module's own, and an included module has the level of the module that includes
/// it (XSLT 2.0, 3.10.3).
#[tactic(auto, using(crate::proofs::ImportLevels::Nest::laws))]
pub fn levels_nest()
    ensures nest { LevelsNest }
    ensures includes { IncludesShareALevel }
{}

/// Each level is told the first of those that are imported into it (XSLT 2.0, 3.10.3).
#[tactic(auto, using(crate::proofs::ImportLevels::Nest::laws))]
pub fn levels_are_told()
    ensures { EachLevelHasItsFirst }
{}

/// An importing level lies above those that it imports, and of two imports of one level the later
/// lies above the earlier with all that it imports (XSLT 2.0, 3.10.3).
#[tactic(auto, using(crate::proofs::ImportLevels::Nest::laws))]
pub fn imports_lie_below()
    ensures { ImportsLieBelow }
{}
