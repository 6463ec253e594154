// The levels of the modules that are loaded.
ghost use Rattle.module_loading.specs.Laws.{LevelsAreThoseOfPrecedence, IncludedModulesStandInPlace};

/// The levels of the modules that are loaded are those of import precedence, each with the first of
/// the levels that are imported into it, and an included module is in its place in the module
/// that includes it (XSLT 2.0, 3.10.2 and 3.10.3).
#[tactic(auto, using(crate::proofs::LevelLaws::laws))]
pub fn levels_are_those_of_precedence()
    ensures levels { LevelsAreThoseOfPrecedence }
    ensures included { IncludedModulesStandInPlace }
{}
