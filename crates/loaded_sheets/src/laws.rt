// What the definitions say, in the words of the Recommendation.
ghost use Rattle.loaded_sheets.specs.Laws.{AllGlobalsAreDeclared, GlobalsStandInOrder};
ghost use Rattle.loaded_sheets.specs.Laws.{ModulesComeFirst, WideRulesAreTold, AllRulesAreTold};

/// The stylesheet has each global that counts, and each comes after those on which it depends
/// (XSLT 2.0, 9.5).
pub fn globals_stand_in_order()
    ensures all { AllGlobalsAreDeclared }
    ensures order { GlobalsStandInOrder }
{}

/// A rule that one module breaks by itself is told before those that all modules break together.
pub fn modules_come_first()
    ensures { ModulesComeFirst }
{}

/// A stylesheet that is not refused breaks no rule: its declarations none together, and none of its
/// modules one by itself (XSLT 2.0, 2.9).
pub fn broken_rules_are_told()
    ensures wide { WideRulesAreTold }
    ensures all { AllRulesAreTold }
{}
