//! What is known of the one stylesheet that the declarations of all modules make up (XSLT 2.0,
//! 3.10.3). Laws alone.
//!
//! Whatever the declarations are, each rule has the place of a template and the precedence of a
//! level, no two functions have one name and number of parameters, and no two globals one name: of
//! those that stand twice the last one counts. What the parts of all modules have, all declarations
//! have, and what these have, the stylesheet has.
#![tactic(auto)]

ghost use Rattle.assembly_laws.specs.Laws.{RulesHaveTemplates, RulesHaveLevels, FunctionsDiffer};
ghost use Rattle.assembly_laws.specs.Laws.{GlobalsDiffer, PartsAreDeclared, RulesHaveModes};
ghost use Rattle.assembly_laws.specs.Laws.{SpacesAreDeclared, DeclarationsAreParts};

/// The template of each rule of the stylesheet stands among its templates (XSLT 2.0, 6.4).
pub fn rules_have_templates()
    ensures { RulesHaveTemplates }
{}

/// The precedence of each rule of the stylesheet is that of one of its levels (XSLT 2.0, 6.4).
pub fn rules_have_levels()
    ensures { RulesHaveLevels }
{}

/// Where the declarations have the numbers of modes that are there, so do the rules of the stylesheet
/// (XSLT 2.0, 6.5).
pub fn rules_have_modes()
    ensures { RulesHaveModes }
{}

/// No two functions of the stylesheet have one name and number of parameters (XSLT 2.0, 10.3).
pub fn functions_differ()
    ensures { FunctionsDiffer }
{}

/// No two global variables and parameters of the stylesheet have one name, in the order in which
/// they are evaluated (XSLT 2.0, 9.5).
pub fn globals_differ()
    ensures { GlobalsDiffer }
{}

/// What each declaration has of what is asked of globals, templates, patterns, functions and keys, the
/// stylesheet has (XSLT 2.0, 3.10.3).
pub fn parts_are_declared()
    ensures { PartsAreDeclared }
{}

/// What each rule on white space has that is declared, the rules of the stylesheet have (XSLT 2.0, 4.4).
pub fn spaces_are_declared()
    ensures { SpacesAreDeclared }
{}

/// What each part of each module has, each declaration of all modules has (XSLT 2.0, 3.10.3).
pub fn declarations_are_parts()
    ensures { DeclarationsAreParts }
{}
