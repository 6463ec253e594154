// The form of the query of a stylesheet.
ghost use Rattle.std.specs.Prelude.{Bool};
ghost use Rattle.xt_syntax.specs.declared.patterns.Pattern.{Pattern};
ghost use Rattle.xt_sheets.specs.declared.sheets.Sheet.{Sheet};
ghost use Rattle.translation.specs.Laws.{QueriesKeepLimits, TestsKeepLimits, VariablesAreGlobals};

/// Where the expressions and types of a stylesheet are regular, and its instructions and expressions
/// nest at most 40 levels, all expressions of its query are regular and nest at most 400 levels.
pub fn a_query_is_regular_and_nests_at_most_400_levels()
    ensures { (tested : Pattern → Bool) → TestsKeepLimits tested → QueriesKeepLimits tested }
{}

/// The variables of the query are the globals of the stylesheet in their order; its parameters come from
/// outside.
pub fn variables_are_the_globals()
    ensures { (s : Sheet) → VariablesAreGlobals s }
{}
