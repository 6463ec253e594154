// Each rule gives what means the same wherever the bound names have values, nests no deeper and is
// smaller.
ghost use Rattle.std.specs.Prelude.{◌≡◌, ℕ, List};
ghost use Rattle.xt_names.specs.declared.names.ExprName.{ExprName};
ghost use Rattle.xt_syntax.specs.declared.exprs.Expr.{Expr};
ghost use Rattle.rewrite_rules.specs.Law.{Tidies, SameWhere};
ghost use Rattle.rewrite_rules.specs.Passes.{tidied};
ghost use Rattle.xt_syntax.specs.declared.queries.Query.{Query};
ghost use Rattle.rewrite_rules.specs.Ended.{PassesEnd, NestsNoDeeper};
ghost use Rattle.rewrite_rules.specs.Heads.{PassesKeep};
ghost use Rattle.rewrite_rules.specs.Kept.{KeepsQueries};
ghost use Rattle.rewrite_rules.specs.Tidy.{PassesTidy};
ghost use Rattle.rewrite_rules.specs.Choices.{rule_2};
ghost use Rattle.rewrite_rules.specs.Lets.{rule_1, rule_7};
ghost use Rattle.rewrite_rules.specs.Lists.{rule_3};
ghost use Rattle.rewrite_rules.specs.Logic.{rule_8};
ghost use Rattle.rewrite_rules.specs.Loops.{rule_6};
ghost use Rattle.rewrite_rules.specs.Tests.{rule_4, rule_5};

/// A `let` of a value that is still and is not read goes.
pub fn unread_variables_go()
    ensures { Tidies rule_1 }
{}

/// An arm whose test is true() or false() goes.
pub fn decided_arms_go()
    ensures { Tidies rule_2 }
{}

/// A list within a list is one list, and a list of one part is that part.
pub fn lists_are_flat()
    ensures { Tidies rule_3 }
{}

/// not() of empty() is exists(), and not() of exists() is empty().
pub fn negated_counts_turn()
    ensures { Tidies rule_4 }
{}

/// boolean() goes where a truth value is asked for.
pub fn tests_are_bare()
    ensures { Tidies rule_5 }
{}

/// A `for` over one literal is a `let`.
pub fn single_loops_are_lets()
    ensures { Tidies rule_6 }
{}

/// A `let` of a literal or of a local variable goes, and that stands wherever its variable was read.
pub fn copies_go()
    ensures { Tidies rule_7 }
{}

/// A part of `and` and `or` that true() or false() decides goes.
pub fn decided_parts_go()
    ensures { Tidies rule_8 }
{}

/// What a pass makes of an expression means the same wherever the bound names have values.
pub fn a_pass_changes_nothing()
    ensures { (bound : List ExprName) (e : Expr) → SameWhere bound (tidied bound e) e }
{}

/// A query gives the same after any number of passes: the same items, the same code, or it lacks calls
/// in both.
pub fn passes_keep_the_query()
    ensures { (count : ℕ) → KeepsQueries count }
{}

/// After as many passes as the query is large one more changes nothing.
pub fn passes_end()
    ensures { (query : Query) → PassesEnd query }
{}

/// A pass makes no expression nest deeper.
pub fn passes_nest_no_deeper()
    ensures { (bound : List ExprName) (e : Expr) → NestsNoDeeper bound e }
{}

/// After as many passes as the query is large no rule is in it.
pub fn no_rule_stands()
    ensures { (query : Query) → PassesTidy query }
{}

/// Passes change nothing of a query but its expressions, and where all of these nest within a limit, so
/// do they afterwards.
pub fn passes_keep_names_and_types()
    ensures { (query : Query) → PassesKeep query }
{}
