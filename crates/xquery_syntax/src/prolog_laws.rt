//! What a query declares and names whose prolog breaks no rule (XQuery 1.0, 2.2.4, 4.14 and 4.15).
//! Definitions and laws alone.
//!
//! `specs/Parts` says which query declarations make. The laws say that no two things are declared
//! alike in a query that breaks no rule, and that it names nothing but what it declares.

ghost use Rattle.std.specs.Prelude.{◌≡◌, List, [], true};
ghost use Rattle.closed_queries.specs.Closed.{has_different_names, query_keeps_names};
ghost use Rattle.closed_queries.specs.declared.prolog_rules.declarations.Declaration.{Declaration};
ghost use Rattle.closed_queries.specs.PrologRules.Declarations.{query_broken};
ghost use Rattle.xquery_syntax.specs.PrologLaws.Parts.{Makes};
ghost use Rattle.xt_syntax.specs.declared.queries.Query.{Query};

/// In a query that breaks no rule no two variables have one name, no two functions one name and
/// number of parameters, and no two parameters of one function one name; and each variable that it
/// names is bound where it is named or is one of its own, and each function that it calls is one of
/// its own or of those that every expression may call.
/// (XQuery 1.0, 2.2.4, 4.14 and 4.15)
pub fn unbroken_prologs_keep_names()
    ensures different { (ds : List Declaration) (q : Query) → Makes ds q
        → query_broken ds q.body ≡ [] → has_different_names q ≡ true }
    ensures kept { (ds : List Declaration) (q : Query) → Makes ds q
        → query_broken ds q.body ≡ [] → query_keeps_names q ≡ true }
{}
