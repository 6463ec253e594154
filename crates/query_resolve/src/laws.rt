// What queries mean.
ghost use Rattle.std.specs.Prelude.{◌≡◌, ◌↔◌};
ghost use Rattle.xt_names.specs.declared.codes.Code.{Code};
ghost use Rattle.xt_syntax.specs.declared.queries.Query.{Query};
ghost use Rattle.query_grammar.specs.declared.declared.RawQuery.{RawQuery};
ghost use Rattle.query_resolve.specs.Meaning.{Among, Broken, Meant};
ghost use Rattle.query_resolve.specs.Queries.{resolved, rules_broken, value};

/// What is read means at most one query, and none where it breaks a rule.
/// (XQuery 1.0, 2.2.4 and 2.3.1)
pub fn means_one()
    ensures one { (raw : RawQuery) (a b : Query) → Meant raw a → Meant raw b → a ≡ b }
    ensures unbroken { (raw : RawQuery) (a : Query) (c : Code) → Meant raw a → Broken raw c → ⊥ }
{}

/// The function gives the query exactly where it is meant, and its list of broken rules has those
/// that are broken and no others.
/// (XQuery 1.0, 2.2.4 and 2.3.1)
pub fn resolves_what_is_meant()
    ensures meant { (raw : RawQuery) (q : Query) → Meant raw q ↔ (resolved raw ≡ value q) }
    ensures broken { (raw : RawQuery) (c : Code) → Broken raw c ↔ Among c (rules_broken raw) }
{}
