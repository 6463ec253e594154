// The function gives what the relation says.
ghost use Rattle.expr_tokens.specs.TextTokens.Lexed.{TokensAreLexed, FaultsAreNotLexed};

/// The tokens that a text is read as are those of the function (XPath 2.0, A.2).
pub fn tokens_are_lexed()
    ensures { TokensAreLexed }
{}

/// A text in which no token begins somewhere has none by the function (XPath 2.0, A.2).
pub fn faults_are_not_lexed()
    ensures { FaultsAreNotLexed }
{}
