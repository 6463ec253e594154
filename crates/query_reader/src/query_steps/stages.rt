// How far a query is read.
use expr_reader::ExprParser;
use expr_terms::{Second, Token};
use query_grammar::{Declared, Opening, Signature, Typed};

/// How far a query is read.
/// (XQuery 1.0, 4 and A.1)
#[derive(Drop)]
pub enum ReaderState {
    /// At the front of a declaration or of the body.
    Front,
    /// After a word that may open a declaration.
    Held(Token, Second),
    /// After the two words of a declaration and these tokens.
    Head(Opening, Vec<Token>),
    /// In the body.
    Body(ExprParser),
    /// In the value of a variable.
    Value(Typed, ExprParser),
    /// In the body of a function.
    Inner(Signature, ExprParser),
    /// After it: what is declared, but where the body nests deeper than the limit.
    Closed(Option<Declared>),
}

/// What a token leads to.
/// (XQuery 1.0, 4 and A.1)
#[derive(Drop)]
pub enum StepResult {
    /// Nothing goes on so.
    Refused,
    /// The reading goes on.
    Onto(ReaderState),
    /// A declaration has ended, and the reading goes on at the front. What is declared is kept, but
    /// where its expression nests deeper than the limit.
    Ends(Option<Declared>),
}
