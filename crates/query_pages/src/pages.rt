// Pages.
ghost use Rattle.std.specs.Prelude.{◌≡◌, ◌∷◌, [], OnOk, IfOk, MatchOption};
ghost use Rattle.expr_keys.specs.declared.tokens.Token.TheVariants as token_of;
ghost use Rattle.query_pages.specs.Inner.{inner, with_inner};
ghost use Rattle.query_pages.specs.Laid.{IsTextOf};

use crate::gaps::Gap;
use crate::lines::gaps_of;
use crate::placed::Placed;
use crate::texts::written;
use expr_terms::{Key, Token};
use std::alloc::{AllocError, Global};
use std::marker::Model;
use xt_names::Text;

/// The tokens of a query, or of a part of one that ends with it; contracts see the list of them.
#[derive(Drop)]
pub struct Page {
    /// The last token first.
    items: Vec<Placed>,
}

impl Model for Page {
    ghost use Rattle.std.specs.Prelude.{List};
    ghost use Rattle.expr_keys.specs.declared.tokens.Token.{Token};
    ghost use Rattle.query_pages.specs.Placed.{tokens_of};

    ghost Value = { List Token };

    ghost view = { λ p. tokens_of p.items.items };
}

/// The front of an element as one within the content of another; every other token as it is.
fn inner(token: Token) -> Token
    ensures { result ≡ inner token }
{
    match token {
        Token::StartTagOpen(prefix, local) => Token::ChildTagOpen(prefix, local),
        other => other,
    }
}

impl Page {
    /// No tokens.
    pub fn new(alloc: Global) -> Page
        ensures { result ≡ [] }
    {
        Page {
            items: Vec::new(alloc),
        }
    }

    /// Puts a token before all others, with what is wanted before it.
    #[tactic(auto, using(crate::proofs::Pushed::pushed))]
    pub fn push(&mut self, gap: Gap, token: Token) -> Result<(), AllocError>
        ensures { OnOk result (self.new ≡ token ∷ self.old) }
    {
        self.items.push(Placed { token, gap })?;
        Ok(())
    }

    /// Puts a key before all other tokens, with what is wanted before it.
    pub fn push_key(&mut self, gap: Gap, key: Key) -> Result<(), AllocError>
        ensures { OnOk result (self.new ≡ token_of.Key key ∷ self.old) }
    {
        self.push(gap, Token::Key(key))
    }

    /// Takes the first token away.
    #[tactic(auto, using(crate::proofs::Pushed::pushed))]
    pub fn pop(&mut self) -> Option<Token>
        ensures { MatchOption result ((self.old ≡ []) × (self.new ≡ []))
            (λ token. self.old ≡ token ∷ self.new) }
    {
        match self.items.pop() {
            None => None,
            Some(placed) => Some(placed.token),
        }
    }

    /// Makes the first token, where it is the front of an element, one within the content of
    /// another (XQuery 1.0, 3.7.1.3).
    #[tactic(auto, using(crate::proofs::Pushed::pushed))]
    pub fn make_inner(&mut self) -> Result<(), AllocError>
        ensures { OnOk result (self.new ≡ with_inner self.old) }
    {
        match self.items.pop() {
            None => Ok(()),
            Some(placed) => self.push(placed.gap, inner(placed.token)),
        }
    }

    /// The text of the tokens, with white space between them: where lines are told to end, they do,
    /// and where they may, they do before they would have more than some hundred columns.
    /// (XQuery 1.0, A.2)
    pub fn text(&self, alloc: Global) -> Result<Text, AllocError>
        ensures { IfOk result (λ text. IsTextOf self.now text) }
    {
        let gaps = gaps_of(alloc, self.items.as_slice())?;
        written(alloc, self.items.as_slice(), gaps.as_slice())
    }
}
