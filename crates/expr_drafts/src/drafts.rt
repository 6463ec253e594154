// Drafts.
ghost use Rattle.std.specs.Prelude.{◌≡◌, ◌∷◌, [], OnOk, MatchOption};
ghost use Rattle.expr_keys.specs.declared.tokens.Token.TheVariants as token_of;
ghost use Rattle.query_pages.specs.Inner.{inner, with_inner};
ghost use Rattle.expr_raws.specs.PathRaws.Forms.{said};
ghost use Rattle.expr_raws.specs.Raws.{form_of};
ghost use Rattle.expr_drafts.specs.declared.drafts.Item.TheVariants as item_of;
ghost use Rattle.expr_drafts.specs.Written.{item_tokens};

use crate::name_prefixes::NamePrefixes;
use crate::spots::Spot;
use expr_terms::{Key, Token};
use query_pages::Gap;
use std::alloc::{AllocError, Global};
use std::marker::Model;
use xt_syntax::Expr;

/// An expression that is still to be written.
#[derive(Clone, Copy)]
pub struct Part<'a> {
    pub prefixes: &'a NamePrefixes,
    pub at: Spot,
    /// The greatest place of what is there without parentheses; None where all do.
    pub place: Option<u8>,
    /// Whether it is an element within the content of another.
    pub inner: bool,
    pub e: &'a Expr,
}

/// A token with what is wanted before it, or an expression.
#[derive(Drop)]
pub enum Item<'a> {
    Token(Gap, Token),
    Part(Part<'a>),
}

/// The tokens of a query, or of a part of one that ends with it, as far as they are written;
/// contracts see the list of all of them.
#[derive(Drop)]
pub struct Draft<'a> {
    /// The last item first.
    items: Vec<Item<'a>>,
}

impl<'a> Model for Draft<'a> {
    ghost use Rattle.std.specs.Prelude.{List};
    ghost use Rattle.expr_keys.specs.declared.tokens.Token.{Token};
    ghost use Rattle.expr_drafts.specs.Written.{written};

    ghost Value = { List Token };

    ghost view = { λ d. written d.items.items };
}

/// The front of an element as one within the content of another; every other token as it is.
fn inner(token: Token) -> Token
    ensures { result ≡ inner token }
{
    match token {
        Token::StartTagOpen(prefix, local) => Token::ChildTagOpen(prefix, local),
        other => other,
    }
}

impl<'a> Draft<'a> {
    /// No tokens.
    pub fn new(alloc: Global) -> Draft<'a>
        ensures { result ≡ [] }
    {
        Draft {
            items: Vec::new(alloc),
        }
    }

    /// Puts the tokens of an item before all others.
    #[tactic(auto, using(crate::proofs::Pushed::pushed))]
    fn push_item(&mut self, item: Item<'a>) -> Result<(), AllocError>
        ensures { OnOk result (self.new ≡ item_tokens item.entry self.old) }
    {
        self.items.push(item)?;
        Ok(())
    }

    /// Puts a token before all others, with what is wanted before it.
    pub fn push(&mut self, gap: Gap, token: Token) -> Result<(), AllocError>
        ensures { OnOk result (self.new ≡ token ∷ self.old) }
    {
        self.push_item(Item::Token(gap, token))
    }

    /// Puts a key before all other tokens, with what is wanted before it.
    pub fn push_key(&mut self, gap: Gap, key: Key) -> Result<(), AllocError>
        ensures { OnOk result (self.new ≡ token_of.Key key ∷ self.old) }
    {
        self.push(gap, Token::Key(key))
    }

    /// Puts an expression before all tokens, in parentheses where it binds more loosely than the
    /// place.
    /// (XPath 2.0, A.4; XQuery 1.0, A.4)
    pub fn push_part(
        &mut self,
        prefixes: &'a NamePrefixes,
        at: Spot,
        place: u8,
        e: &'a Expr,
    ) -> Result<(), AllocError>
        ensures { OnOk result (self.new ≡ said place (form_of prefixes.now e.now) self.old) }
    {
        self.push_item(Item::Part(Part {
            prefixes,
            at,
            place: Some(place),
            inner: false,
            e,
        }))
    }

    /// Puts an expression before all tokens, without parentheses.
    /// (XPath 2.0, A; XQuery 1.0, A)
    pub fn push_expr(
        &mut self,
        prefixes: &'a NamePrefixes,
        at: Spot,
        e: &'a Expr,
    ) -> Result<(), AllocError>
        ensures { OnOk result (self.new ≡ (form_of prefixes.now e.now).tokens self.old) }
    {
        self.push_item(Item::Part(Part {
            prefixes,
            at,
            place: None,
            inner: false,
            e,
        }))
    }

    /// Takes the first item away.
    #[tactic(auto, using(crate::proofs::Pushed::pushed))]
    pub fn pop(&mut self) -> Option<Item<'a>>
        ensures { MatchOption result ((self.old ≡ []) × (self.new ≡ []))
            (λ item. self.old ≡ item_tokens item self.new) }
    {
        match self.items.pop() {
            None => None,
            Some(item) => Some(item),
        }
    }

    /// Makes the first token, where it is the front of an element, one within the content of
    /// another.
    /// (XQuery 1.0, 3.7.1.3)
    #[tactic(auto, using(crate::proofs::Pushed::part_inner))]
    pub fn make_inner(&mut self) -> Result<(), AllocError>
        ensures { OnOk result (self.new ≡ with_inner self.old) }
    {
        match self.pop() {
            None => Ok(()),
            Some(Item::Token(gap, token)) => self.push(gap, inner(token)),
            Some(Item::Part(part)) => self.push_inner(part),
        }
    }

    /// Puts an expression before all tokens as one within the content of an element.
    #[tactic(auto, using(crate::proofs::Pushed::part_inner))]
    fn push_inner(&mut self, part: Part<'a>) -> Result<(), AllocError>
        ensures { OnOk result (self.new
            ≡ with_inner (item_tokens (item_of.Part part.entry) self.old)) }
    {
        self.push_item(Item::Part(Part {
            prefixes: part.prefixes,
            at: part.at,
            place: part.place,
            inner: true,
            e: part.e,
        }))
    }
}
