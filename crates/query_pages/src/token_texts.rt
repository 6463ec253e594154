//! The text of the tokens of a query (XQuery 1.0, 3.7.1 and A.2). Definitions and a law alone.
//!
//! `specs/Spellings` says how each token and each piece of a direct element is written,
//! `specs/Texts` what is between them: white space that a layout chooses between tokens, and
//! nothing between pieces. `specs/Written` says which tokens can be written. The law says that the
//! text of such tokens is split into them, whatever the layout.

ghost use Rattle.std.specs.Prelude.{◌≡◌, List, true};
ghost use Rattle.expr_keys.specs.declared.tokens.Token.{Token};
ghost use Rattle.query_pieces.specs.Points.{start};
ghost use Rattle.query_pieces.specs.Readings.{Splits};
ghost use Rattle.query_pages.specs.TokenTexts.Texts.{Layout, IsLayout, text_of};
ghost use Rattle.query_pages.specs.TokenTexts.Written.{is_written};

/// The text of tokens that can be written is split into them.
/// (XQuery 1.0, 3.7.1 and A.2)
pub fn text_splits()
    ensures { (layout : Layout) (ts : List Token) → IsLayout layout → is_written ts ≡ true
        → Splits (start (text_of layout ts)) ts }
{}
