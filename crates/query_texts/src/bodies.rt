// The body of a query, token by token. What is read of it is led on where it stands and never moved,
// since a body may have millions of tokens.
ghost use Rattle.std.specs.Prelude.{◌≡◌, ℕ, Bool, List, IfOk};
ghost use Rattle.expr_keys.specs.declared.tokens.Token.{Token as Term};
ghost use Rattle.query_grammar.specs.declared.declared.Declared.{Declared};
ghost use Rattle.query_grammar.specs.Machine.{Mode, wants};
ghost use Rattle.query_reader.specs.QuerySteps.Stands.{Stands};
ghost use Rattle.query_reader.specs.declared.query_steps.stages.ReaderState.TheVariants.{Body};
ghost use Rattle.query_pieces.specs.Points.{Point};
ghost use Rattle.query_pieces.specs.Aheads.{Sees};
ghost use Rattle.query_pieces.specs.Readings.{Reads};
ghost use Rattle.query_texts.specs.declared.orders.Order.{Order};
ghost use Rattle.query_texts.specs.Standings.{Standing, progress};
ghost use Rattle.query_texts.specs.Bodies.{Led, IsShorter, SeesOn, Rests};

use expr_reader::ExprParser;
use query_pieces::{Ahead, Found, Pieces, asks, second};
use query_reader::wants_operand;
use std::alloc::{AllocError, Global};

/// What comes of a token of the body.
enum Step<'a> {
    /// No query goes on so.
    Refused,
    /// There is no token.
    Over,
    /// The body goes on, and this is seen of the rest.
    Onto(Option<Ahead<'a>>),
}

/// Whether an operand may come next, where that matters.
fn operand_in(reader: &ExprParser, ahead: Option<Ahead<'_>>) -> bool
    ensures { (p : Point) → Sees p ahead.entry → (k : ℕ) (m : Mode) (ts : List Term)
        → Stands k (Body reader.now) m ts → (t : Term) (q : Point) → Reads (wants m) p t q
        → Reads result p t q }
{
    asks(ahead) && wants_operand(reader)
}

/// Reads one token of the body on, of which this is seen.
fn body_token<'a>(
    alloc: Global,
    pieces: &mut Pieces<'a>,
    reader: &mut ExprParser,
    ahead: Option<Ahead<'a>>,
) -> Result<Step<'a>, AllocError>
    requires { Sees pieces.old ahead }
    ensures led { IfOk result (λ step. (k : ℕ) (text : List ℕ) (o : Order) (d : Bool)
        (ds : List Declared) → Standing k text (progress (Body reader.old) o d ds) pieces.old →
        Led k text step (progress (Body reader.new) o d ds) pieces.old pieces.new) }
    ensures shorter { IfOk result (λ step. IsShorter step pieces.old pieces.new) }
    ensures sees { IfOk result (λ step. SeesOn step pieces.new) }
{
    let operand = operand_in(reader, ahead);
    match pieces.read(alloc, operand, ahead)? {
        Found::Nothing => Ok(Step::Refused),
        Found::End => Ok(Step::Over),
        Found::Token(token) => {
            let seen = pieces.ahead();
            let went = reader.advance(alloc, &token, second(seen));
            drop(token);
            if went? {
                Ok(Step::Onto(seen))
            } else {
                Ok(Step::Refused)
            }
        }
    }
}

/// Reads the body, of which this is read, to the end of the text; None where no query goes on so.
pub(crate) fn body_rest<'a>(
    alloc: Global,
    pieces: &mut Pieces<'a>,
    reader: ExprParser,
    ahead: Option<Ahead<'a>>,
) -> Result<Option<ExprParser>, AllocError>
    requires { Sees pieces.old ahead }
    ensures { IfOk result (λ found. (k : ℕ) (text : List ℕ) (o : Order) (d : Bool)
        (ds : List Declared) → Standing k text (progress (Body reader) o d ds) pieces.old →
        Rests k text found o d ds) }
{
    let mut reader = reader;
    let mut ahead = ahead;
    loop {
        match body_token(alloc, pieces, &mut reader, ahead)? {
            Step::Refused => return Ok(None),
            Step::Over => return Ok(Some(reader)),
            Step::Onto(seen) => ahead = seen,
        }
    }
}
