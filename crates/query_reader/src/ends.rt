// Where an expression may end.
ghost use Rattle.std.specs.Prelude.{◌≡◌, List, is_some, drop};
ghost use Rattle.std.specs.List.{list_all};
ghost use Rattle.expr_keys.specs.declared.tokens.Token.{Token};
ghost use Rattle.expr_grammar.specs.Machine.{Frame as Open, skips, finish};
ghost use Rattle.expr_reader.specs.Tracks.{Tracks};
ghost use Rattle.expr_reader.specs.View.{frames_of};
ghost use Rattle.query_reader.specs.Wanted.{is_done};

use crate::places::behind;
use expr_reader::{ExprParser, Frame};
use expr_terms::Symbol;

/// Whether nothing more is wanted.
#[cycle(skips)]
fn skips(symbols: &[Symbol]) -> bool
    ensures { result ≡ skips symbols.now }
{
    match symbols {
        [] => true,
        [symbol, rest @ ..] => match *symbol {
            Symbol::Tok(_) => false,
            Symbol::One(_) => false,
            Symbol::Maybe(_) => skips(rest),
            Symbol::Many(_) => skips(rest),
            Symbol::Longest(_) => skips(rest),
        },
    }
}

/// Whether the production wants nothing more.
fn is_done(frame: &Frame) -> bool
    ensures { result ≡ is_done frame.now }
{
    skips(behind(frame.production, frame.place))
}

fn are_done(frames: &[Frame]) -> bool
    ensures { result ≡ list_all is_done frames.now }
{
    frames.iter().all(|frame| is_done(frame))
}

#[tactic(auto, using(crate::proofs::EndLemmas::done))]
fn ends_in(frames: &[Frame]) -> bool
    ensures { result ≡ is_some (finish (frames_of frames.now)) }
{
    !frames.is_empty() && are_done(frames)
}

/// Whether the expression may end here: then a `}` closes what stands around it and is no part of
/// it.
#[tactic(auto, using(crate::proofs::EndLemmas::done))]
pub fn may_end(reader: &ExprParser) -> bool
    ensures { (fs : List Open) (ts : List Token) → Tracks reader.now fs ts →
        result ≡ is_some (finish fs) }
{
    ends_in(reader.open())
}
