// Where an operand may come next.
ghost use Rattle.std.specs.Prelude.{◌≡◌, ◌-◌, List, take, drop};
ghost use Rattle.expr_keys.specs.declared.tokens.Token.{Token};
ghost use Rattle.expr_keys.specs.Classes.{is_after_root};
ghost use Rattle.expr_terms.specs.Productions.{body};
ghost use Rattle.expr_grammar.specs.Machine.{Frame as Open};
ghost use Rattle.expr_reader.specs.Tracks.{Tracks};
ghost use Rattle.expr_reader.specs.View.{frames_of};
ghost use Rattle.query_grammar.specs.QueryPlaces.Places.{begins_operand, is_outer, wants_operand};
ghost use Rattle.query_reader.specs.Wanted.{Decides};

use expr_reader::{ExprParser, Frame};
use expr_terms::{Class, Nonterminal, Production, Symbol, body};

/// Whether an operand may be at the front of the nonterminal.
fn begins_operand(nonterminal: Nonterminal) -> bool
    ensures { result ≡ begins_operand nonterminal }
{
    match nonterminal {
        Nonterminal::Whole => true,
        Nonterminal::Expr => true,
        Nonterminal::Arguments => true,
        Nonterminal::ExprSingle => true,
        Nonterminal::OrderSpec => true,
        Nonterminal::Level(_) => true,
        Nonterminal::UnaryExpr => true,
        Nonterminal::PathExpr => true,
        Nonterminal::AfterRoot => true,
        Nonterminal::RelativePathExpr => true,
        Nonterminal::StepExpr => true,
        Nonterminal::PrimaryExpr => true,
        Nonterminal::DirElemConstructor => true,
        _ => false,
    }
}

fn is_outer(class: Class) -> bool
    ensures { result ≡ is_outer class }
{
    match class {
        Class::StartTagOpen => true,
        _ => false,
    }
}

fn is_after_root(nonterminal: Nonterminal) -> bool
    ensures { result ≡ is_after_root nonterminal }
{
    match nonterminal {
        Nonterminal::AfterRoot => true,
        _ => false,
    }
}

/// What is still wanted of the production.
#[tactic(auto, using(crate::proofs::WantLemmas::rests))]
pub(crate) fn behind(production: Production, place: usize) -> &'static [Symbol]
    ensures { result.now ≡ drop place (body production) }
{
    let parts = body(production);
    if place < parts.len() {
        &parts[place..]
    } else {
        &[]
    }
}

/// Whether an operand may come next where this is wanted; None where what is open below decides.
#[tactic(auto, using(crate::proofs::WantLemmas::decided))]
#[cycle(wanted)]
fn wanted(symbols: &[Symbol]) -> Option<bool>
    ensures { Decides result symbols.now }
{
    match symbols {
        [] => None,
        [symbol, rest @ ..] => match *symbol {
            Symbol::Tok(class) => Some(is_outer(class)),
            Symbol::One(inner) => Some(begins_operand(inner)),
            Symbol::Maybe(inner) => {
                if begins_operand(inner) {
                    Some(true)
                } else {
                    wanted(rest)
                }
            }
            Symbol::Many(inner) => {
                if begins_operand(inner) {
                    Some(true)
                } else {
                    wanted(rest)
                }
            }
            Symbol::Longest(inner) => {
                if is_after_root(inner) {
                    Some(true)
                } else {
                    wanted(rest)
                }
            }
        },
    }
}

/// Whether an operand may come next where these productions are open, the topmost last.
#[tactic(auto, using(crate::proofs::WantLemmas::frames))]
fn wanted_in(frames: &[Frame]) -> bool
    ensures { result ≡ wants_operand (frames_of frames.now) }
{
    let mut i = frames.len();
    while i > 0 {
        i -= 1;
        let frame = &frames[i];
        if let Some(decided) = wanted(behind(frame.production, frame.place)) {
            return decided;
        }
    }
    false
}

/// Whether an operand may come next in the expression, so that `<` directly before a name begins a
/// direct element there (XQuery 1.0, 3.7.1).
#[tactic(auto, using(crate::proofs::WantLemmas::tracked))]
pub fn wants_operand(reader: &ExprParser) -> bool
    ensures { (fs : List Open) (ts : List Token) → Tracks reader.now fs ts →
        result ≡ wants_operand fs }
{
    wanted_in(reader.open())
}
