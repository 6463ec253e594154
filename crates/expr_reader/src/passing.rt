// Values that pass through open productions which add nothing to them. Below an operand some twenty
// are open, one for each level of operators, and most tokens go on with none of them.
ghost use Rattle.std.specs.Prelude.{◌≡◌, ◌≤◌, ◌∷◌, List, None, drop, take, length, true};
ghost use Rattle.expr_terms.specs.declared.choices.Second.{Second};
ghost use Rattle.expr_keys.specs.declared.productions.Language.{Language};
ghost use Rattle.expr_terms.specs.declared.raws.Raw.{Raw as Value};
ghost use Rattle.expr_keys.specs.declared.productions.Nonterminal.TheVariants.{Tail as tail};
ghost use Rattle.expr_terms.specs.Productions.{body};
ghost use Rattle.expr_grammar.specs.Machine.{Frame as Open, descend, deep, along, through, advance};
ghost use Rattle.expr_reader.specs.View.{frame_of, frames_of, with_value};

use crate::frames::Frame;
use crate::parts::symbol;
use expr_terms::{
    Class, Key, Level, Nonterminal, Production, Symbol, Token, binding_power, fits, fits_key,
    passes, tight,
};

/// Whether the token is no operator of the level.
#[tactic(auto, using(crate::proofs::PassingLemmas::refusals))]
fn refuses_tail(level: Level, token: &Token) -> bool
    ensures { result ≡ true → (l : Language) (s : Second) (fs : List Open) →
        descend l deep (tail level) token.now s fs ≡ None }
{
    match level {
        Level::InstanceOf => !fits_key(Key::InstanceWord, token),
        Level::Treat => !fits_key(Key::TreatWord, token),
        Level::Castable => !fits_key(Key::CastableWord, token),
        Level::Cast => !fits_key(Key::CastWord, token),
        _ => binding_power(token) != tight(level),
    }
}

/// Whether the token is known not to begin the nonterminal.
#[tactic(auto, using(crate::proofs::PassingLemmas::refusals))]
pub fn refuses(nonterminal: Nonterminal, token: &Token) -> bool
    ensures { result ≡ true → (l : Language) (s : Second) (fs : List Open) → descend l deep nonterminal token.now s fs ≡ None }
{
    match nonterminal {
        Nonterminal::Tail(level) => refuses_tail(level, token),
        Nonterminal::CommaExprSingle => !fits(Class::Key(Key::Comma), token),
        Nonterminal::Predicate => !fits(Class::Key(Key::OpenBracket), token),
        Nonterminal::StepMore => {
            !fits(Class::Key(Key::Slash), token) && !fits(Class::Key(Key::Slashes), token)
        }
        _ => false,
    }
}

/// Whether the production is known not to go on with the token from the place on.
#[tactic(auto, using(crate::proofs::PassingLemmas::stops))]
fn stops(production: Production, place: usize, token: &Token) -> bool
    ensures { result ≡ true → (l : Language) (s : Second) (vs : List Value) (fs : List Open) → along l token.now s production vs fs (drop place (body production)) ≡ through }
{
    match symbol(production, place) {
        None => true,
        Some(Symbol::Maybe(inner)) | Some(Symbol::Many(inner)) => {
            refuses(inner, token) && symbol(production, place + 1).is_none()
        }
        _ => false,
    }
}

/// Whether a value that is given to the production passes it, since the token does not go on with it.
#[tactic(auto, using(crate::proofs::PassingLemmas::passings))]
fn passes_on(frame: &Frame, token: &Token) -> bool
    ensures { result ≡ true → (l : Language) (s : Second) (v : Value) (fs : List Open) → advance l token.now s (with_value v (frame_of frame.now ∷ fs)) ≡ advance l token.now s (with_value v fs) }
{
    match frame.production {
        Production::OperatorChain(level) if frame.place == 1 => {
            frame.kids.is_empty() && refuses_tail(level, token)
        }
        production => {
            frame.kids.is_empty() && passes(production) && stops(production, frame.place, token)
        }
    }
}

/// How many of the productions are left below those that a value passes.
#[tactic(auto, using(crate::proofs::PassingLemmas::counts))]
fn left_below(frames: &[Frame], token: &Token) -> usize
    ensures fits { result ≤ length frames.now }
    ensures same { (l : Language) (s : Second) (v : Value) → advance l token.now s (with_value v (frames_of frames.now)) ≡ advance l token.now s (with_value v (frames_of (take result frames.now))) }
{
    let mut count = frames.len();
    while count > 0 && passes_on(&frames[count - 1], token) {
        count -= 1;
    }
    count
}

/// Closes the productions that a value passes.
pub fn pass_up(frames: &mut Vec<Frame>, token: &Token)
    ensures fewer { length frames.new.items ≤ length frames.old.items }
    ensures same { (l : Language) (s : Second) (v : Value) → advance l token.now s (with_value v (frames_of frames.old.items)) ≡ advance l token.now s (with_value v (frames_of frames.new.items)) }
{
    let count = left_below(frames.as_slice(), token);
    frames.truncate(count);
}
