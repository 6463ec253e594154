// Descending from what is wanted to the token.
ghost use Rattle.std.specs.Prelude.{◌≡◌, ◌∷◌, Some, IfOk};
ghost use Rattle.expr_terms.specs.Choices.{starter_of, pick, choose};
ghost use Rattle.expr_terms.specs.Productions.{below};
ghost use Rattle.expr_keys.specs.declared.productions.Nonterminal.TheVariants.{Level as at_level};
ghost use Rattle.expr_grammar.specs.Machine.{descend, deep};
ghost use Rattle.expr_reader.specs.View.{frame_of, frames_of, Entered, Fronted, Opened, Tried};

use crate::frames::Frame;
use crate::parts::{opened, symbol, with_token};
use expr_terms::{
    Key, Language, Level, Nonterminal, Production, Second, Starter, Symbol, Token, fits, fits_key,
    pick, speaks, starter_of,
};
use std::alloc::{AllocError, Global};

/// What the front of a nonterminal is.
pub enum Front {
    Absent,
    Begun,
    Below(Nonterminal),
}

/// The production of the nonterminal that the token begins, where it is known what the token begins.
fn chosen(nonterminal: Nonterminal, token: &Token, starter: Starter) -> Option<Production>
    ensures { (s : Second) → starter ≡ starter_of token.now s → result ≡ choose nonterminal token.now s }
{
    match nonterminal {
        Nonterminal::OrderByClause => {
            if fits_key(Key::StableWord, token) {
                Some(Production::StableOrderBy)
            } else {
                Some(Production::OrderBy)
            }
        }
        _ => pick(nonterminal, starter),
    }
}

/// What is at the front of a level of operators: the level that binds next more tightly.
fn tighter(level: Level) -> Nonterminal
    ensures { result ≡ below level }
{
    match level {
        Level::Or => Nonterminal::Level(Level::And),
        Level::And => Nonterminal::Level(Level::Comparison),
        Level::Comparison => Nonterminal::Level(Level::Range),
        Level::Range => Nonterminal::Level(Level::Additive),
        Level::Additive => Nonterminal::Level(Level::Multiplicative),
        Level::Multiplicative => Nonterminal::Level(Level::Union),
        Level::Union => Nonterminal::Level(Level::Intersect),
        Level::Intersect => Nonterminal::Level(Level::InstanceOf),
        Level::InstanceOf => Nonterminal::Level(Level::Treat),
        Level::Treat => Nonterminal::Level(Level::Castable),
        Level::Castable => Nonterminal::Level(Level::Cast),
        Level::Cast => Nonterminal::UnaryExpr,
    }
}

/// Opens a level of operators. Some twelve are opened below an operand, so that this looks no table up.
#[tactic(auto, using(crate::proofs::ViewLemmas::views))]
fn open_level(
    alloc: Global,
    frames: &mut Vec<Frame>,
    level: Level,
    starter: Starter,
) -> Result<Front, AllocError>
    ensures { IfOk result (λ front. (l : Language) (t : Token) →
        Entered front l (pick (at_level level) starter) t frames.old.items frames.new.items) }
{
    match pick(Nonterminal::Level(level), starter) {
        None => Ok(Front::Absent),
        Some(_) => {
            let frame = opened(alloc, Production::OperatorChain(level), 1);
            frames.push(frame)?;
            Ok(Front::Below(tighter(level)))
        }
    }
}

/// Opens the production, whose first part the token may be.
#[tactic(auto, using(crate::proofs::ViewLemmas::views))]
fn open_production(
    alloc: Global,
    frames: &mut Vec<Frame>,
    language: Language,
    production: Production,
    token: &Token,
) -> Result<Front, AllocError>
    ensures { IfOk result (λ front.
        Entered front language (Some production) token.now frames.old.items frames.new.items) }
{
    if !speaks(language, production) {
        return Ok(Front::Absent);
    }
    match symbol(production, 0) {
        Some(Symbol::Tok(class)) => {
            if !fits(class, token) {
                return Ok(Front::Absent);
            }
            let frame = opened(alloc, production, 0);
            frames.push(with_token(frame, class, token)?)?;
            Ok(Front::Begun)
        }
        Some(Symbol::One(inner)) => {
            frames.push(opened(alloc, production, 1))?;
            Ok(Front::Below(inner))
        }
        Some(Symbol::Maybe(_)) | Some(Symbol::Many(_)) | Some(Symbol::Longest(_)) | None => Ok(
            Front::Absent,
        ),
    }
}

/// Opens the production that the tokens begin.
#[tactic(auto, using(crate::proofs::ViewLemmas::views))]
fn open_front(
    alloc: Global,
    frames: &mut Vec<Frame>,
    language: Language,
    nonterminal: Nonterminal,
    token: &Token,
    starter: Starter,
) -> Result<Front, AllocError>
    ensures { IfOk result (λ front. (s : Second) → starter ≡ starter_of token.now s →
        Fronted front language nonterminal token.now s frames.old.items frames.new.items) }
{
    match nonterminal {
        Nonterminal::Level(level) => open_level(alloc, frames, level, starter),
        _ => match chosen(nonterminal, token, starter) {
            None => Ok(Front::Absent),
            Some(production) => open_production(alloc, frames, language, production, token),
        },
    }
}

/// Opens the nonterminal down to the token; where it does not begin so, nothing is opened.
#[cycle(descend)]
#[tactic(auto, using(crate::proofs::ViewLemmas::views))]
fn descend(
    alloc: Global,
    frames: &mut Vec<Frame>,
    depth: u8,
    language: Language,
    nonterminal: Nonterminal,
    token: &Token,
    starter: Starter,
) -> Result<bool, AllocError>
    ensures { IfOk result (λ found. (s : Second) → starter ≡ starter_of token.now s →
        Opened found (descend language depth nonterminal token.now s (frames_of frames.old.items)) frames.old.items frames.new.items) }
{
    if depth == 0 {
        return Ok(false);
    }
    match open_front(alloc, frames, language, nonterminal, token, starter)? {
        Front::Absent => Ok(false),
        Front::Begun => Ok(true),
        Front::Below(inner) => {
            if descend(alloc, frames, depth - 1, language, inner, token, starter)? {
                Ok(true)
            } else {
                frames.pop();
                Ok(false)
            }
        }
    }
}

/// How many nonterminals may be at the front of one another.
fn deep() -> u8
    ensures { result ≡ deep }
{
    50
}

/// Opens the nonterminal over the frame; where it does not begin so, the frame comes back.
#[tactic(auto, using(crate::proofs::ViewLemmas::views))]
pub fn try_below(
    alloc: Global,
    frames: &mut Vec<Frame>,
    frame: Frame,
    language: Language,
    nonterminal: Nonterminal,
    token: &Token,
    second: Second,
) -> Result<Option<Frame>, AllocError>
    ensures { IfOk result (λ tried. Tried tried (descend language deep nonterminal token.now second (frame_of frame ∷ frames_of frames.old.items)) frame frames.old.items frames.new.items) }
{
    frames.push(frame)?;
    let depth = deep();
    let starter = starter_of(token, second);
    if descend(alloc, frames, depth, language, nonterminal, token, starter)? {
        return Ok(None);
    }
    match frames.pop() {
        Some(frame) => Ok(Some(frame)),
        None => Ok(None),
    }
}
