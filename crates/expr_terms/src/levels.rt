// The productions of the levels of operators.
ghost use Rattle.std.specs.Prelude.{◌≡◌};
ghost use Rattle.expr_terms.specs.Productions.{body, operator_chain, operation};

use expr_keys::{Class, Key, Level, Nonterminal, Symbol};

/// The parts of a level.
pub fn chain_body(level: Level) -> &'static [Symbol]
    ensures { result.now ≡ body (operator_chain level) }
{
    match level {
        Level::Or => &[
            Symbol::One(Nonterminal::Level(Level::And)),
            Symbol::Many(Nonterminal::Tail(Level::Or)),
        ],
        Level::And => &[
            Symbol::One(Nonterminal::Level(Level::Comparison)),
            Symbol::Many(Nonterminal::Tail(Level::And)),
        ],
        Level::Comparison => &[
            Symbol::One(Nonterminal::Level(Level::Range)),
            Symbol::Maybe(Nonterminal::Tail(Level::Comparison)),
        ],
        Level::Range => &[
            Symbol::One(Nonterminal::Level(Level::Additive)),
            Symbol::Maybe(Nonterminal::Tail(Level::Range)),
        ],
        Level::Additive => &[
            Symbol::One(Nonterminal::Level(Level::Multiplicative)),
            Symbol::Many(Nonterminal::Tail(Level::Additive)),
        ],
        Level::Multiplicative => &[
            Symbol::One(Nonterminal::Level(Level::Union)),
            Symbol::Many(Nonterminal::Tail(Level::Multiplicative)),
        ],
        Level::Union => &[
            Symbol::One(Nonterminal::Level(Level::Intersect)),
            Symbol::Many(Nonterminal::Tail(Level::Union)),
        ],
        Level::Intersect => &[
            Symbol::One(Nonterminal::Level(Level::InstanceOf)),
            Symbol::Many(Nonterminal::Tail(Level::Intersect)),
        ],
        Level::InstanceOf => &[
            Symbol::One(Nonterminal::Level(Level::Treat)),
            Symbol::Maybe(Nonterminal::Tail(Level::InstanceOf)),
        ],
        Level::Treat => &[
            Symbol::One(Nonterminal::Level(Level::Castable)),
            Symbol::Maybe(Nonterminal::Tail(Level::Treat)),
        ],
        Level::Castable => &[
            Symbol::One(Nonterminal::Level(Level::Cast)),
            Symbol::Maybe(Nonterminal::Tail(Level::Castable)),
        ],
        Level::Cast => &[
            Symbol::One(Nonterminal::UnaryExpr),
            Symbol::Maybe(Nonterminal::Tail(Level::Cast)),
        ],
    }
}

/// The parts of what may follow at a level.
pub fn operation(level: Level) -> &'static [Symbol]
    ensures { result.now ≡ operation level }
{
    match level {
        Level::Or => &[
            Symbol::Tok(Class::Operator(Level::Or)),
            Symbol::One(Nonterminal::Level(Level::And)),
        ],
        Level::And => &[
            Symbol::Tok(Class::Operator(Level::And)),
            Symbol::One(Nonterminal::Level(Level::Comparison)),
        ],
        Level::Comparison => &[
            Symbol::Tok(Class::Operator(Level::Comparison)),
            Symbol::One(Nonterminal::Level(Level::Range)),
        ],
        Level::Range => &[
            Symbol::Tok(Class::Operator(Level::Range)),
            Symbol::One(Nonterminal::Level(Level::Additive)),
        ],
        Level::Additive => &[
            Symbol::Tok(Class::Operator(Level::Additive)),
            Symbol::One(Nonterminal::Level(Level::Multiplicative)),
        ],
        Level::Multiplicative => &[
            Symbol::Tok(Class::Operator(Level::Multiplicative)),
            Symbol::One(Nonterminal::Level(Level::Union)),
        ],
        Level::Union => &[
            Symbol::Tok(Class::Operator(Level::Union)),
            Symbol::One(Nonterminal::Level(Level::Intersect)),
        ],
        Level::Intersect => &[
            Symbol::Tok(Class::Operator(Level::Intersect)),
            Symbol::One(Nonterminal::Level(Level::InstanceOf)),
        ],
        Level::InstanceOf => &[
            Symbol::Tok(Class::Key(Key::InstanceWord)),
            Symbol::Tok(Class::Key(Key::OfWord)),
            Symbol::One(Nonterminal::SequenceType),
        ],
        Level::Treat => &[
            Symbol::Tok(Class::Key(Key::TreatWord)),
            Symbol::Tok(Class::Key(Key::AsWord)),
            Symbol::One(Nonterminal::SequenceType),
        ],
        Level::Castable => &[
            Symbol::Tok(Class::Key(Key::CastableWord)),
            Symbol::Tok(Class::Key(Key::AsWord)),
            Symbol::One(Nonterminal::SingleType),
        ],
        Level::Cast => &[
            Symbol::Tok(Class::Key(Key::CastWord)),
            Symbol::Tok(Class::Key(Key::AsWord)),
            Symbol::One(Nonterminal::SingleType),
        ],
    }
}
