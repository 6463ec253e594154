// Operators between two operands.
ghost use Rattle.std.specs.Prelude.{◌≡◌, ◌∷◌, ◌&&◌, List};
ghost use Rattle.xt_syntax.specs.declared.exprs.Expr.{Expr as ExprOf};
ghost use Rattle.expr_keys.specs.declared.tokens.Token.{Token};
ghost use Rattle.expr_keys.specs.declared.tokens.Token.TheVariants as token_of;
ghost use Rattle.expr_raws.specs.PathRaws.Forms.{below, said};
ghost use Rattle.expr_keys.specs.declared.keys.Key.TheVariants as key_of;
ghost use Rattle.expr_raws.specs.ControlRaws.Operators.{compare_key, value_key, is_mark, operand_tokens};
ghost use Rattle.expr_raws.specs.ControlRaws.Operators.{arithmetic};
ghost use Rattle.expr_raws.specs.Raws.{form_of};

use crate::expr_places::places::{PATH, PRIMARY, STEP, is_unmarked, of_level};
use expr_terms::{Key, Level, tight};
use xt_names::{ArithOp, CompareOp};
use xt_syntax::{Expr, Prefixes};

/// An operator, and the places of what stands beside it without parentheses.
#[derive(Clone, Copy)]
pub struct Operator {
    /// The greatest place of a left operand without parentheses.
    pub left: u8,
    pub key: Key,
    /// The greatest place of a right operand without parentheses.
    pub right: u8,
}

/// An operator that has none of its level beside it.
/// (XPath 2.0, A.4)
pub fn once(level: Level, key: Key) -> Operator
    ensures { result ≡ record { left = below level; key = key; right = below level } }
{
    Operator {
        left: tight(level),
        key,
        right: tight(level),
    }
}

fn is_mark(key: Key) -> bool
    ensures { result ≡ is_mark key }
{
    matches!(key, Key::Star | Key::Plus)
}

/// Whether the operand ends in a type that would take the operator after it for its mark.
/// (XPath 2.0, A.1.2)
fn takes_mark(prefixes: &Prefixes, key: Key, a: &Expr) -> bool
    ensures { result ≡ (is_mark key && (form_of prefixes.now a.now).unmarked) }
{
    if is_mark(key) {
        is_unmarked(prefixes, a)
    } else {
        false
    }
}

/// The greatest place of a left operand without parentheses, where it may be of the level.
fn left_place(prefixes: &Prefixes, level: Level, key: Key, a: &Expr) -> u8
    ensures { (ts : List Token) → said result (form_of prefixes.now a.now) ts
        ≡ operand_tokens level key (form_of prefixes.now a.now) ts }
{
    if takes_mark(prefixes, key, a) {
        PRIMARY
    } else {
        of_level(level)
    }
}

/// An operator that may have others of its level in its left operand; where that one ends in a type
/// which would take the operator for its mark, it is in parentheses.
/// (XPath 2.0, A.1.2 and A.4)
pub fn chained(prefixes: &Prefixes, level: Level, key: Key, a: &Expr) -> Operator
    ensures left { (ts : List Token) → said result.left (form_of prefixes.now a.now) ts
        ≡ operand_tokens level key (form_of prefixes.now a.now) ts }
    ensures key { result.key ≡ key }
    ensures right { result.right ≡ below level }
{
    Operator {
        left: left_place(prefixes, level, key, a),
        key,
        right: tight(level),
    }
}

/// An arithmetic operator after this operand.
/// (XPath 2.0, 3.4)
pub fn arithmetic(prefixes: &Prefixes, op: ArithOp, a: &Expr) -> Operator
    ensures { (b : ExprOf) (ts : List Token)
        → said result.left (form_of prefixes.now a.now) (token_of.Key result.key
        ∷ said result.right (form_of prefixes.now b) ts)
        ≡ (arithmetic op (form_of prefixes.now a.now) (form_of prefixes.now b)).tokens ts }
{
    match op {
        ArithOp::Add => chained(prefixes, Level::Additive, Key::Plus, a),
        ArithOp::Sub => chained(prefixes, Level::Additive, Key::Minus, a),
        ArithOp::Mul => chained(prefixes, Level::Multiplicative, Key::Star, a),
        ArithOp::Idiv => chained(prefixes, Level::Multiplicative, Key::IdivWord, a),
        ArithOp::Mod => chained(prefixes, Level::Multiplicative, Key::ModWord, a),
    }
}

/// `/` after something that is not the root alone.
/// (XPath 2.0, 3.2)
pub fn slash() -> Operator
    ensures { result ≡ record { left = 2; key = key_of.Slash; right = 1 } }
{
    Operator {
        left: PATH,
        key: Key::Slash,
        right: STEP,
    }
}

/// The symbol of a general comparison.
/// (XPath 2.0, 3.5.2)
pub fn compare_key(op: CompareOp) -> Key
    ensures { result ≡ compare_key op }
{
    match op {
        CompareOp::Eq => Key::Equal,
        CompareOp::Ne => Key::NotEqual,
        CompareOp::Lt => Key::Less,
        CompareOp::Le => Key::LessEqual,
        CompareOp::Gt => Key::Greater,
        CompareOp::Ge => Key::GreaterEqual,
    }
}

/// The word of a value comparison.
/// (XPath 2.0, 3.5.1)
pub fn value_key(op: CompareOp) -> Key
    ensures { result ≡ value_key op }
{
    match op {
        CompareOp::Eq => Key::EqWord,
        CompareOp::Ne => Key::NeWord,
        CompareOp::Lt => Key::LtWord,
        CompareOp::Le => Key::LeWord,
        CompareOp::Gt => Key::GtWord,
        CompareOp::Ge => Key::GeWord,
    }
}
