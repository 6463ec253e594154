// How tightly expressions bind, and which end in a type without a mark.
ghost use Rattle.std.specs.Prelude.{◌≡◌, map};
ghost use Rattle.xt_syntax.specs.declared.exprs.Expr.{Expr as ExprOf};
ghost use Rattle.xt_syntax.specs.declared.prefixes.Prefixes.{Prefixes as PrefixesOf};
ghost use Rattle.expr_keys.specs.declared.keys.Key.{Key as KeyOf};
ghost use Rattle.expr_raws.specs.PathRaws.Forms.{of_level, ends_unmarked};
ghost use Rattle.expr_raws.specs.PathRaws.Paths.{filtered};
ghost use Rattle.expr_raws.specs.ControlRaws.Operators.{listed, many, arithmetic};
ghost use Rattle.expr_raws.specs.ControlRaws.Types.{sequence_form};
ghost use Rattle.expr_raws.specs.Raws.{form_of};
ghost use Rattle.expr_drafts.specs.ExprPlaces.Forms.{last_of_more};
ghost use Rattle.expr_drafts.specs.ExprPlaces.Roots.{is_root};

use expr_terms::Level;
use xt_names::ArithOp;
use xt_syntax::{Expr, Prefixes};
use xt_types::{Count, SeqType};

/// The place of a primary expression.
pub const PRIMARY: u8 = 0;

/// The place of a step.
pub const STEP: u8 = 1;

/// The place of a path.
pub const PATH: u8 = 2;

/// The place of an expression with a sign; those of the levels of operators follow, 4 to 15.
pub const SIGNS: u8 = 3;

/// The place of a conditional, a quantifier or a FLWOR expression.
pub const SINGLE: u8 = 16;

/// The place of a list of several items.
pub const LIST: u8 = 17;

/// The place of an operator of the level.
pub(crate) fn of_level(level: Level) -> u8
    ensures { result ≡ of_level level }
{
    match level {
        Level::Or => 15,
        Level::And => 14,
        Level::Comparison => 13,
        Level::Range => 12,
        Level::Additive => 11,
        Level::Multiplicative => 10,
        Level::Union => 9,
        Level::Intersect => 8,
        Level::InstanceOf => 7,
        Level::Treat => 6,
        Level::Castable => 5,
        Level::Cast => 4,
    }
}

fn place_of_operation(op: ArithOp) -> u8
    ensures { (p : PrefixesOf) (a b : ExprOf)
        → result ≡ (arithmetic op (form_of p a) (form_of p b)).place }
{
    match op {
        ArithOp::Add | ArithOp::Sub => of_level(Level::Additive),
        ArithOp::Mul | ArithOp::Idiv | ArithOp::Mod => of_level(Level::Multiplicative),
    }
}

/// The place of `or` or `and` between these.
fn place_of_many(level: Level, items: &[Expr]) -> u8
    ensures { (p : PrefixesOf) (k : KeyOf)
        → result ≡ (many level k (map (form_of p) items.now)).place }
{
    match items {
        [] => PRIMARY,
        [_] => PRIMARY,
        _ => of_level(level),
    }
}

fn place_of_list(items: &[Expr]) -> u8
    ensures { (p : PrefixesOf) → result ≡ (listed (map (form_of p) items.now)).place }
{
    match items {
        [] => PRIMARY,
        [_] => PRIMARY,
        _ => LIST,
    }
}

fn place_of_filter(tests: &[Expr]) -> u8
    ensures { (p : PrefixesOf) (a : ExprOf)
        → result ≡ (filtered (form_of p a) (map (form_of p) tests.now)).place }
{
    match tests {
        [] => PRIMARY,
        _ => STEP,
    }
}

/// The place of the expression, under any prefixes.
#[tactic(auto, using(crate::proofs::ExprPlaces::Leaves::places))]
fn place_of(e: &Expr) -> u8
    ensures { (p : PrefixesOf) → result ≡ (form_of p e.now).place }
{
    match e {
        Expr::Comma(items) => place_of_list(items.get().as_slice()),
        Expr::If(_, _) | Expr::Flwor(_) | Expr::Quant(_, _, _) => SINGLE,
        Expr::Or(items) => place_of_many(Level::Or, items.get().as_slice()),
        Expr::And(items) => place_of_many(Level::And, items.get().as_slice()),
        Expr::General(_, _, _) | Expr::Value(_, _, _) => of_level(Level::Comparison),
        Expr::Is(_, _) | Expr::Before(_, _) | Expr::After(_, _) => of_level(Level::Comparison),
        Expr::Range(_, _) => of_level(Level::Range),
        Expr::Arith(op, _, _) => place_of_operation(*op),
        Expr::Union(_, _) => of_level(Level::Union),
        Expr::Intersect(_, _) | Expr::Except(_, _) => of_level(Level::Intersect),
        Expr::InstanceOf(_, _) => of_level(Level::InstanceOf),
        Expr::Treat(_, _) => of_level(Level::Treat),
        Expr::Castable(_, _, _) => of_level(Level::Castable),
        Expr::Cast(_, _, _) => of_level(Level::Cast),
        Expr::Minus(_) | Expr::Plus(_) => SIGNS,
        Expr::Slash(_, _) => PATH,
        Expr::Step(_, _, _) => STEP,
        Expr::Filter(_, tests) => place_of_filter(tests.get().as_slice()),
        Expr::Int(_) | Expr::Str(_) | Expr::Var(_) | Expr::Context | Expr::Root => PRIMARY,
        Expr::Call(_, _) | Expr::Direct(_, _, _) => PRIMARY,
        Expr::ElemC(_, _) | Expr::AttrC(_, _) | Expr::PiC(_, _) => PRIMARY,
        Expr::DocC(_) | Expr::TextC(_) | Expr::CommentC(_) => PRIMARY,
    }
}

/// An expression as it is written under prefixes.
#[derive(Clone, Copy)]
pub struct Operand<'a> {
    pub prefixes: &'a Prefixes,
    pub e: &'a Expr,
}

impl<'a> Operand<'a> {
    /// How tightly it binds: its place.
    /// (XPath 2.0, A.4; XQuery 1.0, A.4)
    pub fn place(&self) -> u8
        ensures { result ≡ (form_of self.now.prefixes.now self.now.e.now).place }
    {
        place_of(self.e)
    }
}

fn is_bare(kind: &SeqType) -> bool
    ensures { (p : PrefixesOf) → result ≡ (sequence_form p kind.now).unmarked }
{
    match kind {
        SeqType::Empty => false,
        SeqType::Of(_, count) => matches!(count, Count::One),
    }
}

/// Whether an expression that ends in a type without a mark, or not, stands so in the place.
fn ends_unmarked(prefixes: &Prefixes, place: u8, e: &Expr, unmarked: bool) -> bool
    requires { unmarked ≡ (form_of prefixes.now e.now).unmarked }
    ensures { result ≡ ends_unmarked place (form_of prefixes.now e.now) }
{
    let operand = Operand { prefixes, e };
    if operand.place() <= place {
        unmarked
    } else {
        false
    }
}

/// Whether the expression ends in a type that would take a mark after it for its own.
/// (XPath 2.0, A.1.2)
#[cycle(unmarked)]
#[tactic(auto, using(crate::proofs::ExprPlaces::Leaves::unmarked))]
pub(crate) fn is_unmarked(prefixes: &Prefixes, e: &Expr) -> bool
    ensures { result ≡ (form_of prefixes.now e.now).unmarked }
{
    match e {
        Expr::Comma(items) => last_unmarked(prefixes, SINGLE, items.get().as_slice()),
        Expr::Or(items) => last_unmarked(prefixes, 14, items.get().as_slice()),
        Expr::And(items) => last_unmarked(prefixes, 13, items.get().as_slice()),
        Expr::If(_, a) | Expr::Quant(_, _, a) => part_unmarked(prefixes, SINGLE, a.get()),
        Expr::Flwor(f) => part_unmarked(prefixes, SINGLE, f.body.get()),
        Expr::General(_, _, b) | Expr::Value(_, _, b) => part_unmarked(prefixes, 12, b.get()),
        Expr::Is(_, b) | Expr::Before(_, b) | Expr::After(_, b) => {
            part_unmarked(prefixes, 12, b.get())
        }
        Expr::Range(_, b) => part_unmarked(prefixes, 11, b.get()),
        Expr::Arith(ArithOp::Add | ArithOp::Sub, _, b) => part_unmarked(prefixes, 10, b.get()),
        Expr::Arith(ArithOp::Mul | ArithOp::Idiv | ArithOp::Mod, _, b) => {
            part_unmarked(prefixes, 9, b.get())
        }
        Expr::Union(_, b) => part_unmarked(prefixes, 8, b.get()),
        Expr::Intersect(_, b) | Expr::Except(_, b) => part_unmarked(prefixes, 7, b.get()),
        Expr::Minus(a) | Expr::Plus(a) => part_unmarked(prefixes, SIGNS, a.get()),
        Expr::InstanceOf(_, kind) | Expr::Treat(_, kind) => is_bare(kind),
        Expr::Int(_) | Expr::Str(_) | Expr::Var(_) | Expr::Context | Expr::Root => false,
        Expr::Castable(_, _, _) | Expr::Cast(_, _, _) | Expr::Slash(_, _) => false,
        Expr::Step(_, _, _) | Expr::Filter(_, _) | Expr::Call(_, _) => false,
        Expr::ElemC(_, _) | Expr::AttrC(_, _) | Expr::PiC(_, _) => false,
        Expr::DocC(_) | Expr::TextC(_) | Expr::CommentC(_) | Expr::Direct(_, _, _) => false,
    }
}

/// Whether the part ends so where it stands: in parentheses it does not.
#[cycle(unmarked)]
fn part_unmarked(prefixes: &Prefixes, place: u8, part: &Expr) -> bool
    ensures { result ≡ ends_unmarked place (form_of prefixes.now part.now) }
{
    let unmarked = is_unmarked(prefixes, part);
    ends_unmarked(prefixes, place, part, unmarked)
}

/// Whether the last of two or more ends so.
#[cycle(unmarked)]
fn last_unmarked(prefixes: &Prefixes, place: u8, items: &[Expr]) -> bool
    ensures { result ≡ last_of_more place (map (form_of prefixes.now) items.now) }
{
    if items.len() < 2 {
        return false;
    }
    let last = &items[items.len() - 1];
    let unmarked = is_unmarked(prefixes, last);
    ends_unmarked(prefixes, place, last, unmarked)
}

/// Whether the expression is the root alone.
/// (XPath 2.0, 3.2)
pub fn is_root(e: &Expr) -> bool
    ensures { result ≡ is_root e.now }
{
    matches!(e, Expr::Root)
}
