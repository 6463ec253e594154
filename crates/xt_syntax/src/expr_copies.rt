// Copies share the parts.
ghost use Rattle.std.specs.Prelude.{◌≡◌, IfOk};
ghost use Rattle.xt_syntax.specs.declared.exprs.Expr.TheVariants.{If, Quant, Step, Filter, Call, Direct};

use crate::exprs::{Arm, Bind, Clause, DirectAttr, Expr, Flwor, NameSource, Order, Part};
use crate::options::copy_shared_option;
use std::alloc::AllocError;
use xt_names::{ExprName, List, Name, Share, Shared, copy_list};
use xt_types::{Axis, SeqType, Test, copy_option};

impl Expr {
    /// The same expression.
    pub fn copy(&self) -> Result<Expr, AllocError>
        ensures { IfOk result (λ copy. copy ≡ self.now) }
    {
        match self {
            Expr::Int(n) => Ok(Expr::Int(*n)),
            Expr::Str(text) => Ok(Expr::Str(text.copy()?)),
            Expr::Var(name) => Ok(Expr::Var(name.copy()?)),
            Expr::Context => Ok(Expr::Context),
            Expr::Root => Ok(Expr::Root),
            Expr::Comma(all) => Ok(Expr::Comma(all.copy()?)),
            Expr::Or(all) => Ok(Expr::Or(all.copy()?)),
            Expr::And(all) => Ok(Expr::And(all.copy()?)),
            Expr::If(arms, other) => copy_if(arms, other),
            Expr::Flwor(parts) => Ok(Expr::Flwor(parts.copy()?)),
            Expr::Quant(every, binds, test) => copy_quant(*every, binds, test),
            Expr::General(op, a, b) => {
                let (a, b) = copy_pair(a, b)?;
                Ok(Expr::General(*op, a, b))
            }
            Expr::Value(op, a, b) => {
                let (a, b) = copy_pair(a, b)?;
                Ok(Expr::Value(*op, a, b))
            }
            Expr::Is(a, b) => {
                let (a, b) = copy_pair(a, b)?;
                Ok(Expr::Is(a, b))
            }
            Expr::Before(a, b) => {
                let (a, b) = copy_pair(a, b)?;
                Ok(Expr::Before(a, b))
            }
            Expr::After(a, b) => {
                let (a, b) = copy_pair(a, b)?;
                Ok(Expr::After(a, b))
            }
            Expr::Range(a, b) => {
                let (a, b) = copy_pair(a, b)?;
                Ok(Expr::Range(a, b))
            }
            Expr::Arith(op, a, b) => {
                let (a, b) = copy_pair(a, b)?;
                Ok(Expr::Arith(*op, a, b))
            }
            Expr::Minus(a) => Ok(Expr::Minus(a.copy()?)),
            Expr::Plus(a) => Ok(Expr::Plus(a.copy()?)),
            Expr::Union(a, b) => {
                let (a, b) = copy_pair(a, b)?;
                Ok(Expr::Union(a, b))
            }
            Expr::Intersect(a, b) => {
                let (a, b) = copy_pair(a, b)?;
                Ok(Expr::Intersect(a, b))
            }
            Expr::Except(a, b) => {
                let (a, b) = copy_pair(a, b)?;
                Ok(Expr::Except(a, b))
            }
            Expr::InstanceOf(a, kind) => {
                let (a, kind) = copy_typed(a, kind)?;
                Ok(Expr::InstanceOf(a, kind))
            }
            Expr::Treat(a, kind) => {
                let (a, kind) = copy_typed(a, kind)?;
                Ok(Expr::Treat(a, kind))
            }
            Expr::Castable(a, kind, empty) => Ok(Expr::Castable(a.copy()?, *kind, *empty)),
            Expr::Cast(a, kind, empty) => Ok(Expr::Cast(a.copy()?, *kind, *empty)),
            Expr::Slash(a, b) => {
                let (a, b) = copy_pair(a, b)?;
                Ok(Expr::Slash(a, b))
            }
            Expr::Step(axis, test, tests) => copy_step(*axis, test, tests),
            Expr::Filter(of, tests) => copy_filter(of, tests),
            Expr::Call(name, args) => copy_call(name, args),
            Expr::ElemC(name, content) => {
                let (name, content) = copy_named(name, content)?;
                Ok(Expr::ElemC(name, content))
            }
            Expr::AttrC(name, content) => {
                let (name, content) = copy_named(name, content)?;
                Ok(Expr::AttrC(name, content))
            }
            Expr::DocC(content) => Ok(Expr::DocC(content.copy()?)),
            Expr::TextC(content) => Ok(Expr::TextC(content.copy()?)),
            Expr::CommentC(content) => Ok(Expr::CommentC(content.copy()?)),
            Expr::PiC(name, content) => {
                let (name, content) = copy_named(name, content)?;
                Ok(Expr::PiC(name, content))
            }
            Expr::Direct(name, attrs, parts) => copy_direct(name, attrs, parts),
        }
    }
}

fn copy_pair(a: &Shared<Expr>, b: &Shared<Expr>) -> Result<(Shared<Expr>, Shared<Expr>), AllocError>
    ensures { IfOk result (λ copy. copy ≡ (a.now, b.now)) }
{
    Ok((a.copy()?, b.copy()?))
}

fn copy_named(
    name: &NameSource,
    content: &Shared<Expr>,
) -> Result<(NameSource, Shared<Expr>), AllocError>
    ensures { IfOk result (λ copy. copy ≡ (name.now, content.now)) }
{
    Ok((name.copy()?, content.copy()?))
}

fn copy_typed(a: &Shared<Expr>, kind: &SeqType) -> Result<(Shared<Expr>, SeqType), AllocError>
    ensures { IfOk result (λ copy. copy ≡ (a.now, kind.now)) }
{
    Ok((a.copy()?, kind.copy()?))
}

fn copy_if(arms: &Shared<List<Arm>>, other: &Shared<Expr>) -> Result<Expr, AllocError>
    ensures { IfOk result (λ copy. copy ≡ If arms.now other.now) }
{
    Ok(Expr::If(arms.copy()?, other.copy()?))
}

fn copy_quant(
    every: bool,
    binds: &Shared<List<Bind>>,
    test: &Shared<Expr>,
) -> Result<Expr, AllocError>
    ensures { IfOk result (λ copy. copy ≡ Quant every binds.now test.now) }
{
    Ok(Expr::Quant(every, binds.copy()?, test.copy()?))
}

fn copy_step(axis: Axis, test: &Test, tests: &Shared<List<Expr>>) -> Result<Expr, AllocError>
    ensures { IfOk result (λ copy. copy ≡ Step axis test.now tests.now) }
{
    Ok(Expr::Step(axis, test.copy()?, tests.copy()?))
}

fn copy_filter(of: &Shared<Expr>, tests: &Shared<List<Expr>>) -> Result<Expr, AllocError>
    ensures { IfOk result (λ copy. copy ≡ Filter of.now tests.now) }
{
    Ok(Expr::Filter(of.copy()?, tests.copy()?))
}

fn copy_call(name: &ExprName, args: &Shared<List<Expr>>) -> Result<Expr, AllocError>
    ensures { IfOk result (λ copy. copy ≡ Call name.now args.now) }
{
    Ok(Expr::Call(name.copy()?, args.copy()?))
}

fn copy_direct(
    name: &Name,
    attrs: &Shared<List<DirectAttr>>,
    parts: &Shared<List<Part>>,
) -> Result<Expr, AllocError>
    ensures { IfOk result (λ copy. copy ≡ Direct name.now attrs.now parts.now) }
{
    Ok(Expr::Direct(name.copy()?, attrs.copy()?, parts.copy()?))
}

impl Arm {
    /// The same arm.
    pub fn copy(&self) -> Result<Arm, AllocError>
        ensures { IfOk result (λ copy. copy ≡ self.now) }
    {
        Ok(Arm {
            test: self.test.copy()?,
            then: self.then.copy()?,
        })
    }
}

impl Bind {
    /// The same binding.
    pub fn copy(&self) -> Result<Bind, AllocError>
        ensures { IfOk result (λ copy. copy ≡ self.now) }
    {
        Ok(Bind {
            var: self.var.copy()?,
            kind: copy_option(&self.kind)?,
            source: self.source.copy()?,
        })
    }
}

impl Flwor {
    /// The same parts.
    pub fn copy(&self) -> Result<Flwor, AllocError>
        ensures { IfOk result (λ copy. copy ≡ self.now) }
    {
        Ok(Flwor {
            clauses: self.clauses.copy()?,
            test: copy_shared_option(&self.test)?,
            orders: self.orders.copy()?,
            stable: self.stable,
            body: self.body.copy()?,
        })
    }
}

impl Clause {
    /// The same clause.
    pub fn copy(&self) -> Result<Clause, AllocError>
        ensures { IfOk result (λ copy. copy ≡ self.now) }
    {
        match self {
            Clause::For(bind, place) => Ok(Clause::For(bind.copy()?, copy_option(place)?)),
            Clause::Let(bind) => Ok(Clause::Let(bind.copy()?)),
        }
    }
}

impl Order {
    /// The same key.
    pub fn copy(&self) -> Result<Order, AllocError>
        ensures { IfOk result (λ copy. copy ≡ self.now) }
    {
        Ok(Order {
            key: self.key.copy()?,
            descending: self.descending,
        })
    }
}

impl NameSource {
    /// The same name.
    pub fn copy(&self) -> Result<NameSource, AllocError>
        ensures { IfOk result (λ copy. copy ≡ self.now) }
    {
        match self {
            NameSource::Fixed(name) => Ok(NameSource::Fixed(name.copy()?)),
            NameSource::Computed(e) => Ok(NameSource::Computed(e.copy()?)),
        }
    }
}

impl DirectAttr {
    /// The same attribute.
    pub fn copy(&self) -> Result<DirectAttr, AllocError>
        ensures { IfOk result (λ copy. copy ≡ self.now) }
    {
        Ok(DirectAttr {
            name: self.name.copy()?,
            parts: self.parts.copy()?,
        })
    }
}

impl Part {
    /// The same part.
    pub fn copy(&self) -> Result<Part, AllocError>
        ensures { IfOk result (λ copy. copy ≡ self.now) }
    {
        match self {
            Part::Chars(text) => Ok(Part::Chars(text.copy()?)),
            Part::Enclosed(e) => Ok(Part::Enclosed(e.copy()?)),
            Part::Child(e) => Ok(Part::Child(e.copy()?)),
        }
    }
}

impl Share for Expr {
    fn share(&self) -> Result<Expr, AllocError> {
        self.copy()
    }
}

impl Share for Arm {
    fn share(&self) -> Result<Arm, AllocError> {
        self.copy()
    }
}

impl Share for Bind {
    fn share(&self) -> Result<Bind, AllocError> {
        self.copy()
    }
}

impl Share for Flwor {
    fn share(&self) -> Result<Flwor, AllocError> {
        self.copy()
    }
}

impl Share for Clause {
    fn share(&self) -> Result<Clause, AllocError> {
        self.copy()
    }
}

impl Share for Order {
    fn share(&self) -> Result<Order, AllocError> {
        self.copy()
    }
}

impl Share for NameSource {
    fn share(&self) -> Result<NameSource, AllocError> {
        self.copy()
    }
}

impl Share for DirectAttr {
    fn share(&self) -> Result<DirectAttr, AllocError> {
        self.copy()
    }
}

impl Share for Part {
    fn share(&self) -> Result<Part, AllocError> {
        self.copy()
    }
}

/// The list of the same expressions.
pub fn copy_expr_list(items: &List<Expr>) -> Result<List<Expr>, AllocError>
    ensures { IfOk result (λ copy. copy ≡ items.now) }
{
    copy_list(items)
}

/// The list of the same arms.
pub fn copy_arm_list(items: &List<Arm>) -> Result<List<Arm>, AllocError>
    ensures { IfOk result (λ copy. copy ≡ items.now) }
{
    copy_list(items)
}

/// The list of the same bindings.
pub fn copy_bind_list(items: &List<Bind>) -> Result<List<Bind>, AllocError>
    ensures { IfOk result (λ copy. copy ≡ items.now) }
{
    copy_list(items)
}

/// The list of the same expressions.
pub fn copy_flwor_list(items: &List<Flwor>) -> Result<List<Flwor>, AllocError>
    ensures { IfOk result (λ copy. copy ≡ items.now) }
{
    copy_list(items)
}

/// The list of the same clauses.
pub fn copy_clause_list(items: &List<Clause>) -> Result<List<Clause>, AllocError>
    ensures { IfOk result (λ copy. copy ≡ items.now) }
{
    copy_list(items)
}

/// The list of the same keys.
pub fn copy_order_list(items: &List<Order>) -> Result<List<Order>, AllocError>
    ensures { IfOk result (λ copy. copy ≡ items.now) }
{
    copy_list(items)
}

/// The list of the same names.
pub fn copy_name_source_list(items: &List<NameSource>) -> Result<List<NameSource>, AllocError>
    ensures { IfOk result (λ copy. copy ≡ items.now) }
{
    copy_list(items)
}

/// The list of the same attributes.
pub fn copy_direct_attr_list(items: &List<DirectAttr>) -> Result<List<DirectAttr>, AllocError>
    ensures { IfOk result (λ copy. copy ≡ items.now) }
{
    copy_list(items)
}

/// The list of the same parts.
pub fn copy_part_list(items: &List<Part>) -> Result<List<Part>, AllocError>
    ensures { IfOk result (λ copy. copy ≡ items.now) }
{
    copy_list(items)
}
