// Instructions, and the parts that hold instructions again.
use crate::values::{Avt, AvtName, Grouping, LiteralAttr, ModeUse, Sort};
use xt_names::{ExprName, List, Name, Shared, Text};
use xt_syntax::xt_types::SeqType;

/// An instruction, literal text or literal element of a sequence constructor (XSLT 2.0, 5.7). Its prefixes are resolved.
/// `E` is the type of the expressions, `P` that of the patterns.
#[derive(Drop)]
#[cycle(instr)]
pub enum Instr<E, P> {
    /// Literal text, or `xsl:text` (11.4.1 and 11.4.2).
    Chars(Text),
    /// `xsl:value-of` (11.4.3): `select`, the content, and `separator`.
    ValueOf(Option<Shared<E>>, Shared<List<Instr<E, P>>>, Option<Shared<Avt<E>>>),
    /// A literal result element (11.1): its name, its attributes and its content.
    Literal(Name, Shared<List<LiteralAttr<E>>>, Shared<List<Instr<E, P>>>),
    /// `xsl:element` (11.2): its name and its content.
    Element(AvtName<E>, Shared<List<Instr<E, P>>>),
    /// `xsl:attribute` (11.3): its name, `select`, the content, and `separator`.
    Attribute(AvtName<E>, Option<Shared<E>>, Shared<List<Instr<E, P>>>, Option<Shared<Avt<E>>>),
    /// `xsl:comment` (11.8): `select` and the content.
    Comment(Option<Shared<E>>, Shared<List<Instr<E, P>>>),
    /// `xsl:processing-instruction` (11.6): its name, `select` and the content.
    Pi(Shared<Avt<E>>, Option<Shared<E>>, Shared<List<Instr<E, P>>>),
    /// `xsl:document` (11.5).
    Document(Shared<List<Instr<E, P>>>),
    /// `xsl:copy` (11.9.1).
    Copy(Shared<List<Instr<E, P>>>),
    /// `xsl:copy-of` (11.9.2).
    CopyOf(Shared<E>),
    /// `xsl:sequence` (11.10).
    Sequence(Shared<E>),
    /// `xsl:if` (8.1): its test and its content.
    If(Shared<E>, Shared<List<Instr<E, P>>>),
    /// `xsl:choose` (8.2): each `xsl:when`, and the content of `xsl:otherwise`, which is empty where there is none.
    Choose(Shared<List<When<E, P>>>, Shared<List<Instr<E, P>>>),
    /// `xsl:for-each` (7): `select`, the sort keys and the content.
    ForEach(Shared<E>, Shared<List<Sort<E>>>, Shared<List<Instr<E, P>>>),
    /// `xsl:for-each-group` (14.3): `select`, what makes the groups, the sort keys and the content.
    ForEachGroup(Shared<E>, Grouping<E, P>, Shared<List<Sort<E>>>, Shared<List<Instr<E, P>>>),
    /// `xsl:perform-sort` (13.2): `select`, the sort keys and the content.
    PerformSort(Option<Shared<E>>, Shared<List<Sort<E>>>, Shared<List<Instr<E, P>>>),
    /// `xsl:variable` (9.1), which the instructions after it see.
    Variable(Bound<E, P>),
    /// `xsl:apply-templates` (6.3): `select`, the mode, the sort keys and the parameters.
    Apply(Option<Shared<E>>, ModeUse, Shared<List<Sort<E>>>, Shared<List<Bound<E, P>>>),
    /// `xsl:apply-imports` (6.7) with its parameters.
    ApplyImports(Shared<List<Bound<E, P>>>),
    /// `xsl:next-match` (6.7) with its parameters.
    NextMatch(Shared<List<Bound<E, P>>>),
    /// `xsl:call-template` (10.1): the place of the template among those of the stylesheet, from 0, and the parameters.
    CallTemplate(u32, Shared<List<Bound<E, P>>>),
}

/// An `xsl:when` (XSLT 2.0, 8.2).
#[derive(Drop)]
#[cycle(instr)]
pub struct When<E, P> {
    /// Its test.
    pub test: Shared<E>,
    /// Its content.
    pub body: Shared<List<Instr<E, P>>>,
}

/// A variable or parameter with what it is bound to (XSLT 2.0, 9), or a parameter that is passed (10.1.1).
#[derive(Drop)]
#[cycle(instr)]
pub struct Bound<E, P> {
    /// Its name.
    pub name: ExprName,
    /// The type after `as`.
    pub kind: Option<SeqType>,
    /// What it is bound to; of a parameter, where no value is passed.
    pub value: Value<E, P>,
    /// Whether it is a tunnel parameter (10.1.2).
    pub tunnel: bool,
}

/// What a variable or parameter is bound to (XSLT 2.0, 9.3).
#[derive(Drop)]
#[cycle(instr)]
pub enum Value<E, P> {
    /// `select`.
    Select(Shared<E>),
    /// The content.
    Body(Shared<List<Instr<E, P>>>),
    /// The empty text: neither `select` nor content nor `as`.
    EmptyText,
    /// The empty sequence: neither `select` nor content, but `as`.
    EmptyList,
    /// Nothing: the parameter is required (10.1.1).
    Required,
}
