// The names of the elements.
ghost use Rattle.std.specs.Prelude.{◌≡◌, IsTrue, map};
ghost use Rattle.std.specs.Str.{chars};
ghost use Rattle.xt_names.specs.declared.codes.Code.TheVariants.{SheetStatic};
ghost use Rattle.sheet_table.specs.Elements.{elements, element_in, element_named, xsl_element};
ghost use Rattle.sheet_table.specs.Elements.{left_out_elements, is_left_out_element, misplaced};
ghost use Rattle.sheet_table.specs.Texts.{are_ascii, entries_as, are_ascii_entries};

use crate::texts::is_one_of;
use xt_names::{Code, Name, SheetStaticCode, is_ascii_text, is_in_xslt};

/// An element of the namespace of XSLT (XSLT 2.0, appendix D).
#[derive(Clone, Copy, PartialEq, Eq, Debug)]
pub enum XslElement {
    /// `xsl:stylesheet` or `xsl:transform` (3.6).
    Stylesheet,
    /// `xsl:import` (3.10.3).
    Import,
    /// `xsl:include` (3.10.2).
    Include,
    /// `xsl:template` (6.1 and 10.1).
    Template,
    /// `xsl:function` (10.3).
    Function,
    /// `xsl:key` (16.3.1).
    Key,
    /// `xsl:strip-space` (4.4).
    StripSpace,
    /// `xsl:preserve-space` (4.4).
    PreserveSpace,
    /// `xsl:output` (20).
    Output,
    /// `xsl:param` (9.2).
    Param,
    /// `xsl:variable` (9.1).
    Variable,
    /// `xsl:with-param` (10.1.1).
    WithParam,
    /// `xsl:apply-templates` (6.3).
    ApplyTemplates,
    /// `xsl:apply-imports` (6.7).
    ApplyImports,
    /// `xsl:next-match` (6.7).
    NextMatch,
    /// `xsl:call-template` (10.1).
    CallTemplate,
    /// `xsl:for-each` (7).
    ForEach,
    /// `xsl:for-each-group` (14.3).
    ForEachGroup,
    /// `xsl:perform-sort` (13.2).
    PerformSort,
    /// `xsl:sort` (13.1).
    Sort,
    /// `xsl:if` (8.1).
    If,
    /// `xsl:choose` (8.2).
    Choose,
    /// `xsl:when` (8.2).
    When,
    /// `xsl:otherwise` (8.2).
    Otherwise,
    /// `xsl:value-of` (11.4.3).
    ValueOf,
    /// `xsl:text` (11.4.2).
    Text,
    /// `xsl:element` (11.2).
    Element,
    /// `xsl:attribute` (11.3).
    Attribute,
    /// `xsl:comment` (11.8).
    Comment,
    /// `xsl:processing-instruction` (11.6).
    ProcessingInstruction,
    /// `xsl:document` (11.5).
    Document,
    /// `xsl:copy` (11.9.1).
    Copy,
    /// `xsl:copy-of` (11.9.2).
    CopyOf,
    /// `xsl:sequence` (11.10).
    Sequence,
}

/// A local name with its element.
#[derive(Clone, Copy)]
pub(crate) struct Entry(pub(crate) &'static str, pub(crate) XslElement);

// Those that most stylesheets have most of come first, since a name is looked for from the front.
const ELEMENTS: [Entry; 35] = [
    Entry("template", XslElement::Template),
    Entry("value-of", XslElement::ValueOf),
    Entry("apply-templates", XslElement::ApplyTemplates),
    Entry("if", XslElement::If),
    Entry("for-each", XslElement::ForEach),
    Entry("choose", XslElement::Choose),
    Entry("when", XslElement::When),
    Entry("otherwise", XslElement::Otherwise),
    Entry("variable", XslElement::Variable),
    Entry("with-param", XslElement::WithParam),
    Entry("call-template", XslElement::CallTemplate),
    Entry("param", XslElement::Param),
    Entry("text", XslElement::Text),
    Entry("attribute", XslElement::Attribute),
    Entry("element", XslElement::Element),
    Entry("copy-of", XslElement::CopyOf),
    Entry("copy", XslElement::Copy),
    Entry("sequence", XslElement::Sequence),
    Entry("sort", XslElement::Sort),
    Entry("key", XslElement::Key),
    Entry("function", XslElement::Function),
    Entry("for-each-group", XslElement::ForEachGroup),
    Entry("stylesheet", XslElement::Stylesheet),
    Entry("transform", XslElement::Stylesheet),
    Entry("import", XslElement::Import),
    Entry("include", XslElement::Include),
    Entry("output", XslElement::Output),
    Entry("strip-space", XslElement::StripSpace),
    Entry("preserve-space", XslElement::PreserveSpace),
    Entry("apply-imports", XslElement::ApplyImports),
    Entry("next-match", XslElement::NextMatch),
    Entry("perform-sort", XslElement::PerformSort),
    Entry("comment", XslElement::Comment),
    Entry("processing-instruction", XslElement::ProcessingInstruction),
    Entry("document", XslElement::Document),
];

/// The elements with their local names.
fn elements() -> &'static [Entry]
    ensures names { entries_as result.now ≡ elements }
    ensures ascii { IsTrue (are_ascii_entries result.now) }
{
    &ELEMENTS
}

fn element_in(entries: &[Entry], local: &str) -> Option<XslElement>
    requires { IsTrue (are_ascii_entries entries.now) }
    ensures { result ≡ element_in (entries_as entries.now) (chars local.now) }
{
    for entry in entries {
        if is_ascii_text(local, entry.0) {
            return Some(entry.1);
        }
    }
    None
}

#[tactic(auto, unfolding(crate::specs::Elements::element_named))]
fn element_named(local: &str) -> Option<XslElement>
    ensures { result ≡ element_named (chars local.now) }
{
    element_in(elements(), local)
}

/// The element of XSLT that has the name; None where the name is in another namespace, or the
/// table has no such element (XSLT 2.0, appendix D).
pub fn xsl_element(name: &Name) -> Option<XslElement>
    ensures { result ≡ xsl_element name.now }
{
    if is_in_xslt(name) {
        element_named(name.local.as_str())
    } else {
        None
    }
}

/// The elements of the standard that are left out.
fn left_out_elements() -> &'static [&'static str]
    ensures names { map (λ n. n.now) result.now ≡ left_out_elements }
    ensures ascii { IsTrue (are_ascii (map (λ n. n.now) result.now)) }
{
    &[
        "analyze-string",
        "attribute-set",
        "character-map",
        "decimal-format",
        "fallback",
        "import-schema",
        "message",
        "namespace",
        "namespace-alias",
        "number",
        "result-document",
    ]
}

/// Whether it is the name of an element of the standard that is left out (XSLT 2.0, appendix D).
#[tactic(auto, unfolding(crate::specs::Elements::is_left_out_element))]
pub fn is_left_out_element(name: &Name) -> bool
    ensures { result ≡ is_left_out_element name.now }
{
    is_in_xslt(name) && is_one_of(name.local.as_str(), left_out_elements())
}

/// The code of an element that stands where it may not: XTUN0001 where it is left out, and else
/// XTSE0010 (XSLT 2.0, 2.2).
#[tactic(auto, unfolding(crate::specs::Elements::misplaced))]
pub fn misplaced(name: &Name) -> Code
    ensures { result ≡ SheetStatic (misplaced name.now) }
{
    if is_left_out_element(name) {
        Code::SheetStatic(SheetStaticCode::XTUN0001)
    } else {
        Code::SheetStatic(SheetStaticCode::XTSE0010)
    }
}
