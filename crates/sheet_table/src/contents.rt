// What elements hold.
ghost use Rattle.std.specs.Prelude.{◌≡◌};
ghost use Rattle.sheet_table.specs.Contents.{content_of, leads, holds_body};

use crate::elements::XslElement;

/// What an element holds (XSLT 2.0, appendix D).
#[derive(Clone, Copy, PartialEq, Eq, Debug)]
pub enum Content {
    /// Nothing.
    Nothing,
    /// Text alone.
    Characters,
    /// A sequence constructor.
    Body,
    /// `xsl:param`, and then a sequence constructor.
    Params,
    /// `xsl:sort`, and then a sequence constructor.
    Sorts,
    /// `xsl:with-param`.
    Passed,
    /// `xsl:sort` and `xsl:with-param`, in any order.
    SortsAndPassed,
    /// `xsl:when`, and then at most one `xsl:otherwise`.
    Whens,
    /// Declarations, of which imports come first.
    Declarations,
}

/// What the element holds (XSLT 2.0, appendix D).
pub fn content_of(element: XslElement) -> Content
    ensures { result ≡ content_of element }
{
    match element {
        XslElement::Stylesheet => Content::Declarations,
        XslElement::Template | XslElement::Function => Content::Params,
        XslElement::ApplyTemplates => Content::SortsAndPassed,
        XslElement::ApplyImports | XslElement::NextMatch | XslElement::CallTemplate =>
            Content::Passed,
        XslElement::ForEach | XslElement::ForEachGroup | XslElement::PerformSort => Content::Sorts,
        XslElement::Choose => Content::Whens,
        XslElement::Text => Content::Characters,
        XslElement::Import
        | XslElement::Include
        | XslElement::Key
        | XslElement::StripSpace
        | XslElement::PreserveSpace
        | XslElement::Output
        | XslElement::Sort
        | XslElement::CopyOf
        | XslElement::Sequence => Content::Nothing,
        XslElement::Param
        | XslElement::Variable
        | XslElement::WithParam
        | XslElement::If
        | XslElement::When
        | XslElement::Otherwise
        | XslElement::ValueOf
        | XslElement::Element
        | XslElement::Attribute
        | XslElement::Comment
        | XslElement::ProcessingInstruction
        | XslElement::Document
        | XslElement::Copy => Content::Body,
    }
}

/// Whether the child may be at the front of such content, before what else it holds (XSLT 2.0,
/// appendix D).
pub fn leads(content: Content, child: Option<XslElement>) -> bool
    ensures { result ≡ leads content child }
{
    match (content, child) {
        (Content::Params, Some(XslElement::Param)) => true,
        (Content::Sorts, Some(XslElement::Sort)) => true,
        (Content::Passed, Some(XslElement::WithParam)) => true,
        (Content::SortsAndPassed, Some(XslElement::Sort)) => true,
        (Content::SortsAndPassed, Some(XslElement::WithParam)) => true,
        (Content::Whens, Some(XslElement::When)) => true,
        _ => false,
    }
}

/// Whether a sequence constructor comes after that front (XSLT 2.0, 5.7).
pub fn holds_body(content: Content) -> bool
    ensures { result ≡ holds_body content }
{
    match content {
        Content::Body | Content::Params | Content::Sorts => true,
        _ => false,
    }
}
