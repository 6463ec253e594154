// What an element is where instructions stand.
ghost use Rattle.std.specs.Prelude.{◌≡◌};
ghost use Rattle.sheet_heads.specs.Forms.{form_of};

use sheet_table::XslElement;

/// What an element of XSLT is where instructions stand (XSLT 2.0, 5.7).
#[derive(Clone, Copy, PartialEq, Eq, Debug)]
pub enum Form {
    /// An instruction that holds no instructions.
    Leaf,
    /// An instruction that holds a sequence constructor, perhaps after sort keys.
    Bodied,
    /// `xsl:choose` (8.2).
    Choice,
    /// `xsl:variable` (9.1).
    Binding,
    /// An instruction that passes parameters (6.3, 6.7 and 10.1).
    Call,
    /// No instruction.
    Other,
}

/// What the element is where instructions stand (XSLT 2.0, appendix D).
pub fn form_of(element: XslElement) -> Form
    ensures { result ≡ form_of element }
{
    match element {
        XslElement::Text | XslElement::CopyOf | XslElement::Sequence => Form::Leaf,
        XslElement::ForEach
        | XslElement::ForEachGroup
        | XslElement::PerformSort
        | XslElement::If
        | XslElement::ValueOf
        | XslElement::Element
        | XslElement::Attribute
        | XslElement::Comment
        | XslElement::ProcessingInstruction
        | XslElement::Document
        | XslElement::Copy => Form::Bodied,
        XslElement::Choose => Form::Choice,
        XslElement::Variable => Form::Binding,
        XslElement::ApplyTemplates
        | XslElement::ApplyImports
        | XslElement::NextMatch
        | XslElement::CallTemplate => Form::Call,
        _ => Form::Other,
    }
}
