// The table of the attributes that elements have.
ghost use Rattle.std.specs.Prelude.{◌≡◌, IsTrue, map};
ghost use Rattle.sheet_table.specs.Rows.{row_of, left_out_everywhere};
ghost use Rattle.sheet_table.specs.RowsOfCode.{row_as, is_ascii_row};
ghost use Rattle.sheet_table.specs.Texts.{are_ascii};

use crate::elements::XslElement;

/// The attributes of an element: those that must stand on it, those that may, and those of the
/// standard that are left out.
#[derive(Clone, Copy)]
pub(crate) struct Row(
    pub(crate) &'static [&'static str],
    pub(crate) &'static [&'static str],
    pub(crate) &'static [&'static str],
);

/// The attributes of the element (XSLT 2.0, appendix D).
pub(crate) fn row_of(element: XslElement) -> Row
    ensures row { row_as result ≡ row_of element }
    ensures ascii { IsTrue (is_ascii_row result) }
{
    match element {
        XslElement::Stylesheet => Row(
            &["version"],
            &["id", "exclude-result-prefixes"],
            &["default-validation", "input-type-annotations"],
        ),
        XslElement::Import => Row(&["href"], &[], &[]),
        XslElement::Include => Row(&["href"], &[], &[]),
        XslElement::Template => Row(&[], &["match", "name", "priority", "mode", "as"], &[]),
        XslElement::Function => Row(&["name"], &["as"], &["override"]),
        XslElement::Key => Row(&["name", "match", "use"], &[], &["collation"]),
        XslElement::StripSpace => Row(&["elements"], &[], &[]),
        XslElement::PreserveSpace => Row(&["elements"], &[], &[]),
        XslElement::Output => Row(
            &[],
            &[
                "method",
                "version",
                "encoding",
                "indent",
                "omit-xml-declaration",
            ],
            &[
                "name",
                "byte-order-mark",
                "cdata-section-elements",
                "doctype-public",
                "doctype-system",
                "escape-uri-attributes",
                "include-content-type",
                "media-type",
                "normalization-form",
                "standalone",
                "undeclare-prefixes",
                "use-character-maps",
            ],
        ),
        XslElement::Param => Row(&["name"], &["select", "as", "required", "tunnel"], &[]),
        XslElement::Variable => Row(&["name"], &["select", "as"], &[]),
        XslElement::WithParam => Row(&["name"], &["select", "as", "tunnel"], &[]),
        XslElement::ApplyTemplates => Row(&[], &["select", "mode"], &[]),
        XslElement::ApplyImports => Row(&[], &[], &[]),
        XslElement::NextMatch => Row(&[], &[], &[]),
        XslElement::CallTemplate => Row(&["name"], &[], &[]),
        XslElement::ForEach => Row(&["select"], &[], &[]),
        XslElement::ForEachGroup => Row(
            &["select"],
            &["group-by", "group-adjacent", "group-starting-with"],
            &["group-ending-with", "collation"],
        ),
        XslElement::PerformSort => Row(&[], &["select"], &[]),
        XslElement::Sort => Row(
            &[],
            &["select", "order", "data-type"],
            &["lang", "collation", "stable", "case-order"],
        ),
        XslElement::If => Row(&["test"], &[], &[]),
        XslElement::Choose => Row(&[], &[], &[]),
        XslElement::When => Row(&["test"], &[], &[]),
        XslElement::Otherwise => Row(&[], &[], &[]),
        XslElement::ValueOf => Row(&[], &["select", "separator"], &["disable-output-escaping"]),
        XslElement::Text => Row(&[], &[], &["disable-output-escaping"]),
        XslElement::Element => Row(
            &["name"],
            &[],
            &[
                "type",
                "validation",
                "namespace",
                "inherit-namespaces",
                "use-attribute-sets",
            ],
        ),
        XslElement::Attribute => Row(
            &["name"],
            &["select", "separator"],
            &["type", "validation", "namespace"],
        ),
        XslElement::Comment => Row(&[], &["select"], &[]),
        XslElement::ProcessingInstruction => Row(&["name"], &["select"], &[]),
        XslElement::Document => Row(&[], &[], &["type", "validation"]),
        XslElement::Copy => Row(
            &[],
            &[],
            &[
                "type",
                "validation",
                "inherit-namespaces",
                "use-attribute-sets",
                "copy-namespaces",
            ],
        ),
        XslElement::CopyOf => Row(&["select"], &[], &["type", "validation", "copy-namespaces"]),
        XslElement::Sequence => Row(&["select"], &[], &[]),
    }
}

/// The attributes of the standard that are left out on every element (XSLT 2.0, 3.5).
pub(crate) fn left_out_everywhere() -> &'static [&'static str]
    ensures names { map (λ n. n.now) result.now ≡ left_out_everywhere }
    ensures ascii { IsTrue (are_ascii (map (λ n. n.now) result.now)) }
{
    &[
        "use-when",
        "xpath-default-namespace",
        "default-collation",
        "extension-element-prefixes",
        "version",
        "exclude-result-prefixes",
    ]
}
