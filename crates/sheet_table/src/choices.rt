// The values that attributes take.
ghost use Rattle.std.specs.Prelude.{◌≡◌, IsTrue};
ghost use Rattle.sheet_table.specs.Choices.{choices_of};
ghost use Rattle.sheet_table.specs.ChoicesOfCode.{choices_as, are_ascii_choices};

use crate::elements::XslElement;
use xt_names::SheetStaticCode;

/// An attribute, the values that it takes, and the code of any other value.
#[derive(Clone, Copy)]
pub(crate) struct Choice(
    pub(crate) &'static str,
    pub(crate) &'static [&'static str],
    pub(crate) SheetStaticCode,
);

const OF_STYLESHEET: [Choice; 1] = [Choice("version", &["2.0"], SheetStaticCode::XTUN0001)];

const OF_OUTPUT: [Choice; 5] = [
    Choice("method", &["xml"], SheetStaticCode::XTUN0001),
    Choice("version", &["1.0"], SheetStaticCode::XTUN0001),
    Choice(
        "encoding",
        &[
            "UTF-8", "UTf-8", "UtF-8", "Utf-8", "uTF-8", "uTf-8", "utF-8", "utf-8",
        ],
        SheetStaticCode::XTUN0001,
    ),
    Choice("indent", &["yes", "no"], SheetStaticCode::XTSE0020),
    Choice(
        "omit-xml-declaration",
        &["yes", "no"],
        SheetStaticCode::XTSE0020,
    ),
];

const OF_PARAM: [Choice; 2] = [
    Choice("required", &["yes", "no"], SheetStaticCode::XTSE0020),
    Choice("tunnel", &["yes", "no"], SheetStaticCode::XTSE0020),
];

const OF_WITH_PARAM: [Choice; 1] = [Choice("tunnel", &["yes", "no"], SheetStaticCode::XTSE0020)];

const OF_SORT: [Choice; 2] = [
    Choice(
        "order",
        &["ascending", "descending"],
        SheetStaticCode::XTSE0020,
    ),
    Choice("data-type", &["text", "number"], SheetStaticCode::XTSE0020),
];

/// The attributes of the element that take few values alone.
pub(crate) fn choices_of(element: XslElement) -> &'static [Choice]
    ensures choices { choices_as result.now ≡ choices_of element }
    ensures ascii { IsTrue (are_ascii_choices result.now) }
{
    match element {
        XslElement::Stylesheet => &OF_STYLESHEET,
        XslElement::Output => &OF_OUTPUT,
        XslElement::Param => &OF_PARAM,
        XslElement::WithParam => &OF_WITH_PARAM,
        XslElement::Sort => &OF_SORT,
        _ => &[],
    }
}
