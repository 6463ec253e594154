// The rule that a stylesheet is refused for.
ghost use Rattle.std.specs.Prelude.{◌≡◌};
ghost use Rattle.sheet_rules.specs.WideRules.First.{has_code, first_of, first_wide};

use xt_names::{Code, QueryStaticCode, SheetStaticCode};

/// The rules in the order in which a stylesheet is refused for them.
const WIDE: [Code; 12] = [
    Code::QueryStatic(QueryStaticCode::XPST0008),
    Code::QueryStatic(QueryStaticCode::XPST0017),
    Code::SheetStatic(SheetStaticCode::XTSE0630),
    Code::SheetStatic(SheetStaticCode::XTSE0650),
    Code::SheetStatic(SheetStaticCode::XTSE0660),
    Code::SheetStatic(SheetStaticCode::XTSE0680),
    Code::SheetStatic(SheetStaticCode::XTSE0690),
    Code::SheetStatic(SheetStaticCode::XTSE0770),
    Code::SheetStatic(SheetStaticCode::XTDE0640),
    Code::SheetStatic(SheetStaticCode::XTDE1260),
    Code::SheetStatic(SheetStaticCode::XTUN0001),
    Code::SheetStatic(SheetStaticCode::XTSE1560),
];

/// Of the codes of broken rules the one that a stylesheet is refused for: the first, in the order
/// XPST0008, XPST0017, XTSE0630, XTSE0650, XTSE0660, XTSE0680, XTSE0690, XTSE0770, XTDE0640,
/// XTDE1260, XTUN0001, XTSE1560, that is among them. None where none of these is.
pub fn first_wide(codes: &[Code]) -> Option<Code>
    ensures { result ≡ first_wide codes.now }
{
    first_of(&WIDE, codes)
}

/// The first of these that is among the codes.
fn first_of(order: &[Code], codes: &[Code]) -> Option<Code>
    ensures { result ≡ first_of order.now codes.now }
{
    for wide in order {
        if has_code(codes, *wide) {
            return Some(*wide);
        }
    }
    None
}

fn has_code(codes: &[Code], wanted: Code) -> bool
    ensures { result ≡ has_code codes.now wanted }
{
    codes.iter().any(|code| code.text() == wanted.text())
}
