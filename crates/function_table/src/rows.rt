// The table, by the first letters of the names.
ghost use Rattle.std.specs.Prelude.{◌≡◌, IsTrue};
ghost use Rattle.function_table.specs.Rows.{rows_as, are_ascii};
ghost use Rattle.function_table.specs.Table.{rows_under, groups};

use crate::builtins::Builtin;

/// A function of the table: its local name, itself, and the least and the greatest number of its arguments.
#[derive(Clone, Copy)]
pub(crate) struct Row(
    pub(crate) &'static str,
    pub(crate) Builtin,
    pub(crate) usize,
    pub(crate) usize,
);

/// As many as 64 bits count.
const ANY_NUMBER: usize = usize::MAX;

const A: [Row; 1] = [Row("abs", Builtin::Abs, 1, 1)];

const B: [Row; 1] = [Row("boolean", Builtin::Boolean, 1, 1)];

const C: [Row; 6] = [
    Row("codepoint-equal", Builtin::CodepointEqual, 2, 2),
    Row("codepoints-to-string", Builtin::CodepointsToString, 1, 1),
    Row("compare", Builtin::Compare, 2, 2),
    Row("concat", Builtin::Concat, 2, ANY_NUMBER),
    Row("contains", Builtin::Contains, 2, 2),
    Row("count", Builtin::Count, 1, 1),
];

const D: [Row; 3] = [
    Row("data", Builtin::Data, 1, 1),
    Row("deep-equal", Builtin::DeepEqual, 2, 2),
    Row("distinct-values", Builtin::DistinctValues, 1, 1),
];

const E: [Row; 5] = [
    Row("empty", Builtin::Empty, 1, 1),
    Row("ends-with", Builtin::EndsWith, 2, 2),
    Row("error", Builtin::Error, 0, 0),
    Row("exactly-one", Builtin::ExactlyOne, 1, 1),
    Row("exists", Builtin::Exists, 1, 1),
];

const F: [Row; 1] = [Row("false", Builtin::False, 0, 0)];

const I: [Row; 2] = [
    Row("index-of", Builtin::IndexOf, 2, 2),
    Row("insert-before", Builtin::InsertBefore, 3, 3),
];

const L: [Row; 3] = [
    Row("last", Builtin::Last, 0, 0),
    Row("local-name", Builtin::LocalName, 0, 1),
    Row("local-name-from-QName", Builtin::LocalNameFromQName, 1, 1),
];

const M: [Row; 2] = [
    Row("max", Builtin::Max, 1, 1),
    Row("min", Builtin::Min, 1, 1),
];

const N: [Row; 6] = [
    Row("name", Builtin::Name, 0, 1),
    Row("namespace-uri", Builtin::NamespaceUri, 0, 1),
    Row(
        "namespace-uri-from-QName",
        Builtin::NamespaceUriFromQName,
        1,
        1,
    ),
    Row("node-name", Builtin::NodeName, 1, 1),
    Row("normalize-space", Builtin::NormalizeSpace, 0, 1),
    Row("not", Builtin::Not, 1, 1),
];

const O: [Row; 1] = [Row("one-or-more", Builtin::OneOrMore, 1, 1)];

const P: [Row; 2] = [
    Row("position", Builtin::Position, 0, 0),
    Row("prefix-from-QName", Builtin::PrefixFromQName, 1, 1),
];

const CAPITAL_Q: [Row; 1] = [Row("QName", Builtin::QName, 2, 2)];

const R: [Row; 3] = [
    Row("remove", Builtin::Remove, 2, 2),
    Row("reverse", Builtin::Reverse, 1, 1),
    Row("root", Builtin::Root, 0, 1),
];

const S: [Row; 10] = [
    Row("starts-with", Builtin::StartsWith, 2, 2),
    Row("string", Builtin::String, 0, 1),
    Row("string-join", Builtin::StringJoin, 2, 2),
    Row("string-length", Builtin::StringLength, 0, 1),
    Row("string-to-codepoints", Builtin::StringToCodepoints, 1, 1),
    Row("subsequence", Builtin::Subsequence, 2, 3),
    Row("substring", Builtin::Substring, 2, 3),
    Row("substring-after", Builtin::SubstringAfter, 2, 2),
    Row("substring-before", Builtin::SubstringBefore, 2, 2),
    Row("sum", Builtin::Sum, 1, 2),
];

const T: [Row; 2] = [
    Row("translate", Builtin::Translate, 3, 3),
    Row("true", Builtin::True, 0, 0),
];

const U: [Row; 1] = [Row("unordered", Builtin::Unordered, 1, 1)];

const Z: [Row; 1] = [Row("zero-or-one", Builtin::ZeroOrOne, 1, 1)];

/// The functions whose names begin with the character.
#[tactic(auto, unfolding(crate::specs::Table::rows_under))]
pub(crate) fn rows_of(first: char) -> &'static [Row]
    ensures rows { rows_as result.now ≡ rows_under first groups }
    ensures ascii { IsTrue (are_ascii result.now) }
{
    match first {
        'a' => &A,
        'b' => &B,
        'c' => &C,
        'd' => &D,
        'e' => &E,
        'f' => &F,
        'i' => &I,
        'l' => &L,
        'm' => &M,
        'n' => &N,
        'o' => &O,
        'p' => &P,
        'Q' => &CAPITAL_Q,
        'r' => &R,
        's' => &S,
        't' => &T,
        'u' => &U,
        'z' => &Z,
        _ => &[],
    }
}
