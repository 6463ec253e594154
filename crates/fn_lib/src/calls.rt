// The call of a function.
ghost use Rattle.xt_atoms.specs.Casts.{Answers};
ghost use Rattle.fn_lib.specs.Functions.{function_value, value_of};

use crate::arguments::argument;
use crate::{arities, values};
use function_table::Builtin;
use item_functions as items;
use std::alloc::Global;
use text_functions as texts;
use text_functions::name_functions as names;
use xdm_items::ItemList;
use xt_atoms::ValueFault;

/// What the function answers to these arguments, in front of which stands what it reads of the
/// focus: its value, or the code of its first error (Functions and Operators). It asks nothing of
/// the arguments: one that is not there counts as the empty list, and those past the last are
/// passed over.
#[tactic(auto, unfolding(crate::specs::Functions::function_value))]
pub fn call(alloc: Global, f: Builtin, args: &[ItemList]) -> Result<ItemList, ValueFault>
    ensures { Answers (function_value f args.now) result }
{
    let none = ItemList::new(alloc);
    let a = argument(args, 0, &none);
    let b = argument(args, 1, &none);
    let c = argument(args, 2, &none);
    value(alloc, f, args, a, b, c)
}

/// The same, of all arguments and of the first three.
#[tactic(auto, unfolding(crate::specs::Functions::value_of))]
fn value(
    alloc: Global,
    f: Builtin,
    args: &[ItemList],
    a: &ItemList,
    b: &ItemList,
    c: &ItemList,
) -> Result<ItemList, ValueFault>
    ensures { Answers (value_of f args.now a.now b.now c.now) result }
{
    match f {
        Builtin::Abs => items::abs(alloc, a),
        Builtin::Boolean => items::boolean(alloc, a),
        Builtin::CodepointEqual => texts::codepoint_equal(alloc, a, b),
        Builtin::CodepointsToString => texts::codepoints_to_string(alloc, a),
        Builtin::Compare => texts::compare(alloc, a, b),
        Builtin::Concat => texts::concat(alloc, args),
        Builtin::Contains => texts::contains(alloc, a, b),
        Builtin::Count => items::count(alloc, a),
        Builtin::Data => values::data(alloc, a),
        Builtin::DeepEqual => items::deep_equal(alloc, a, b),
        Builtin::DistinctValues => items::distinct_values(alloc, a),
        Builtin::Empty => items::empty(alloc, a),
        Builtin::EndsWith => texts::ends_with(alloc, a, b),
        Builtin::Error => values::error(),
        Builtin::ExactlyOne => values::exactly_one(alloc, a),
        Builtin::Exists => items::exists(alloc, a),
        Builtin::False => values::truth(alloc, false),
        Builtin::IndexOf => items::index_of(alloc, a, b),
        Builtin::InsertBefore => items::insert_before(alloc, a, b, c),
        Builtin::Last => values::same(a),
        Builtin::LocalName => names::local_name(alloc, a),
        Builtin::LocalNameFromQName => names::local_name_from_qname(alloc, a),
        Builtin::Max => items::max(alloc, a),
        Builtin::Min => items::min(alloc, a),
        Builtin::Name => names::name(alloc, a),
        Builtin::NamespaceUri => names::namespace_uri(alloc, a),
        Builtin::NamespaceUriFromQName => names::namespace_uri_from_qname(alloc, a),
        Builtin::NodeName => names::node_name(alloc, a),
        Builtin::NormalizeSpace => texts::normalize_space(alloc, a),
        Builtin::Not => items::not(alloc, a),
        Builtin::OneOrMore => values::one_or_more(alloc, a),
        Builtin::Position => values::same(a),
        Builtin::PrefixFromQName => names::prefix_from_qname(alloc, a),
        Builtin::QName => names::qname(alloc, a, b),
        Builtin::Remove => items::remove(alloc, a, b),
        Builtin::Reverse => values::reverse(alloc, a),
        Builtin::Root => items::root(alloc, a),
        Builtin::StartsWith => texts::starts_with(alloc, a, b),
        Builtin::String => texts::string(alloc, a),
        Builtin::StringJoin => texts::string_join(alloc, a, b),
        Builtin::StringLength => texts::string_length(alloc, a),
        Builtin::StringToCodepoints => texts::string_to_codepoints(alloc, a),
        Builtin::Subsequence => arities::subsequence(alloc, args.len(), a, b, c),
        Builtin::Substring => arities::substring(alloc, args.len(), a, b, c),
        Builtin::SubstringAfter => texts::substring_after(alloc, a, b),
        Builtin::SubstringBefore => texts::substring_before(alloc, a, b),
        Builtin::Sum => arities::sum(alloc, args.len(), a, b),
        Builtin::Translate => texts::translate(alloc, a, b, c),
        Builtin::True => values::truth(alloc, true),
        Builtin::Unordered => values::same(a),
        Builtin::ZeroOrOne => values::zero_or_one(alloc, a),
    }
}
