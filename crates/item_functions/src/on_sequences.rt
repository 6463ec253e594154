// Functions on sequences.
ghost use Rattle.xt_atoms.specs.Casts.{Answers};
ghost use Rattle.item_functions.specs.OnSequences.{count_of, deep_equal_of, distinct_values_of, empty_of, exists_of, index_of_of, insert_before_of, remove_of, subsequence_for_of, subsequence_of};

use crate::outcomes::integer_outcome;
use crate::{node_functions as nodes, sequence_functions as sequences};
use std::alloc::Global;
use xdm_items::ItemList;
use xdm_items::function_arguments::{atom, atoms, integer, truth_list};
use xt_atoms::ValueFault;

/// The number of items (`fn:count`, Functions and Operators, 15.4.1).
#[tactic(auto, unfolding(crate::specs::OnSequences::count_of))]
pub fn count(alloc: Global, items: &ItemList) -> Result<ItemList, ValueFault>
    ensures { Answers (count_of items.now) result }
{
    integer_outcome(alloc, sequences::count(items.as_slice()))
}

/// Whether there is no item (`fn:empty`, Functions and Operators, 15.1.4).
#[tactic(auto, unfolding(crate::specs::OnSequences::empty_of))]
pub fn empty(alloc: Global, items: &ItemList) -> Result<ItemList, ValueFault>
    ensures { Answers (empty_of items.now) result }
{
    Ok(truth_list(alloc, sequences::has_no_item(items.as_slice()))?)
}

/// Whether there is an item (`fn:exists`, Functions and Operators, 15.1.5).
#[tactic(auto, unfolding(crate::specs::OnSequences::exists_of))]
pub fn exists(alloc: Global, items: &ItemList) -> Result<ItemList, ValueFault>
    ensures { Answers (exists_of items.now) result }
{
    Ok(truth_list(alloc, sequences::has_item(items.as_slice()))?)
}

/// The different values (`fn:distinct-values`, Functions and Operators, 15.1.6).
#[tactic(auto, unfolding(crate::specs::OnSequences::distinct_values_of))]
pub fn distinct_values(alloc: Global, items: &ItemList) -> Result<ItemList, ValueFault>
    ensures { Answers (distinct_values_of items.now) result }
{
    let atoms = atoms(alloc, items)?;
    Ok(sequences::distinct_values(alloc, atoms.as_slice())?)
}

/// The positions of a value (`fn:index-of`, Functions and Operators, 15.1.3).
#[tactic(auto, unfolding(crate::specs::OnSequences::index_of_of))]
pub fn index_of(alloc: Global, items: &ItemList, value: &ItemList) -> Result<ItemList, ValueFault>
    ensures { Answers (index_of_of items.now value.now) result }
{
    let atoms = atoms(alloc, items)?;
    let wanted = atom(alloc, value)?;
    sequences::index_of(alloc, atoms.as_slice(), &wanted)
}

/// The items with others among them (`fn:insert-before`, Functions and Operators, 15.1.7).
#[tactic(auto, unfolding(crate::specs::OnSequences::insert_before_of))]
pub fn insert_before(
    alloc: Global,
    items: &ItemList,
    position: &ItemList,
    inserts: &ItemList,
) -> Result<ItemList, ValueFault>
    ensures { Answers (insert_before_of items.now position.now inserts.now) result }
{
    let place = integer(alloc, position)?;
    Ok(sequences::insert_before(alloc, items.as_slice(), place, inserts.as_slice())?)
}

/// The items without one (`fn:remove`, Functions and Operators, 15.1.8).
#[tactic(auto, unfolding(crate::specs::OnSequences::remove_of))]
pub fn remove(alloc: Global, items: &ItemList, position: &ItemList) -> Result<ItemList, ValueFault>
    ensures { Answers (remove_of items.now position.now) result }
{
    let place = integer(alloc, position)?;
    Ok(sequences::remove(alloc, items.as_slice(), place)?)
}

/// The items from a position on (`fn:subsequence`, Functions and Operators, 15.1.10).
#[tactic(auto, unfolding(crate::specs::OnSequences::subsequence_of))]
pub fn subsequence(
    alloc: Global,
    items: &ItemList,
    start: &ItemList,
) -> Result<ItemList, ValueFault>
    ensures { Answers (subsequence_of items.now start.now) result }
{
    let first = integer(alloc, start)?;
    Ok(sequences::subsequence_from(alloc, items.as_slice(), first)?)
}

/// So many items from a position on (`fn:subsequence`, Functions and Operators, 15.1.10).
#[tactic(auto, unfolding(crate::specs::OnSequences::subsequence_for_of))]
pub fn subsequence_for(
    alloc: Global,
    items: &ItemList,
    start: &ItemList,
    length: &ItemList,
) -> Result<ItemList, ValueFault>
    ensures { Answers (subsequence_for_of items.now start.now length.now) result }
{
    let first = integer(alloc, start)?;
    let count = integer(alloc, length)?;
    Ok(sequences::subsequence(alloc, items.as_slice(), first, count)?)
}

/// Whether two sequences are deep-equal (`fn:deep-equal`, Functions and Operators, 15.3.1).
#[tactic(auto, unfolding(crate::specs::OnSequences::deep_equal_of))]
pub fn deep_equal(
    alloc: Global,
    items: &ItemList,
    others: &ItemList,
) -> Result<ItemList, ValueFault>
    ensures { Answers (deep_equal_of items.now others.now) result }
{
    let equal = nodes::deep_equal(alloc, items.as_slice(), others.as_slice())?;
    Ok(truth_list(alloc, equal)?)
}
