// Places, levels and numbers, and the order of globals.
ghost use Rattle.std.specs.Prelude.{◌≡◌, ◌+◌, ◌&&◌, nat_le, IfOk};
ghost use Rattle.std.specs.List.{list_all};
ghost use Rattle.global_order.specs.GraphOrders.Behind.{all_below};
ghost use Rattle.sheet_closure.specs.Numbers.{is_rule_of, are_levels, has_numbers, has_order};

use global_needs::globals_stand_behind;
use std::alloc::AllocError;
use xt_sheets::{Level, Rule, Sheet};

fn are_modes(modes: usize, numbers: &[u32]) -> bool
    ensures { result ≡ all_below modes numbers.now }
{
    for number in numbers {
        if !((*number as usize) < modes) {
            return false;
        }
    }
    true
}

#[tactic(auto, unfolding(crate::specs::Numbers::is_rule_of))]
fn is_rule_of(templates: usize, modes: usize, levels: usize, rule: &Rule) -> bool
    ensures { result ≡ is_rule_of templates modes levels rule.now }
{
    (rule.template as usize) < templates
        && are_modes(modes, rule.modes.as_slice())
        && 1 <= rule.precedence
        && rule.precedence as usize <= levels
}

fn are_rules_of(templates: usize, modes: usize, levels: usize, rules: &[Rule]) -> bool
    ensures { result ≡ list_all (is_rule_of templates modes levels) rules.now }
{
    for rule in rules {
        if !is_rule_of(templates, modes, levels, rule) {
            return false;
        }
    }
    true
}

/// Whether the level has a number below this one, from 1.
fn is_level(before: usize, level: &Level) -> bool
    ensures { result ≡ (nat_le 1 level.now.first && nat_le level.now.first (before + 1)) }
{
    let first = level.first as usize;
    1 <= first && first - 1 <= before
}

fn are_levels(levels: &[Level]) -> bool
    ensures { result ≡ are_levels 0 levels.now }
{
    for place in 0..levels.len() {
        if !is_level(place, &levels[place]) {
            return false;
        }
    }
    true
}

/// Whether its places of templates, its levels and its numbers of modes are in range, and the
/// default mode is there.
#[tactic(auto, unfolding(crate::specs::Numbers::has_numbers))]
pub(crate) fn has_numbers(sheet: &Sheet) -> bool
    ensures { result ≡ has_numbers sheet.now }
{
    let modes = sheet.modes.len();
    0 < modes
        && are_levels(sheet.levels.as_slice())
        && are_rules_of(
            sheet.templates.len(),
            modes,
            sheet.levels.len(),
            sheet.rules.as_slice(),
        )
}

/// Whether each global comes after those on which it depends.
#[tactic(auto, unfolding(crate::specs::Numbers::has_order))]
pub(crate) fn has_order(sheet: &Sheet) -> Result<bool, AllocError>
    ensures { IfOk result (λ ordered. ordered ≡ has_order sheet.now) }
{
    globals_stand_behind(sheet.globals.allocator(), sheet)
}
