// The raw value, part by part.
ghost use Rattle.std.specs.Prelude.{◌≡◌, [], map, reverse};
ghost use Rattle.expr_primaries.specs.ExprNames.Answers.{Answers};
ghost use Rattle.expr_resolve.specs.Folds.{found_of, value_of, broken_of, values, steps_broken, all_broken, parts_broken, parts_values};

use crate::families::is_chain;
use crate::passing::{finished, stepped, stepped_back, turned};
use crate::setting::Setting;
use expr_primaries::expr_names::ResolveFault;
use expr_primaries::expr_rules::expr_meant::Meant;
use expr_terms::{Production, Raw};
use std::alloc::Global;
use xt_names::List;

/// What the raw value means, or the code of the first static rule that it breaks.
#[cycle(resolve)]
pub fn part_of(alloc: Global, s: &Setting, raw: &Raw) -> Result<Meant, ResolveFault>
    ensures { Answers result (broken_of s.now raw.now) (value_of s.now raw.now) }
{
    match raw {
        Raw::Leaf(token) => Ok(Meant::Token(token.copy()?)),
        Raw::Node(production, parts) => {
            let parts = parts_of(alloc, s, *production, parts.as_slice());
            finished(alloc, s, *production, parts)
        }
    }
}

#[cycle(resolve)]
fn parts_of(
    alloc: Global,
    s: &Setting,
    production: Production,
    raws: &[Raw],
) -> Result<List<Meant>, ResolveFault>
    ensures { Answers result (parts_broken s.now production (map (found_of s.now) raws.now)) (parts_values production (map (found_of s.now) raws.now)) }
{
    if is_chain(production) {
        turned(parts_back(alloc, s, raws))
    } else {
        parts_onward(alloc, s, production, raws)
    }
}

#[cycle(resolve)]
fn parts_onward(
    alloc: Global,
    s: &Setting,
    production: Production,
    raws: &[Raw],
) -> Result<List<Meant>, ResolveFault>
    ensures { Answers result (steps_broken s.now production [] (map (found_of s.now) raws.now)) (values (map (found_of s.now) raws.now)) }
{
    let mut made = List::of_vec(Vec::with_capacity(alloc, raws.len())?);
    for raw in raws {
        let last = made.len() + 1 == raws.len();
        let part = part_of(alloc, s, raw);
        made = stepped(alloc, s, production, last, made, part)?;
    }
    Ok(made)
}

#[cycle(resolve)]
fn parts_back(alloc: Global, s: &Setting, raws: &[Raw]) -> Result<List<Meant>, ResolveFault>
    ensures { Answers result (all_broken (reverse (map (found_of s.now) raws.now))) (values (map (found_of s.now) raws.now)) }
{
    let mut made = Ok(List::new(alloc));
    for raw in raws {
        let part = part_of(alloc, s, raw);
        made = stepped_back(made, part);
    }
    made
}
