// Which rules a part has to keep where it stands.
ghost use Rattle.std.specs.Prelude.{◌≡◌, []};
ghost use Rattle.expr_names.specs.Answers.{Answers};
ghost use Rattle.expr_rules.specs.Rules.{operated_broken, own_broken};

use crate::expr_meant::Meant;
use crate::rules::{axis_rule, cast_rule, name_rule, test_rule, type_rule};
use bound_prefixes::BoundPrefixes;
use expr_names::ResolveFault;
use expr_terms::{Level, Production};
use std::alloc::Global;

#[tactic(auto, unfolding(crate::specs::Rules::operated_broken))]
fn operated_rule(
    level: Level,
    alloc: Global,
    bound: &BoundPrefixes,
    part: &Meant,
) -> Result<(), ResolveFault>
    ensures { Answers result (operated_broken level bound.now part.now) tt }
{
    match level {
        Level::InstanceOf => type_rule(alloc, bound, part),
        Level::Treat => type_rule(alloc, bound, part),
        _ => Ok(()),
    }
}

/// The first rule that the part breaks where it is in the production: XPST0010, XPST0051,
/// XPST0080 or XPST0081. It is the first part, or a later one.
#[tactic(auto, unfolding(crate::specs::Rules::own_broken))]
pub fn own_rule(
    alloc: Global,
    bound: &BoundPrefixes,
    production: Production,
    first: bool,
    part: &Meant,
) -> Result<(), ResolveFault>
    ensures { Answers result (own_broken bound.now production first part.now) tt }
{
    match production {
        Production::AxisStep => {
            if first {
                axis_rule(part)
            } else {
                test_rule(alloc, bound, part)
            }
        }
        Production::AttributeStep => test_rule(alloc, bound, part),
        Production::TestStep => test_rule(alloc, bound, part),
        Production::NamedKind => test_rule(alloc, bound, part),
        Production::Variable => name_rule(alloc, bound, part),
        Production::Call => name_rule(alloc, bound, part),
        Production::ForIn => name_rule(alloc, bound, part),
        Production::LetAssign => name_rule(alloc, bound, part),
        Production::QuantifiedIn => name_rule(alloc, bound, part),
        Production::AtVariable => name_rule(alloc, bound, part),
        Production::Constructed => name_rule(alloc, bound, part),
        Production::DirectElement => name_rule(alloc, bound, part),
        Production::ChildElement => name_rule(alloc, bound, part),
        Production::AttributeValue => name_rule(alloc, bound, part),
        Production::AsType => type_rule(alloc, bound, part),
        Production::ItemsType => {
            if first {
                type_rule(alloc, bound, part)
            } else {
                Ok(())
            }
        }
        Production::SingleAtomicType => cast_rule(alloc, bound, part),
        Production::OperatorTail(level) => operated_rule(level, alloc, bound, part),
        _ => Ok(()),
    }
}
