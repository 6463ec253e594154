// Default priorities.
ghost use Rattle.std.specs.Prelude.{◌≡◌};
ghost use Rattle.pattern_syntax.specs.PatternPriorities.Priorities.{name_priority, target_priority, test_priority, step_priority, alone_priority, priority_of};

use xt_names::Text;
use xt_syntax::{Pattern, PatternStep};
use xt_types::{NameTest, Test};

const LOW: i64 = -500;

const OF_HALF_A_NAME: i64 = -250;

const OF_A_NAME: i64 = 0;

const HIGH: i64 = 500;

/// The default priority of one alternative of a pattern, in thousandths (XSLT 2.0, 6.4). One step without predicates and with
/// nothing before it has 0 where it tests a name or the target of a processing instruction, -250 where it tests half of a name,
/// and else -500. `/` alone has -500, and all else 500. It takes no memory.
#[tactic(auto, unfolding(crate::specs::PatternPriorities::Priorities::alone_priority))]
pub fn default_priority(pattern: &Pattern) -> i64
    ensures { result ≡ priority_of pattern.now }
{
    match (pattern.rooted, pattern.steps.as_slice()) {
        (true, []) => LOW,
        (false, [only]) => step_priority(only),
        _ => HIGH,
    }
}

#[tactic(auto, unfolding(crate::specs::PatternPriorities::Priorities::step_priority))]
fn step_priority(step: &PatternStep) -> i64
    ensures { result ≡ step_priority step.now.test step.now.quiet }
{
    match step.quiet.as_slice() {
        [] => test_priority(&step.test),
        [_, ..] => HIGH,
    }
}

#[tactic(auto, unfolding(crate::specs::PatternPriorities::Priorities::test_priority))]
fn test_priority(test: &Test) -> i64
    ensures { result ≡ test_priority test.now }
{
    match test {
        Test::Named(name) => name_priority(name),
        Test::Pi(target) => target_priority(target),
        Test::Node | Test::Text | Test::Comment | Test::Doc | Test::Elem(_) | Test::Attr(_) => LOW,
    }
}

#[tactic(auto, unfolding(crate::specs::PatternPriorities::Priorities::name_priority))]
fn name_priority(test: &NameTest) -> i64
    ensures { result ≡ name_priority test.now }
{
    match test {
        NameTest::Any => LOW,
        NameTest::Uri(_) | NameTest::Local(_) => OF_HALF_A_NAME,
        NameTest::Exact(_) => OF_A_NAME,
    }
}

#[tactic(auto, unfolding(crate::specs::PatternPriorities::Priorities::target_priority))]
fn target_priority(target: &Option<Text>) -> i64
    ensures { result ≡ target_priority target.now }
{
    match target {
        None => LOW,
        Some(_) => OF_A_NAME,
    }
}
