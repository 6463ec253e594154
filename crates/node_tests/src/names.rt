ghost use Rattle.std.specs.Prelude.{◌≡◌, Option, List, ℕ};
ghost use Rattle.node_tests.specs.Tests.{passes_name, has_target};

use xt_names::{Name, Text};
use xt_types::NameTest;

/// Whether the name passes the test: `*`, a uri, a local part, or both.
#[tactic(auto, unfolding(crate::specs::Tests::passes_name))]
pub fn passes_name(test: &NameTest, name: &Name) -> bool
    ensures { result ≡ passes_name test.now name.now }
{
    match test {
        NameTest::Any => true,
        NameTest::Uri(uri) => *uri == name.uri,
        NameTest::Local(local) => *local == name.local,
        NameTest::Exact(wanted) => wanted.uri == name.uri && wanted.local == name.local,
    }
}

/// Whether a processing instruction's target is the one that is wanted, if one is.
#[tactic(auto, unfolding(crate::specs::Tests::has_target))]
pub(crate) fn has_target(wanted: &Option<Text>, target: &Text) -> bool
    ensures { result ≡ has_target wanted.now target.now }
{
    match wanted {
        None => true,
        Some(wanted) => *wanted == *target,
    }
}
