// Name tests.
ghost use Rattle.std.specs.Prelude.{◌≡◌, [], IfOk};
ghost use Rattle.expr_names.specs.Answers.{Answers};
ghost use Rattle.expr_names.specs.Names.{name_test, test_broken, default_in, default_name};

use crate::fault::ResolveFault;
use crate::names::{declared_uri, expr_name, no_text};
use crate::written::WrittenTest;
use bound_prefixes::BoundPrefixes;
use std::alloc::{AllocError, Global};
use xt_names::{ExprName, Text};
use xt_types::NameTest;

/// The name test, in which a name without a prefix has no uri; XPST0081 where the prefix is not
/// declared.
#[tactic(auto, unfolding(crate::specs::Names::name_test, crate::specs::Names::test_broken))]
pub fn name_test(
    alloc: Global,
    bound: &BoundPrefixes,
    written: &WrittenTest,
) -> Result<NameTest, ResolveFault>
    ensures { Answers result (test_broken bound.now written.now) (name_test bound.now written.now) }
{
    match written {
        WrittenTest::Any => Ok(NameTest::Any),
        WrittenTest::Prefix(prefix) => {
            let uri = declared_uri(alloc, bound, prefix)?;
            Ok(NameTest::Uri(uri))
        }
        WrittenTest::Local(local) => {
            let local = local.copy()?;
            Ok(NameTest::Local(local))
        }
        WrittenTest::Exact(written) => {
            let none = no_text(alloc)?;
            let name = expr_name(alloc, bound, &none, written)?;
            Ok(NameTest::Exact(name))
        }
    }
}

#[tactic(auto, unfolding(crate::specs::Names::default_name))]
fn default_name(default: &Text, name: &ExprName) -> Result<ExprName, AllocError>
    ensures { IfOk result (λ made. made ≡ default_name default.now name.now) }
{
    if !name.uri.is_empty() {
        return name.copy();
    }
    Ok(ExprName {
        uri: default.copy()?,
        local: name.local.copy()?,
    })
}

/// The name test, in which a name without a uri has the default one.
#[tactic(auto, unfolding(crate::specs::Names::default_in))]
pub fn default_in(default: &Text, test: &NameTest) -> Result<NameTest, AllocError>
    ensures { IfOk result (λ made. made ≡ default_in default.now test.now) }
{
    match test {
        NameTest::Exact(name) => Ok(NameTest::Exact(default_name(default, name)?)),
        NameTest::Any | NameTest::Uri(_) | NameTest::Local(_) => test.copy(),
    }
}
