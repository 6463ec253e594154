// The rules on one part.
ghost use Rattle.std.specs.Prelude.{◌≡◌, [], ◌++◌};
ghost use Rattle.expr_names.specs.Answers.{Answers};
ghost use Rattle.expr_names.specs.Names.{undeclared_in, test_broken};
ghost use Rattle.expr_rules.specs.Rules.{undeclared_of, test_broken_of, type_broken_of, cast_broken_of, axis_key_broken, axis_broken};

use crate::expr_meant::{Meant, key_of, written_of, written_test_in};
use bound_prefixes::BoundPrefixes;
use expr_names::{
    ResolveFault, atomic_type, name_test, no_text, single_type, static_fault, uri_in,
};
use expr_terms::Key;
use std::alloc::Global;
use xt_names::QueryStaticCode;

/// XPST0081 where the part writes a name whose prefix is not declared.
pub fn name_rule(alloc: Global, bound: &BoundPrefixes, part: &Meant) -> Result<(), ResolveFault>
    ensures { Answers result (undeclared_of bound.now part.now) tt }
{
    let written = written_of(alloc, part)?;
    let none = no_text(alloc)?;
    let _uri = uri_in(alloc, bound, &none, &written)?;
    Ok(())
}

/// XPST0081 where the part writes a name test whose prefix is not declared.
#[tactic(auto, unfolding(crate::specs::Rules::test_broken_of))]
pub fn test_rule(alloc: Global, bound: &BoundPrefixes, part: &Meant) -> Result<(), ResolveFault>
    ensures { Answers result (test_broken_of bound.now part.now) tt }
{
    match part {
        Meant::Token(token) => {
            let written = written_test_in(alloc, token)?;
            let _test = name_test(alloc, bound, &written)?;
            Ok(())
        }
        _ => Ok(()),
    }
}

/// Where the part is a token: XPST0081 or XPST0051 where it names no atomic type.
#[tactic(auto, unfolding(crate::specs::Rules::type_broken_of))]
pub fn type_rule(alloc: Global, bound: &BoundPrefixes, part: &Meant) -> Result<(), ResolveFault>
    ensures { Answers result (type_broken_of bound.now part.now) tt }
{
    match part {
        Meant::Token(_) => {
            let written = written_of(alloc, part)?;
            let _kind = atomic_type(alloc, bound, &written)?;
            Ok(())
        }
        _ => Ok(()),
    }
}

/// Where the part is a token: XPST0081, XPST0080 or XPST0051 where no cast is to what it names.
#[tactic(auto, unfolding(crate::specs::Rules::cast_broken_of))]
pub fn cast_rule(alloc: Global, bound: &BoundPrefixes, part: &Meant) -> Result<(), ResolveFault>
    ensures { Answers result (cast_broken_of bound.now part.now) tt }
{
    match part {
        Meant::Token(_) => {
            let written = written_of(alloc, part)?;
            let _kind = single_type(alloc, bound, &written)?;
            Ok(())
        }
        _ => Ok(()),
    }
}

#[tactic(auto, unfolding(crate::specs::Rules::axis_key_broken))]
fn axis_key_rule(key: Key) -> Result<(), ResolveFault>
    ensures { Answers result (axis_key_broken key) tt }
{
    match key {
        Key::NamespaceWord => Err(static_fault(QueryStaticCode::XPST0010)),
        _ => Ok(()),
    }
}

/// XPST0010 where the part is the namespace axis.
pub fn axis_rule(part: &Meant) -> Result<(), ResolveFault>
    ensures { Answers result (axis_broken part.now) tt }
{
    axis_key_rule(key_of(part))
}
