// Where texts stand.
ghost use Rattle.std.specs.Prelude.{◌≡◌, ◌++◌, IfOk, OnOk, length};
ghost use Rattle.sheet_values.specs.SheetTexts.Places.{within, grouped};

use crate::sheet_texts::names::NameTable;
use bound_prefixes::BoundPrefixes;
use std::alloc::{AllocError, Global};
use xt_names::{Binding, List, Shared};

/// What is known where a text of a stylesheet stands (XSLT 2.0, 5.4.1).
#[derive(Drop)]
pub struct StaticContext {
    /// The bindings of prefixes in force, of which the first one of a prefix counts.
    pub bound: BoundPrefixes,
    /// Whether it is in an `xsl:for-each-group` (XSLT 2.0, 14.1).
    pub in_group: bool,
    /// The modes, which instructions name by their numbers (XSLT 2.0, 6.5).
    pub modes: Shared<NameTable>,
    /// The names of the templates that are called, which instructions name by their numbers.
    pub called: Shared<NameTable>,
}

impl StaticContext {
    /// The place within an element with these declarations.
    pub fn within(&self, alloc: Global, own: &List<Binding>) -> Result<StaticContext, AllocError>
        ensures { IfOk result (λ place. place ≡ within self.now own.now) }
    {
        Ok(StaticContext {
            bound: bound_within(alloc, own, &self.bound)?,
            in_group: self.in_group,
            modes: self.modes.copy()?,
            called: self.called.copy()?,
        })
    }

    /// The same place.
    pub fn copy(&self) -> Result<StaticContext, AllocError>
        ensures { IfOk result (λ place. place ≡ self.now) }
    {
        Ok(StaticContext {
            bound: self.bound.copy()?,
            in_group: self.in_group,
            modes: self.modes.copy()?,
            called: self.called.copy()?,
        })
    }

    /// The place within an `xsl:for-each-group` (XSLT 2.0, 14.1).
    pub fn grouped(&self) -> Result<StaticContext, AllocError>
        ensures { IfOk result (λ place. place ≡ grouped self.now) }
    {
        Ok(StaticContext {
            bound: self.bound.copy()?,
            in_group: true,
            modes: self.modes.copy()?,
            called: self.called.copy()?,
        })
    }
}

/// The bindings within an element with these declarations, which come before them; where there are
/// none the bindings are shared (Namespaces in XML 1.0, 6.1).
pub fn bound_within(
    alloc: Global,
    own: &List<Binding>,
    bound: &BoundPrefixes,
) -> Result<BoundPrefixes, AllocError>
    ensures { IfOk result (λ all. all ≡ own.now ++ bound.now) }
{
    if own.is_empty() {
        return bound.copy();
    }
    let mut all = List::new(alloc);
    push_all(&mut all, own.as_slice())?;
    push_all(&mut all, bound.as_slice())?;
    BoundPrefixes::new(all)
}

fn push_all(all: &mut List<Binding>, bindings: &[Binding]) -> Result<(), AllocError>
    ensures { OnOk result (all.new ≡ all.old ++ bindings.now) }
{
    for binding in bindings {
        all.push(binding.copy()?)?;
    }
    Ok(())
}
