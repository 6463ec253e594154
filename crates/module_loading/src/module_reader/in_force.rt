// The bindings of prefixes that are in force, while the elements of a module are walked through.
ghost use Rattle.std.specs.Prelude.{◌≡◌, ◌++◌, IfOk, OnOk};
ghost use Rattle.module_loading.specs.ModuleReader.InForce.{all_of};

use bound_prefixes::BoundPrefixes;
use std::alloc::{AllocError, Global};
use std::marker::Model;
use xt_names::{Binding, List, Shared};

/// The bindings in force within an element, of which the first one of a prefix counts; contracts see
/// them as a list. What is declared within other elements is shared with these until a prefix is
/// looked up, so that elements nested deep with declarations cost no more than they declare.
#[derive(Drop)]
pub(crate) struct InForce {
    /// The declarations of the elements around, the innermost first.
    own: List<Shared<List<Binding>>>,
    /// The bindings around these.
    outer: BoundPrefixes,
}

impl Model for InForce {
    ghost use Rattle.std.specs.Prelude.{List, ◌++◌};
    ghost use Rattle.xt_names.specs.declared.names.Binding.{Binding};
    ghost use Rattle.module_loading.specs.ModuleReader.InForce.{all_of};

    ghost Value = { List Binding };

    ghost view = { λ s. all_of s.own ++ s.outer };
}

impl InForce {
    /// These bindings.
    pub(crate) fn new(alloc: Global, outer: BoundPrefixes) -> InForce
        ensures { result ≡ outer }
    {
        InForce {
            own: List::new(alloc),
            outer,
        }
    }

    /// The bindings within an element with these declarations, which come before the others.
    pub(crate) fn within(&self, own: &Shared<List<Binding>>) -> Result<InForce, AllocError>
        ensures { IfOk result (λ all. all ≡ own.now ++ self.now) }
    {
        let mut layers = List::new(self.own.allocator());
        layers.push(own.copy()?)?;
        share_layers(&mut layers, self.own.as_slice())?;
        Ok(InForce {
            own: layers,
            outer: self.outer.copy()?,
        })
    }

    /// The bindings with a table, which later look-ups share.
    pub(crate) fn prefixes(&mut self) -> Result<BoundPrefixes, AllocError>
        ensures bound { IfOk result (λ bound. bound ≡ self.old) }
        ensures same { OnOk result (self.new ≡ self.old) }
    {
        if self.own.is_empty() {
            return self.outer.copy();
        }
        let bound = joined(self.own.as_slice(), &self.outer)?;
        self.own = List::new(self.own.allocator());
        self.outer = bound.copy()?;
        Ok(bound)
    }
}

/// Puts the same declarations after the others.
fn share_layers(
    layers: &mut List<Shared<List<Binding>>>,
    more: &[Shared<List<Binding>>],
) -> Result<(), AllocError>
    ensures { OnOk result (layers.new ≡ layers.old ++ more.now) }
{
    for layer in more {
        layers.push(layer.copy()?)?;
    }
    Ok(())
}

fn joined(
    layers: &[Shared<List<Binding>>],
    outer: &BoundPrefixes,
) -> Result<BoundPrefixes, AllocError>
    ensures { IfOk result (λ all. all ≡ all_of layers.now ++ outer.now) }
{
    let shared = outer.bindings()?;
    let mut all = List::new(shared.get().allocator());
    for layer in layers {
        push_bindings(&mut all, layer.get().as_slice())?;
    }
    push_bindings(&mut all, shared.get().as_slice())?;
    BoundPrefixes::new(all)
}

fn push_bindings(all: &mut List<Binding>, bindings: &[Binding]) -> Result<(), AllocError>
    ensures { OnOk result (all.new ≡ all.old ++ bindings.now) }
{
    for binding in bindings {
        all.push(binding.copy()?)?;
    }
    Ok(())
}
