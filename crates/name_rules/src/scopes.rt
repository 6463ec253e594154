#![tactic(auto, using(crate::proofs::LayerLemmas::has_name_append, crate::proofs::LayerLemmas::layer_names_append, crate::proofs::LayerLemmas::added_last))]

ghost use Rattle.std.specs.Prelude.{◌≡◌, ◌++◌, [], IfOk, OnOk};
ghost use Rattle.name_rules.specs.Scopes.{has_name, with_name, with_names, names_differ};
ghost use Rattle.name_rules.specs.Layers.{layer_names};

use indexmap::IndexSet;
use std::alloc::{AllocError, Global};
use std::marker::Model;
use std::rc::Rc;
use xt_names::{ExprName, List};

/// The variables in scope at a place; contracts see their names as a list without doubles. What binds variables puts
/// them into a table of its own and shares the tables around it, so a scope within another copies no names.
#[derive(Drop)]
pub struct VariableScope {
    outer: Vec<Rc<IndexSet<ExprName>>>,
    own: Rc<IndexSet<ExprName>>,
}

impl Model for VariableScope {
    ghost use Rattle.std.specs.Prelude.{List, ◌++◌};
    ghost use Rattle.xt_names.specs.declared.names.ExprName.{ExprName};
    ghost use Rattle.name_rules.specs.Layers.{layer_names};

    ghost Value = { List ExprName };

    ghost view = { λ s. layer_names s.outer.items ++ s.own.value.keys };
}

impl VariableScope {
    /// No variables.
    pub fn new(alloc: Global) -> Result<VariableScope, AllocError>
        ensures { IfOk result (λ scope. scope ≡ []) }
    {
        let own = Rc::new(alloc, IndexSet::new(alloc))?;
        Ok(VariableScope {
            outer: Vec::new(alloc),
            own,
        })
    }

    /// Whether a variable of this name is in scope.
    pub fn has(&self, name: &ExprName) -> bool
        ensures { result ≡ has_name self.now name.now }
    {
        is_in_a_layer(self.outer.as_slice(), name) || self.own.contains(name)
    }

    /// The scope with this name too.
    pub fn with(self, name: ExprName) -> Result<VariableScope, AllocError>
        ensures { IfOk result (λ scope. scope ≡ with_name self name) }
    {
        if self.has(&name) {
            return Ok(self);
        }
        let alloc = *self.outer.allocator();
        let VariableScope { mut outer, own } = self;
        let mut names = open_table(&mut outer, own)?;
        names.insert(name)?;
        let own = Rc::new(alloc, names)?;
        Ok(VariableScope { outer, own })
    }

    /// The same names, to which others are added without a change of this scope. It takes memory only where tables stand
    /// around this scope's own.
    pub fn inside(&self) -> Result<VariableScope, AllocError>
        ensures { IfOk result (λ scope. scope ≡ self.now) }
    {
        Ok(VariableScope {
            outer: share_layers(&self.outer)?,
            own: self.own.clone()?,
        })
    }

    /// The scope with these names too.
    pub fn with_all(self, names: &List<ExprName>) -> Result<VariableScope, AllocError>
        ensures { IfOk result (λ scope. scope ≡ with_names self names.now) }
    {
        let mut scope = self;
        for name in names.as_slice() {
            scope = scope.with(name.copy()?)?;
        }
        Ok(scope)
    }
}

/// Whether no name stands twice.
pub fn names_differ(names: &List<ExprName>) -> Result<bool, AllocError>
    ensures { IfOk result (λ differ. differ ≡ names_differ names.now) }
{
    if let [] | [_] = names.as_slice() {
        return Ok(true);
    }
    let mut seen = VariableScope::new(names.allocator())?;
    for name in names.as_slice() {
        if seen.has(name) {
            return Ok(false);
        }
        seen = seen.with(name.copy()?)?;
    }
    Ok(true)
}

/// The same tables.
fn share_layers(
    layers: &Vec<Rc<IndexSet<ExprName>>>,
) -> Result<Vec<Rc<IndexSet<ExprName>>>, AllocError>
    ensures { IfOk result (λ shared. layer_names shared.items ≡ layer_names layers.now.items) }
{
    let mut shared = Vec::with_capacity(*layers.allocator(), layers.len())?;
    for layer in layers {
        share_layer(&mut shared, layer)?;
    }
    Ok(shared)
}

/// Puts the same table after the others.
fn share_layer(
    layers: &mut Vec<Rc<IndexSet<ExprName>>>,
    layer: &Rc<IndexSet<ExprName>>,
) -> Result<(), AllocError>
    ensures { OnOk result (layer_names layers.new.items ≡ layer_names layers.old.items ++ layer.now.value.keys) }
{
    let copy = layer.clone()?;
    layers.push(copy)?;
    Ok(())
}

/// Puts the table after the others, where it has a name.
fn put_layer(
    outer: &mut Vec<Rc<IndexSet<ExprName>>>,
    layer: Rc<IndexSet<ExprName>>,
) -> Result<(), AllocError>
    ensures { OnOk result (layer_names outer.new.items ≡ layer_names outer.old.items ++ layer.value.keys) }
{
    if layer.is_empty() {
        return Ok(());
    }
    outer.push(layer)?;
    Ok(())
}

/// The table, to write to. One that other scopes share stays as it is, after the others, and a new one is begun.
fn open_table(
    outer: &mut Vec<Rc<IndexSet<ExprName>>>,
    own: Rc<IndexSet<ExprName>>,
) -> Result<IndexSet<ExprName>, AllocError>
    ensures { IfOk result (λ names. layer_names outer.new.items ++ names.keys ≡ layer_names outer.old.items ++ own.value.keys) }
{
    let alloc = *outer.allocator();
    match Rc::try_unwrap(own) {
        Ok(names) => Ok(names),
        Err(shared) => {
            put_layer(outer, shared)?;
            Ok(IndexSet::new(alloc))
        }
    }
}

fn is_in_a_layer(layers: &[Rc<IndexSet<ExprName>>], name: &ExprName) -> bool
    ensures { result ≡ has_name (layer_names layers.now) name.now }
{
    for layer in layers {
        if layer.contains(name) {
            return true;
        }
    }
    false
}
