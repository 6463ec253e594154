// Bindings with a table.
ghost use Rattle.std.specs.Prelude.{◌≡◌, ℕ, List, IfOk, OnOk};
ghost use Rattle.std.specs.HashMap.{get};
ghost use Rattle.std.specs.Option.{option_copied};
ghost use Rattle.std.specs.Str.{bytes_eq};
ghost use Rattle.bound_prefixes.specs.First.{first_uri, or_later, bound_by};

use std::alloc::{AllocError, Global};
use std::collections::HashMap;
use std::marker::Model;
use std::rc::Rc;
use xt_names::{Binding, List, Shared, Text};

/// Prefixes with the uris that they are bound to; contracts see them as a list of bindings.
#[derive(Drop)]
pub struct BoundPrefixes {
    bindings: Shared<List<Binding>>,
    /// The uri of the first binding of each prefix.
    uris: Rc<HashMap<Text, Text>>,
}

impl Model for BoundPrefixes {
    ghost use Rattle.std.specs.Prelude.{List, ℕ, ◌≡◌};
    ghost use Rattle.std.specs.HashMap.{get};
    ghost use Rattle.std.specs.Str.{bytes_eq};
    ghost use Rattle.xt_names.specs.declared.names.Binding.{Binding};
    ghost use Rattle.bound_prefixes.specs.First.{first_uri};

    ghost Value = { List Binding };

    ghost view = { λ b. b.bindings };

    ghost invariant = { λ b. (prefix : List ℕ) → get bytes_eq b.uris.value prefix ≡ first_uri b.bindings prefix };
}

/// Adds what the binding binds, where its prefix is not bound yet.
fn add_first(table: &mut HashMap<Text, Text>, binding: &Binding) -> Result<(), AllocError>
    ensures { OnOk result ((prefix : List ℕ)
        → get bytes_eq table.new prefix ≡ or_later (get bytes_eq table.old prefix) (bound_by binding.now prefix)) }
{
    match table.get(&binding.prefix) {
        Some(_) => Ok(()),
        None => {
            table.insert(binding.prefix.copy()?, binding.uri.copy()?)?;
            Ok(())
        }
    }
}

/// The uri of the first binding of each prefix.
fn table_of(alloc: Global, bindings: &[Binding]) -> Result<HashMap<Text, Text>, AllocError>
    ensures { IfOk result (λ table. (prefix : List ℕ) → get bytes_eq table prefix ≡ first_uri bindings.now prefix) }
{
    let mut table = HashMap::new(alloc);
    for binding in bindings {
        add_first(&mut table, binding)?;
    }
    Ok(table)
}

impl BoundPrefixes {
    /// The prefixes that these bindings bind.
    pub fn new(bindings: List<Binding>) -> Result<BoundPrefixes, AllocError>
        ensures { IfOk result (λ made. made ≡ bindings) }
    {
        let alloc = bindings.allocator();
        let table = table_of(alloc, bindings.as_slice())?;
        let uris = Rc::new(alloc, table)?;
        let bindings = Shared::make(alloc, bindings)?;
        Ok(BoundPrefixes { bindings, uris })
    }

    /// The uri of the prefix, by its first binding; None exactly where it is not bound.
    pub fn uri_of(&self, prefix: &Text) -> Option<&Text>
        ensures { option_copied result ≡ first_uri self.now prefix.now }
    {
        self.uris.get(prefix)
    }

    /// The bindings, in order.
    pub fn as_slice(&self) -> &[Binding]
        ensures { result.now ≡ self.now }
    {
        self.bindings.get().as_slice()
    }

    /// The bindings, shared.
    pub fn bindings(&self) -> Result<Shared<List<Binding>>, AllocError>
        ensures { IfOk result (λ bindings. bindings ≡ self.now) }
    {
        self.bindings.copy()
    }

    /// The same prefixes, over the same table.
    pub fn copy(&self) -> Result<BoundPrefixes, AllocError>
        ensures { IfOk result (λ copy. copy ≡ self.now) }
    {
        let bindings = self.bindings.copy()?;
        let uris = self.uris.clone()?;
        Ok(BoundPrefixes { bindings, uris })
    }
}
