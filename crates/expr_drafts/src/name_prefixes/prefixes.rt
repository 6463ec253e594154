// Prefixes with a table.
ghost use Rattle.std.specs.Prelude.{◌≡◌, IfOk};
ghost use Rattle.std.specs.Option.{option_copied};
ghost use Rattle.expr_drafts.specs.NamePrefixes.Firsts.{prefix_of};

use crate::name_prefixes::tables::table_of;
use std::alloc::{AllocError, Global};
use std::collections::HashMap;
use std::marker::Model;
use xt_names::Text;
use xt_syntax::Prefixes;

/// How prefixes and names without prefix are resolved, with the prefix that names of each uri are
/// written with; contracts see how they are resolved.
#[derive(Drop)]
pub struct NamePrefixes {
    plain: Prefixes,
    /// The first prefix of each uri.
    firsts: HashMap<Text, Text>,
}

impl Model for NamePrefixes {
    ghost use Rattle.std.specs.Prelude.{List, ℕ, ◌≡◌};
    ghost use Rattle.std.specs.HashMap.{get};
    ghost use Rattle.std.specs.Str.{bytes_eq};
    ghost use Rattle.xt_syntax.specs.declared.prefixes.Prefixes.{Prefixes as PrefixesOf};
    ghost use Rattle.expr_drafts.specs.NamePrefixes.Firsts.{prefix_of};

    ghost Value = { PrefixesOf };

    ghost view = { λ p. p.plain };

    ghost invariant = { λ p. (uri : List ℕ)
        → get bytes_eq p.firsts uri ≡ prefix_of p.plain.bound uri };
}

fn copy_of(prefixes: &Prefixes) -> Result<Prefixes, AllocError>
    ensures { IfOk result (λ copy. copy ≡ prefixes.now) }
{
    Ok(Prefixes {
        bound: prefixes.bound.copy()?,
        element_default: prefixes.element_default.copy()?,
        function_default: prefixes.function_default.copy()?,
    })
}

impl NamePrefixes {
    /// These prefixes, with a table.
    pub fn new(alloc: Global, prefixes: &Prefixes) -> Result<NamePrefixes, AllocError>
        ensures { IfOk result (λ made. made ≡ prefixes.now) }
    {
        let firsts = table_of(alloc, &prefixes.bound)?;
        let plain = copy_of(prefixes)?;
        Ok(NamePrefixes { plain, firsts })
    }

    /// The prefixes without the table.
    pub fn plain(&self) -> &Prefixes
        ensures { result.now ≡ self.now }
    {
        &self.plain
    }

    /// The first prefix with which a name has the uri; None exactly where there is none.
    /// (XPath 2.0, 2.1.1)
    pub fn prefix_of(&self, uri: &Text) -> Option<&Text>
        ensures { option_copied result ≡ prefix_of self.now.bound uri.now }
    {
        self.firsts.get(uri)
    }
}
