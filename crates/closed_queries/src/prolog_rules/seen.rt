// What the first part of a prolog has declared so far.
ghost use Rattle.std.specs.Prelude.{◌≡◌, [], IfOk};
ghost use Rattle.closed_queries.specs.PrologRules.Setters.{has_prefix, with_prefix, nothing_seen, seen_behind};

use crate::prolog_rules::setters::Setter;
use indexmap::IndexSet;
use std::alloc::{AllocError, Global};
use std::marker::Model;
use xt_names::Text;

/// Prefixes, each once, in the order in which they came.
#[derive(Drop)]
pub(crate) struct PrefixSet {
    prefixes: IndexSet<Text>,
}

impl Model for PrefixSet {
    ghost use Rattle.std.specs.Prelude.{List, ℕ};

    ghost Value = { List (List ℕ) };

    ghost view = { λ s. s.prefixes.keys };
}

impl PrefixSet {
    fn new(alloc: Global) -> PrefixSet
        ensures { result ≡ [] }
    {
        PrefixSet {
            prefixes: IndexSet::new(alloc),
        }
    }

    /// Whether the prefix is one of them.
    pub(crate) fn has(&self, prefix: &Text) -> bool
        ensures { result ≡ has_prefix self.now prefix.now }
    {
        self.prefixes.contains(prefix)
    }

    /// The same with this one too.
    fn with(self, prefix: Text) -> Result<PrefixSet, AllocError>
        ensures { IfOk result (λ set. set ≡ with_prefix self prefix) }
    {
        let mut prefixes = self.prefixes;
        let _new = prefixes.insert(prefix)?;
        Ok(PrefixSet { prefixes })
    }
}

/// What has been declared so far.
#[derive(Drop)]
pub(crate) struct Seen {
    pub(crate) prefixes: PrefixSet,
    pub(crate) element_default: bool,
    pub(crate) function_default: bool,
    pub(crate) boundary_space: bool,
}

impl Seen {
    /// Nothing. It takes no memory.
    pub(crate) fn nothing(alloc: Global) -> Seen
        ensures { result ≡ nothing_seen }
    {
        Seen {
            prefixes: PrefixSet::new(alloc),
            element_default: false,
            function_default: false,
            boundary_space: false,
        }
    }

    /// What has been declared after this declaration.
    #[tactic(auto, unfolding(crate::specs::PrologRules::Setters::seen_behind))]
    pub(crate) fn behind(self, setter: &Setter) -> Result<Seen, AllocError>
        ensures { IfOk result (λ seen. seen ≡ seen_behind self setter.now) }
    {
        match setter {
            Setter::Namespace(binding) => self.with_prefix(binding.prefix.copy()?),
            Setter::ElementDefault(_) => Ok(Seen {
                element_default: true,
                ..self
            }),
            Setter::FunctionDefault(_) => Ok(Seen {
                function_default: true,
                ..self
            }),
            Setter::BoundarySpace(_) => Ok(Seen {
                boundary_space: true,
                ..self
            }),
            Setter::Other => Ok(self),
        }
    }

    fn with_prefix(self, prefix: Text) -> Result<Seen, AllocError>
        ensures { IfOk result (λ seen. seen ≡ record self { prefixes = with_prefix self.prefixes prefix }) }
    {
        let prefixes = self.prefixes.with(prefix)?;
        Ok(Seen {
            prefixes,
            element_default: self.element_default,
            function_default: self.function_default,
            boundary_space: self.boundary_space,
        })
    }
}
