ghost use Rattle.std.specs.Prelude.{◌≡◌, ℕ, ◌++◌, ◌∷◌, ◌≤◌, [], length, take, IfOk, OnOk};
ghost use Rattle.doc_writer.specs.Heads.{head_of, keeps_prefix, may_declare, with_element, with_attribute};
ghost use Rattle.doc_writer.specs.HeadView.{head_at};
ghost use Rattle.xt_names.specs.ExprNames.{binding};

use crate::used::UsedPrefixes;
use name_scopes::NamespaceScope;
use std::alloc::{AllocError, Global};
use xt_names::{Name, Text};
use xt_tree::Attribute;

/// The scope, and the prefixes that the present start tag writes.
#[derive(Drop)]
pub(crate) struct Heads {
    pub scope: NamespaceScope,
    /// The prefix of the element, and then those of its attributes.
    pub used: UsedPrefixes,
}

impl Heads {
    /// Settles what a start tag declares and which prefixes it writes. The declarations stand from the answered place on.
    #[tactic(auto, unfolding(crate::specs::Heads::head_of))]
    pub fn open(
        &mut self,
        alloc: Global,
        name: &Name,
        attributes: &[Attribute],
    ) -> Result<usize, AllocError>
        ensures place { IfOk result (λ place. place ≡ length self.old.scope) }
        ensures outer { IfOk result (λ place. take place self.new.scope ≡ self.old.scope) }
        ensures within { IfOk result (λ place. place ≤ length self.new.scope) }
        ensures head { IfOk result (λ place. head_at place self.new.scope self.new.used ≡ head_of self.old.scope name.now attributes.now) }
    {
        let place = self.scope.len();
        self.used.clear();
        self.open_element(place, name)?;
        for attribute in attributes {
            self.open_attribute(alloc, place, &attribute.name)?;
        }
        Ok(place)
    }

    #[tactic(auto, unfolding(crate::specs::Heads::with_element))]
    fn open_element(&mut self, place: usize, name: &Name) -> Result<(), AllocError>
        requires { place ≤ length self.old.scope }
        ensures outer { OnOk result (take place self.new.scope ≡ take place self.old.scope) }
        ensures within { OnOk result (place ≤ length self.new.scope) }
        ensures head { OnOk result (head_at place self.new.scope self.new.used ≡ with_element (head_at place self.old.scope self.old.used) name.now) }
    {
        if self.scope.binds_to(&name.prefix, &name.uri) {
            self.write(name.prefix.copy()?)
        } else {
            self.declare(name.prefix.copy()?, &name.uri)
        }
    }

    #[tactic(auto, using(crate::proofs::HeadLemmas::empty_text), unfolding(crate::specs::Heads::with_attribute))]
    fn open_attribute(&mut self, alloc: Global, place: usize, name: &Name) -> Result<(), AllocError>
        requires { place ≤ length self.old.scope }
        ensures outer { OnOk result (take place self.new.scope ≡ take place self.old.scope) }
        ensures within { OnOk result (place ≤ length self.new.scope) }
        ensures head { OnOk result (head_at place self.new.scope self.new.used ≡ with_attribute (head_at place self.old.scope self.old.used) name.now) }
    {
        if name.uri.is_empty() {
            // The empty prefix is the empty uri's text.
            return self.write(name.uri.copy()?);
        }
        if self.keeps_prefix(name) {
            return self.write(name.prefix.copy()?);
        }
        if self.may_declare(place, &name.prefix)? {
            return self.declare(name.prefix.copy()?, &name.uri);
        }
        let prefix = self.scope.free_prefix(alloc)?;
        self.declare(prefix, &name.uri)
    }

    #[tactic(auto, unfolding(crate::specs::Heads::keeps_prefix))]
    fn keeps_prefix(&self, name: &Name) -> bool
        ensures { (place : ℕ) → result ≡ keeps_prefix (head_at place self.now.scope self.now.used) name.now }
    {
        !name.prefix.is_empty() && self.scope.binds_to(&name.prefix, &name.uri)
    }

    #[tactic(auto, unfolding(crate::specs::Heads::may_declare))]
    fn may_declare(&mut self, place: usize, prefix: &Text) -> Result<bool, AllocError>
        requires { place ≤ length self.old.scope }
        ensures scope { self.new.scope ≡ self.old.scope }
        ensures used { self.new.used ≡ self.old.used }
        ensures may { IfOk result (λ may. may ≡ may_declare (head_at place self.old.scope self.old.used) prefix.now) }
    {
        if prefix.is_empty() || self.scope.binds_from(place, prefix) {
            return Ok(false);
        }
        Ok(!self.used.has(prefix)?)
    }

    /// The next name of the tag is written with the prefix.
    fn write(&mut self, prefix: Text) -> Result<(), AllocError>
        ensures scope { self.new.scope ≡ self.old.scope }
        ensures used { OnOk result (self.new.used ≡ self.old.used ++ prefix ∷ []) }
    {
        self.used.push(prefix)?;
        Ok(())
    }

    /// The same, where the prefix is first declared.
    fn declare(&mut self, prefix: Text, uri: &Text) -> Result<(), AllocError>
        ensures scope { OnOk result (self.new.scope ≡ self.old.scope ++ binding prefix uri.now ∷ []) }
        ensures used { OnOk result (self.new.used ≡ self.old.used ++ prefix ∷ []) }
    {
        self.scope.push(prefix.copy()?, uri.copy()?)?;
        self.write(prefix)
    }
}
