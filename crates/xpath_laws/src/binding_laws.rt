//! Bindings of prefixes that a closed stylesheet may have where a name is computed (XSLT 2.0, 11.2;
//! Namespaces in XML 1.0, 3). A law alone.
//!
//! What prefixes mean under such bindings is what XML and its namespaces allow.

ghost use Rattle.std.specs.Prelude.{◌≡◌, List, true};
ghost use Rattle.std.specs.List.{list_all};
ghost use Rattle.closed_sheets.specs.Values.{is_good_binding};
ghost use Rattle.sound_expressions.specs.SoundForms.Sound.{SoundBindings};
ghost use Rattle.xt_names.specs.declared.names.Binding.{Binding};

/// Where each binding is that of the prefix xml to its own uri, or one that may be declared, each
/// prefix has a uri that XML allows for it (Namespaces in XML 1.0, 3).
pub fn good_bindings_are_sound()
    ensures { (bound : List Binding) → list_all is_good_binding bound ≡ true → SoundBindings bound }
{}
