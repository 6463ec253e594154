//! Sound values, and what is read of them: laws alone, nothing runs.
//!
//! A value is sound where its nodes have their places in sound trees, its texts have characters of XML alone
//! and its names are those that XML and its namespaces allow (`Sound` in `specs/`).
//!
//! Example: the string value of an element of a sound tree is a text of XML, and so is what a cast
//! to a string makes of an integer.

ghost use Rattle.std.specs.Prelude.{◌≡◌, true, List};
ghost use Rattle.xt_names.specs.Classes.{is_xml_text};
ghost use Rattle.xt_types.specs.declared.types.SeqType.{SeqType};
ghost use Rattle.xdm_items.specs.Conversion.{converted};
ghost use Rattle.xdm_items.specs.Values.{atomized, string_value_of};
ghost use Rattle.xdm_items.specs.declared.items.Item.{Item};
ghost use Rattle.expr_meaning.specs.Outcomes.Outcome.{Every};
ghost use Rattle.expr_laws.specs.Carrier.{OnValue};
ghost use Rattle.meaning_laws.specs.SoundValues.Sound.{IsSound};

/// The string value of a sound value has characters of XML alone (XDM, 5.13), and its typed value
/// is sound (5.15).
pub fn values_of_sound_items_are_sound()
    ensures texts { (x : Item) → IsSound x → is_xml_text (string_value_of x) ≡ true }
    ensures atoms { (xs : List Item) → Every IsSound xs → Every IsSound (atomized xs) }
{}

/// Sound values that are converted to a type are sound (the function conversion rules, XPath 2.0,
/// 3.1.5).
pub fn conversions_keep_values_sound()
    ensures { (type : SeqType) (xs : List Item) → Every IsSound xs →
        OnValue (Every IsSound) (converted type xs) }
{}
