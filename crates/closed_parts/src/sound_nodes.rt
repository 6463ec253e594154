//! Nodes of stylesheets whose names, texts and declarations of namespaces XML allows (XML 1.0, 2.2;
//! Namespaces in XML 1.0, 3). A law alone.
//!
//! The nodes of a sound tree are sound, where the declarations of its elements may stand.

ghost use Rattle.std.specs.Prelude.{◌≡◌, List, [], Bool, false, true};
ghost use Rattle.sheet_table.specs.SheetNodes.Cleaned.{cleaned, element_node};
ghost use Rattle.closed_parts.specs.SoundNodes.Sound.{are_good_declarations, are_sound_nodes, is_sound_node};
ghost use Rattle.xt_names.specs.declared.names.Binding.{Binding};
ghost use Rattle.xt_names.specs.declared.names.Name.{Name};
ghost use Rattle.xt_tree.specs.Forest.{Forest};
ghost use Rattle.xt_tree.specs.Sound.{are_sound_attributes, are_sound_behind, is_sound_name};
ghost use Rattle.xt_tree.specs.declared.attributes.Attribute.{Attribute};

/// The nodes that a sound forest stands for are sound, and so is the node of an element (XSLT 2.0,
/// 4.2).
pub fn nodes_of_sound_trees_are_sound()
    ensures forests { (keep : Bool) (declared : List (List Binding)) (kids : Forest)
        → are_good_declarations declared ≡ true → are_sound_behind false kids ≡ true
        → are_sound_nodes (cleaned keep declared [] kids) ≡ true }
    ensures elements { (declared : List (List Binding)) (name : Name) (attributes : List Attribute)
        (kids : Forest) → are_good_declarations declared ≡ true → is_sound_name name ≡ true
        → are_sound_attributes attributes ≡ true → are_sound_behind false kids ≡ true
        → is_sound_node (element_node declared name attributes kids) ≡ true }
{}
