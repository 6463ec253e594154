//! Declarations of stylesheets that break no rule: such as a closed stylesheet has (XSLT 2.0,
//! 3.6). Laws alone.
//!
//! `specs/Closed.antt` says what is asked of each kind of declaration; by the laws on the one
//! stylesheet that declarations make up, that stylesheet has it too.
#![tactic(auto)]

pub mod closed_bodies;
pub mod closed_heads;
pub mod declared_bindings;
pub mod sound_nodes;

ghost use Rattle.std.specs.Prelude.{◌≡◌, [], false, true};
ghost use Rattle.std.specs.List.{list_all};
ghost use Rattle.assembly_laws.specs.Laws.{declares, declares_spaces, has_asked};
ghost use Rattle.closed_parts.specs.SoundNodes.Sound.{is_sound_node};
ghost use Rattle.closed_parts.specs.Closed.{closed_part, closed_space};
ghost use Rattle.closed_sheets.specs.Sheets.{are_sound_modes, has_good_parts};
ghost use Rattle.closed_sheets.specs.Values.{is_good_binding};
ghost use Rattle.sheet_closure.specs.Closed.{is_space_test};
ghost use Rattle.sheet_closure.specs.Declared.{has_uri};
ghost use Rattle.closed_parts.specs.SheetLanguage.Language.{sheet_reading};
ghost use Rattle.sheet_table.specs.declared.sheet_nodes.nodes.Node.{Node};
ghost use Rattle.sheet_parts.specs.Tops.{top_faults, top_value};
ghost use Rattle.sheet_values.specs.declared.sheet_texts.places.StaticContext.{StaticContext};
ghost use Rattle.sheet_closure.specs.StandingParts.Sheets.{parts_stand};
ghost use Rattle.xt_sheets.specs.declared.sheets.Sheet.{Sheet};

/// What a sound node at the top of a stylesheet declares, where it breaks no rule and prefixes are
/// bound as XML allows, is what a closed stylesheet may declare (XSLT 2.0, 3.6).
pub fn unbroken_declarations_are_closed()
    ensures parts { (p : StaticContext) (n : Node) → list_all is_good_binding p.bound ≡ true
        → p.in_group ≡ false → is_sound_node n ≡ true → top_faults sheet_reading p n ≡ []
        → declares closed_part (top_value sheet_reading p n) ≡ true }
    ensures spaces { (p : StaticContext) (n : Node) → list_all is_good_binding p.bound ≡ true
        → p.in_group ≡ false → is_sound_node n ≡ true → top_faults sheet_reading p n ≡ []
        → declares_spaces closed_space (top_value sheet_reading p n) ≡ true }
{}

/// A stylesheet whose declarations have that, with modes and rules on white space whose names XML
/// allows, has the good parts of a closed one, each of which may stand where it does; each of its
/// functions has a uri, and so has each test of white space that needs one (XSLT 2.0, 3.6).
pub fn stylesheets_of_closed_parts_are_good()
    ensures good { (s : Sheet) → has_asked closed_part s ≡ true → are_sound_modes s.modes ≡ true
        → list_all closed_space s.space ≡ true → has_good_parts s ≡ true }
    ensures stands { (s : Sheet) → has_asked closed_part s ≡ true → are_sound_modes s.modes ≡ true
        → list_all closed_space s.space ≡ true → parts_stand s ≡ true }
    ensures uris { (s : Sheet) → has_asked closed_part s ≡ true → are_sound_modes s.modes ≡ true
        → list_all closed_space s.space ≡ true → list_all has_uri s.functions ≡ true }
    ensures spaces { (s : Sheet) → has_asked closed_part s ≡ true → are_sound_modes s.modes ≡ true
        → list_all closed_space s.space ≡ true
        → list_all (λ r. is_space_test r.test) s.space ≡ true }
{}
