//! Sequence constructors of stylesheets that break no rule: those of a closed stylesheet (XSLT
//! 2.0, 5.7). A law alone.
//!
//! The proof goes over the levels: an instruction is closed where its head is, by the laws on
//! heads, and where what it holds is, which may have one level less.

ghost use Rattle.std.specs.Prelude.{◌≡◌, ◌≤◌, ℕ, List, [], true};
ghost use Rattle.std.specs.List.{list_all};
ghost use Rattle.closed_parts.specs.SoundNodes.Sound.{are_sound_nodes};
ghost use Rattle.closed_sheets.specs.Instrs.{is_good_body};
ghost use Rattle.closed_sheets.specs.Values.{is_good_binding};
ghost use Rattle.sheet_bodies.specs.Bodies.{body_faults, body_value};
ghost use Rattle.closed_sheets.specs.SheetForms.InstrNest.{body_nest_of};
ghost use Rattle.closed_parts.specs.SheetLanguage.Language.{sheet_reading};
ghost use Rattle.sheet_table.specs.declared.sheet_nodes.nodes.Node.{Node};
ghost use Rattle.sheet_values.specs.declared.sheet_texts.places.StaticContext.{StaticContext};
ghost use Rattle.sheet_closure.specs.StandingParts.Bodies.{body_stands};

/// The instructions of sound nodes that break no rule, where prefixes are bound as XML allows, are
/// those of a closed stylesheet, may stand where the nodes do, and have at most as many levels as
/// they may have there (XSLT 2.0, 5.7).
pub fn unbroken_bodies_are_closed()
    ensures good { (room : ℕ) (p : StaticContext) (nodes : List Node)
        → list_all is_good_binding p.bound ≡ true → are_sound_nodes nodes ≡ true
        → body_faults sheet_reading room p nodes ≡ []
        → is_good_body (body_value sheet_reading room p nodes) ≡ true }
    ensures stands { (room : ℕ) (p : StaticContext) (nodes : List Node)
        → list_all is_good_binding p.bound ≡ true → are_sound_nodes nodes ≡ true
        → body_faults sheet_reading room p nodes ≡ []
        → body_stands (body_value sheet_reading room p nodes) p.in_group ≡ true }
    ensures nests { (room : ℕ) (p : StaticContext) (nodes : List Node)
        → list_all is_good_binding p.bound ≡ true → are_sound_nodes nodes ≡ true
        → body_faults sheet_reading room p nodes ≡ []
        → body_nest_of (body_value sheet_reading room p nodes) ≤ room }
{}
