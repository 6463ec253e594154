//! What elements of stylesheets say that break no rule, but for the instructions that they hold:
//! what a closed stylesheet may have there (XSLT 2.0, 5.7, 9 and 10.1). Laws alone.
//!
//! A node is sound where XML allows the names, the texts and the declarations in it, as in a
//! document that was read. `specs/Heads.antt` says what is asked of each form of head.

ghost use Rattle.std.specs.Prelude.{◌≡◌, ◌&&◌, ◌||◌, List, [], Bool, not, true, is_none};
ghost use Rattle.std.specs.List.{list_all};
ghost use Rattle.closed_parts.specs.ClosedHeads.Heads.{call_head_stands, has_one_source, head_stands, is_alone};
ghost use Rattle.closed_parts.specs.ClosedHeads.Heads.{is_good_bound_head, is_good_call_head, is_good_head};
ghost use Rattle.closed_parts.specs.SoundNodes.Sound.{are_sound_attributes, are_sound_nodes};
ghost use Rattle.closed_sheets.specs.Values.{is_good_binding, is_sheet_expr};
ghost use Rattle.sheet_heads.specs.Bindings.{bound_faults, bound_value};
ghost use Rattle.sheet_heads.specs.Bodied.{head_faults, own_value};
ghost use Rattle.sheet_heads.specs.Calls as call;
ghost use Rattle.sheet_heads.specs.Characters.{characters_value};
ghost use Rattle.sheet_heads.specs.Leaves.{selected_faults, selected_value};
ghost use Rattle.sheet_heads.specs.Literals.{literal_faults, literal_value};
ghost use Rattle.closed_texts.specs.SheetLanguage.Language.{sheet_reading};
ghost use Rattle.sheet_table.specs.declared.sheet_nodes.nodes.Node.{Node};
ghost use Rattle.sheet_table.specs.declared.elements.XslElement.{XslElement};
ghost use Rattle.sheet_values.specs.declared.sheet_texts.places.StaticContext.{StaticContext};
ghost use Rattle.sheet_closure.specs.StandingParts.Calls.{expr_stands};
ghost use Rattle.sheet_closure.specs.StandingParts.Values.{if_expr_stands};
ghost use Rattle.xt_names.specs.Classes.{is_xml_text};
ghost use Rattle.xt_names.specs.declared.names.Name.{Name};
ghost use Rattle.xt_tree.specs.Sound.{is_sound_name};
ghost use Rattle.xt_tree.specs.declared.attributes.Attribute.{Attribute};

/// The head of an instruction that holds a sequence constructor, where it breaks no rule, is one
/// that a closed stylesheet may have, may be there, and has no `select` beside content (XSLT
/// 2.0, 5.7).
pub fn unbroken_heads_are_closed()
    ensures good { (p : StaticContext) (e : XslElement) (attributes : List Attribute) (front : List Node)
        (content : Bool) → list_all is_good_binding p.bound ≡ true
        → are_sound_attributes attributes ≡ true → are_sound_nodes front ≡ true
        → head_faults sheet_reading p e attributes front content ≡ []
        → is_good_head (own_value sheet_reading p e attributes front) ≡ true }
    ensures stands { (p : StaticContext) (e : XslElement) (attributes : List Attribute) (front : List Node)
        (content : Bool) → list_all is_good_binding p.bound ≡ true
        → are_sound_attributes attributes ≡ true → are_sound_nodes front ≡ true
        → head_faults sheet_reading p e attributes front content ≡ []
        → head_stands p.in_group (own_value sheet_reading p e attributes front) ≡ true }
    ensures one { (p : StaticContext) (e : XslElement) (attributes : List Attribute) (front : List Node)
        (content : Bool) → list_all is_good_binding p.bound ≡ true
        → are_sound_attributes attributes ≡ true → are_sound_nodes front ≡ true
        → head_faults sheet_reading p e attributes front content ≡ []
        → has_one_source content (own_value sheet_reading p e attributes front) ≡ true }
{}

/// A literal result element, where it breaks no rule, has the name and the attributes of one in a
/// closed stylesheet (XSLT 2.0, 11.1).
pub fn unbroken_literals_are_closed()
    ensures good { (p : StaticContext) (name : Name) (attributes : List Attribute)
        → list_all is_good_binding p.bound ≡ true → is_sound_name name ≡ true
        → are_sound_attributes attributes ≡ true → literal_faults sheet_reading p attributes ≡ []
        → is_good_head (literal_value sheet_reading p name attributes) ≡ true }
    ensures stands { (p : StaticContext) (name : Name) (attributes : List Attribute)
        → list_all is_good_binding p.bound ≡ true → is_sound_name name ≡ true
        → are_sound_attributes attributes ≡ true → literal_faults sheet_reading p attributes ≡ []
        → head_stands p.in_group (literal_value sheet_reading p name attributes) ≡ true }
{}

/// A variable or a parameter, where it breaks no rule, has a name and a type of a closed
/// stylesheet, no `select` beside content, and neither of them where a value must be passed (XSLT
/// 2.0, 9 and 10.1.1).
pub fn unbroken_bounds_are_closed()
    ensures good { (p : StaticContext) (e : XslElement) (attributes : List Attribute) (content : Bool)
        → list_all is_good_binding p.bound ≡ true
        → bound_faults sheet_reading p e attributes content ≡ []
        → is_good_bound_head (bound_value sheet_reading p attributes) ≡ true }
    ensures stands { (p : StaticContext) (e : XslElement) (attributes : List Attribute) (content : Bool)
        → list_all is_good_binding p.bound ≡ true
        → bound_faults sheet_reading p e attributes content ≡ []
        → if_expr_stands p.in_group (bound_value sheet_reading p attributes).select ≡ true }
    ensures one { (p : StaticContext) (e : XslElement) (attributes : List Attribute) (content : Bool)
        → list_all is_good_binding p.bound ≡ true
        → bound_faults sheet_reading p e attributes content ≡ []
        → is_alone (bound_value sheet_reading p attributes).select content ≡ true }
    ensures required { (p : StaticContext) (e : XslElement) (attributes : List Attribute) (content : Bool)
        → list_all is_good_binding p.bound ≡ true
        → bound_faults sheet_reading p e attributes content ≡ []
        → (not (bound_value sheet_reading p attributes).required
        || (is_none (bound_value sheet_reading p attributes).select && not content)) ≡ true }
{}

/// The head of an instruction that passes parameters, where it breaks no rule, is one of a closed
/// stylesheet, and may be there (XSLT 2.0, 6.3, 6.7 and 10.1).
pub fn unbroken_calls_are_closed()
    ensures good { (p : StaticContext) (e : XslElement) (attributes : List Attribute) (front : List Node)
        → list_all is_good_binding p.bound ≡ true → are_sound_nodes front ≡ true
        → call.call_faults sheet_reading p e attributes front ≡ []
        → is_good_call_head (call.own_value sheet_reading p e attributes front) ≡ true }
    ensures stands { (p : StaticContext) (e : XslElement) (attributes : List Attribute) (front : List Node)
        → list_all is_good_binding p.bound ≡ true → are_sound_nodes front ≡ true
        → call.call_faults sheet_reading p e attributes front ≡ []
        → call_head_stands p.in_group (call.own_value sheet_reading p e attributes front) ≡ true }
{}

/// What an instruction selects that holds none, where it breaks no rule, is an expression of a
/// closed stylesheet, and may be there; and the characters of xsl:text are those of XML (XSLT
/// 2.0, 11.4.2, 11.9.2 and 11.10).
pub fn unbroken_leaves_are_closed()
    ensures good { (p : StaticContext) (e : XslElement) (attributes : List Attribute) (kids : List Node)
        → list_all is_good_binding p.bound ≡ true
        → selected_faults sheet_reading p e attributes kids ≡ []
        → is_sheet_expr (selected_value sheet_reading p attributes) ≡ true }
    ensures stands { (p : StaticContext) (e : XslElement) (attributes : List Attribute) (kids : List Node)
        → list_all is_good_binding p.bound ≡ true
        → selected_faults sheet_reading p e attributes kids ≡ []
        → expr_stands p.in_group (selected_value sheet_reading p attributes) ≡ true }
    ensures texts { (kids : List Node) → are_sound_nodes kids ≡ true
        → is_xml_text (characters_value kids) ≡ true }
{}
