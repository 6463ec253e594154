// What instructions become.
ghost use Rattle.std.specs.Prelude.{Bool};
ghost use Rattle.xt_syntax.specs.declared.patterns.Pattern.{Pattern};
ghost use Rattle.translated_forms.specs.Bounds.{BodiesAreBounded, LocalKeys, TestsAreBounded};
ghost use Rattle.translated_forms.specs.Places.{Table};

/// A sequence constructor of regular expressions that nest at most 40 levels becomes a regular
/// expression, which nests six levels at most for each level of its instructions, and 71 more (XQuery
/// 1.0, 3).
pub fn what_instructions_become_is_regular_and_bounded()
    ensures { (t : Table) (tested : Pattern → Bool) → LocalKeys t → TestsAreBounded t tested →
        BodiesAreBounded t tested }
{}
