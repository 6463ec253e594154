// What the look-up of keys finds.
ghost use Rattle.std.specs.Prelude.{◌≡◌, ℕ, List, Some, true, false};
ghost use Rattle.expr_keys.specs.declared.keys.Key.{Key};
ghost use Rattle.expr_keys.specs.Keys.{key_text, is_worded};
ghost use Rattle.expr_tokens.specs.Words.{key_of_word, key_of_symbol};

/// A word or a symbol is a key exactly where it is the text of that key, and each key is found by its
/// text.
pub fn keys_are_found()
    ensures words { (k : Key) → is_worded k ≡ true → key_of_word (key_text k) ≡ Some k }
    ensures symbols { (k : Key) → is_worded k ≡ false → key_of_symbol (key_text k) ≡ Some k }
    ensures word_text { (k : Key) (cs : List ℕ) → key_of_word cs ≡ Some k → key_text k ≡ cs }
    ensures symbol_text { (k : Key) (cs : List ℕ) → key_of_symbol cs ≡ Some k → key_text k ≡ cs }
{}
