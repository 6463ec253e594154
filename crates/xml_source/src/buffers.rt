// Text that is put together piece by piece.
ghost use Rattle.std.specs.Prelude.{◌≡◌, ◌++◌, ◌∷◌, [], OnOk, OnErr, IfOk};
ghost use Rattle.std.specs.Str.{chars};
ghost use Rattle.xt_names.specs.Allowed.{is_empty_text};

use std::alloc::{AllocError, Global};
use std::marker::Model;
use xt_names::Text;

/// A text that is put together and made over and over in the same memory; contracts see its characters.
#[derive(Drop)]
pub struct Buffer {
    text: String,
}

impl Model for Buffer {
    ghost use Rattle.std.specs.Prelude.{List, ℕ};
    ghost use Rattle.std.specs.Str.{chars};
    ghost use Rattle.std.specs.String.{string_bytes};

    ghost Value = { List ℕ };

    ghost view = { λ b. chars (string_bytes b.text) };
}

impl Buffer {
    /// Without a character.
    pub fn new(alloc: Global) -> Buffer
        ensures { result ≡ [] }
    {
        Buffer {
            text: String::new(alloc),
        }
    }

    /// Takes all characters away.
    pub fn clear(&mut self)
        ensures { self.new ≡ [] }
    {
        self.text.clear();
    }

    /// Puts a text at the end.
    pub fn push_str(&mut self, s: &str) -> Result<(), AllocError>
        ensures { OnOk result (self.new ≡ self.old ++ chars s.now) }
    {
        self.text.push_str(s)
    }

    /// Puts a character at the end.
    pub fn push(&mut self, c: char) -> Result<(), AllocError>
        ensures { OnOk result (self.new ≡ self.old ++ c ∷ []) }
    {
        self.text.push(c)
    }

    /// Whether there is no character.
    #[tactic(auto, unfolding(xt_names::specs::Allowed::is_empty_text))]
    pub fn is_empty(&self) -> bool
        ensures { result ≡ is_empty_text self.now }
    {
        match self.text.as_str().chars().next() {
            Some(_) => false,
            None => true,
        }
    }

    /// The characters as a text.
    pub fn to_text(&self, alloc: Global) -> Result<Text, AllocError>
        ensures { IfOk result (λ text. text ≡ self.now) }
    {
        Text::make(alloc, self.text.as_str())
    }
}
