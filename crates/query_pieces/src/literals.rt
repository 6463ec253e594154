// What literals say.
ghost use Rattle.std.specs.Prelude.{◌≡◌, ◌≤◌, ◌∷◌, List, ℕ, false, length, IfOk, OnSome};
ghost use Rattle.std.specs.Prelude.{MatchOption};
ghost use Rattle.std.specs.Str.{chars};
ghost use Rattle.query_pieces.specs.Literals.{is_said, Says, Turns};

use crate::classes::Said;
use crate::scans::Scan;
use std::alloc::{AllocError, Global};
use xt_names::{Text, TextBuilder};

impl<'a> Scan<'a> {
    /// Takes the rest of a reference or of a line end, of which this character was taken: the
    /// character that it is.
    fn turned(&mut self, c: char) -> Option<char>
        requires { is_said c ≡ false }
        ensures turned { MatchOption result ((said : List ℕ) → Says (c ∷ self.old) said → ⊥)
            (λ v. Turns (c ∷ self.old) v self.new) }
        ensures shorter { OnSome result (length self.new ≤ length self.old) }
    {
        if c == '&' {
            self.reference()
        } else {
            self.line_end('\r');
            Some('\n')
        }
    }
}

/// What the text of a literal without its quotes says; None where a reference in it is wrong.
pub(crate) fn said(alloc: Global, text: &str) -> Result<Option<Text>, AllocError>
    ensures { IfOk result (λ found. MatchOption found
        ((said : List ℕ) → Says (chars text.now) said → ⊥) (λ said. Says (chars text.now) said)) }
{
    let mut made = TextBuilder::new(alloc);
    let mut scan = Scan::new(text);
    loop {
        let run = scan.take_run::<Said>();
        made.push_str(run)?;
        match scan.skip() {
            Some(c) => match scan.turned(c) {
                Some(said) => made.push(said)?,
                None => return Ok(None),
            },
            None => return Ok(Some(made.finish()?)),
        }
    }
}
