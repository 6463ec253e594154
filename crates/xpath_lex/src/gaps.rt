// White space and comments.
ghost use Rattle.std.specs.Prelude.{◌≡◌, ◌∷◌, ◌≤◌, List, ℕ, length, MatchBool};
ghost use Rattle.xpath_lex.specs.Gaps.{Comment, Gap, Stops};

use crate::classes::{Plain, Space, is_space};
use crate::scans::Scan;

impl<'a> Scan<'a> {
    /// Takes `(:`, if it comes next.
    fn open(&mut self) -> bool
        ensures { MatchBool result (self.old ≡ 40 ∷ 58 ∷ self.new)
            ((self.new ≡ self.old) × ((z : List ℕ) → self.old ≡ 40 ∷ 58 ∷ z → ⊥)) }
    {
        let before = self.fork();
        if self.eat('(') {
            if self.eat(':') {
                return true;
            }
            *self = before;
        }
        false
    }

    /// Takes the rest of a comment, of which `(:` was taken, and says whether it is closed. The
    /// comments that are open are counted.
    fn close(&mut self) -> bool
        ensures closed { MatchBool result
            (Comment self.old self.new) ((rest : List ℕ) → Comment self.old rest → ⊥) }
        ensures shorter { length self.new ≤ length self.old }
    {
        // no more can be open than bytes are left
        let _bytes = self.left();
        let mut depth: usize = 1;
        while depth > 0 {
            self.take_run::<Plain>();
            if self.eat('(') {
                if self.eat(':') {
                    depth += 1;
                }
            } else if self.eat(':') {
                if self.eat(')') {
                    depth -= 1;
                }
            } else {
                return false;
            }
        }
        true
    }

    /// Takes white space and comments. The truth values say whether a digit stands directly before
    /// them, and directly before what follows.
    pub(crate) fn skip_gap(&mut self, behind: bool) -> bool
        ensures gap { Gap behind self.old result self.new }
        ensures stops { Stops self.new }
    {
        let mut after = behind;
        loop {
            let before = self.fork();
            match self.peek() {
                Some(c) if is_space(c) => self.take_run::<Space>(),
                _ => {
                    if !self.open() {
                        return after;
                    }
                    if !self.close() {
                        *self = before;
                        return after;
                    }
                }
            }
            after = false;
        }
    }
}
