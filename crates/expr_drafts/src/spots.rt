// Where an expression is put.
use query_pages::Gap;

/// How far lines are indented at most.
const DEEPEST: u8 = 60;

/// What is wanted before the first token of an expression, and how its lines are indented.
#[derive(Clone, Copy)]
pub struct Spot {
    /// What comes before the first token.
    pub first: Gap,
    /// By how many spaces a new line is indented.
    indent: u8,
    /// Whether no line may end.
    flat: bool,
}

impl Spot {
    /// On a new line that is indented by so many spaces.
    pub fn on_line(indent: u8) -> Spot {
        Spot {
            first: Gap::Line(indent),
            indent,
            flat: false,
        }
    }

    /// After a space, where lines are indented by so many spaces.
    pub fn behind_space(indent: u8) -> Spot {
        Spot {
            first: Gap::Space,
            indent,
            flat: false,
        }
    }

    /// Two spaces more, while there is room.
    fn deeper(self) -> u8 {
        if self.indent < DEEPEST {
            self.indent.saturating_add(2)
        } else {
            self.indent
        }
    }

    /// Where a line may end.
    pub fn soft(self) -> Gap {
        if self.flat {
            Gap::Space
        } else {
            Gap::Soft(self.deeper())
        }
    }

    /// On a line of its own.
    pub fn line(self) -> Gap {
        if self.flat {
            Gap::Space
        } else {
            Gap::Line(self.indent)
        }
    }

    /// On a line of its own that is indented more.
    pub fn deeper_line(self) -> Gap {
        if self.flat {
            Gap::Space
        } else {
            Gap::Line(self.deeper())
        }
    }

    /// A part that comes after a space.
    pub fn part(self) -> Spot {
        Spot {
            first: Gap::Space,
            indent: self.deeper(),
            flat: self.flat,
        }
    }

    /// A part where a line may end before it.
    pub fn soft_part(self) -> Spot {
        Spot {
            first: self.soft(),
            indent: self.deeper(),
            flat: self.flat,
        }
    }

    /// A part on a line of its own that is indented more.
    pub fn line_part(self) -> Spot {
        Spot {
            first: self.deeper_line(),
            indent: self.deeper(),
            flat: self.flat,
        }
    }

    /// An item of a list, after a space where it is the first.
    pub fn item(self, place: usize) -> Spot {
        if place == 0 {
            self.part()
        } else {
            self.soft_part()
        }
    }

    /// An item of a list that begins where the list does.
    pub fn listed(self, place: usize) -> Spot {
        if place == 0 { self } else { self.soft_part() }
    }

    /// An arm of a conditional: `if`, or `if` behind `else`.
    pub fn arm(self, place: usize) -> Spot {
        if place == 0 {
            self
        } else {
            Spot {
                first: Gap::Space,
                indent: self.indent,
                flat: self.flat,
            }
        }
    }

    /// A clause, on a line of its own where it is not the first.
    pub fn clause(self, place: usize) -> Spot {
        if place == 0 {
            self
        } else {
            Spot {
                first: self.line(),
                indent: self.indent,
                flat: self.flat,
            }
        }
    }

    /// A variable that joins those of the same `for`.
    pub fn joined(self) -> Spot {
        self.part().line_part()
    }

    /// A part within a direct element.
    pub fn within(self) -> Spot {
        Spot {
            first: Gap::Space,
            indent: self.indent,
            flat: true,
        }
    }
}
