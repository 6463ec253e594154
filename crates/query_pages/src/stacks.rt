// What is open where a text is written.
ghost use Rattle.std.specs.Prelude.{◌≡◌, ◌∷◌, [], OnOk, MatchOption};
ghost use Rattle.query_pieces.specs.Points.{changed, outside, in_expression};
ghost use Rattle.query_pages.specs.TokenTexts.Texts.{innermost};

use query_pieces::{Change, Context};
use std::alloc::{AllocError, Global};
use std::marker::Model;

/// What is open; contracts see it as a list, the innermost first.
#[derive(Drop)]
pub(crate) struct Stack {
    /// The innermost last.
    items: Vec<Context>,
}

impl Model for Stack {
    ghost use Rattle.std.specs.Prelude.{List, reverse};
    ghost use Rattle.query_pieces.specs.declared.contexts.Context.{Context};

    ghost Value = { List Context };

    ghost view = { λ s. reverse s.items.items };
}

impl Stack {
    pub(crate) fn new(alloc: Global) -> Stack
        ensures { result ≡ [] }
    {
        Stack {
            items: Vec::new(alloc),
        }
    }

    /// What is open innermost.
    fn top(&self) -> Option<Context>
        ensures { MatchOption result (self.now ≡ []) (λ c. self.now ≡ c ∷ outside self.now) }
    {
        self.items.last().copied()
    }

    fn push(&mut self, context: Context) -> Result<(), AllocError>
        ensures { OnOk result (self.new ≡ context ∷ self.old) }
    {
        self.items.push(context)?;
        Ok(())
    }

    fn pop(&mut self)
        ensures { self.new ≡ outside self.old }
    {
        let _left = self.items.pop();
    }

    pub(crate) fn change(&mut self, change: Change) -> Result<(), AllocError>
        ensures { OnOk result (self.new ≡ changed change self.old) }
    {
        match change {
            Change::Stays => Ok(()),
            Change::Enters(context) => self.push(context),
            Change::Becomes(context) => {
                self.pop();
                self.push(context)
            }
            Change::Leaves => {
                self.pop();
                Ok(())
            }
        }
    }

    /// The innermost context that is open; braces, where none is.
    pub(crate) fn innermost(&self) -> Context
        ensures { result ≡ innermost self.now }
    {
        match self.top() {
            None => Context::Enclosed,
            Some(context) => context,
        }
    }

    /// Whether tokens of expressions stand here.
    pub(crate) fn in_expression(&self) -> bool
        ensures { result ≡ in_expression self.now }
    {
        match self.top() {
            None => true,
            Some(Context::Enclosed) => true,
            Some(_) => false,
        }
    }
}
