// Where a character of an expression stands.
ghost use Rattle.std.specs.Prelude.{◌≡◌, ◌≤◌, ◌+◌, ◌<◌};
ghost use Rattle.sheet_values.specs.Within.{depth, next_plain, next_comment, closed, next_within};
ghost use Rattle.sheet_values.specs.Within.{is_outside};

/// What is open in an expression after some of its characters (XPath 2.0, 2.6 and A.2.1).
#[derive(Clone, Copy)]
pub enum Within {
    /// Nothing.
    Outside,
    /// Nothing, and `(` stands directly before, which begins a comment where `:` follows.
    Parenthesis,
    /// A literal between such quotes.
    Literal(char),
    /// So many comments.
    Comment(usize),
    /// So many comments, and `(` stands directly before.
    CommentParenthesis(usize),
    /// So many comments, and `:` stands directly before.
    CommentColon(usize),
}

fn next_plain(c: char) -> Within
    ensures value { result ≡ next_plain c }
    ensures small { depth result ≤ 0 }
{
    if c == '"' || c == '\'' {
        Within::Literal(c)
    } else if c == '(' {
        Within::Parenthesis
    } else {
        Within::Outside
    }
}

fn next_comment(comments: usize, c: char) -> Within
    ensures value { result ≡ next_comment comments c }
    ensures small { depth result ≤ comments }
{
    if c == '(' {
        Within::CommentParenthesis(comments)
    } else if c == ':' {
        Within::CommentColon(comments)
    } else {
        Within::Comment(comments)
    }
}

fn closed(comments: usize) -> Within
    ensures value { result ≡ closed comments }
    ensures small { depth result ≤ comments }
{
    if comments <= 1 {
        Within::Outside
    } else {
        Within::Comment(comments - 1)
    }
}

/// What is open after one more character.
pub(crate) fn next_within(within: Within, c: char) -> Within
    requires { depth within < 18446744073709551615 }
    ensures value { result ≡ next_within within c }
    ensures small { depth result ≤ depth within + 1 }
{
    match within {
        Within::Outside => next_plain(c),
        Within::Parenthesis => {
            if c == ':' {
                Within::Comment(1)
            } else {
                next_plain(c)
            }
        }
        Within::Literal(quote) => { if c == quote { Within::Outside } else { within } }
        Within::Comment(comments) => next_comment(comments, c),
        Within::CommentParenthesis(comments) => {
            if c == ':' {
                Within::Comment(comments + 1)
            } else {
                next_comment(comments, c)
            }
        }
        Within::CommentColon(comments) => {
            if c == ')' {
                closed(comments)
            } else {
                next_comment(comments, c)
            }
        }
    }
}

/// Whether neither a literal nor a comment is open.
pub(crate) fn is_outside(within: Within) -> bool
    ensures { result ≡ is_outside within }
{
    match within {
        Within::Outside | Within::Parenthesis => true,
        Within::Literal(_) => false,
        Within::Comment(_) | Within::CommentParenthesis(_) | Within::CommentColon(_) => false,
    }
}
