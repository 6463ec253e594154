//! Operators and tests of types on operands that are evaluated (XPath 2.0, 3.3 to 3.5 and 3.10).
//!
//! `on_values` gives what such an expression gives where its operands have ended with the lists that
//! are handed in. That this is the meaning of the whole expression then is a law.
//!
//! Example: of `$a + $b` and the lists of 1 and of 2 it gives 3, whatever `$a` and `$b` hold.
#![tactic(auto)]

mod forms;
mod laws;

pub use forms::on_values;
pub use laws::an_operation_gives_the_value_of_its_operands;
