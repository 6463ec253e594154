//! The axes of a path, walked node by node (XPath 2.0, 3.2.1.1).
//!
//! The nodes on an axis of a node are those of all nodes of its tree that stand to it as the axis says, in document order, and
//! for an axis that runs against it in the other order. A `Cursor` goes along them one by one: what is to come at first is
//! exactly that list, and each step takes its first node away. A cursor holds one way from the root and no list, a step takes
//! no memory, and each step counts one on the counter that is handed in (`Steps`), which nothing else raises.
//!
//! Example: in `<a><b/><c/></a>` a cursor on the axis `child` of the element `a` goes to `b`, then to `c`, and then says that
//! there is no more; on the axis `preceding-sibling` of `c` it goes to `b`.
#![tactic(auto)]

mod axis_steps;
mod cursors;
mod moves;
pub mod step_walks;
mod steps;

pub use cursors::Cursor;
pub use steps::Steps;
