//! Weighing checks sequential consistency: it reports whether the finished calls of the ports belong to one history of
//! the sequential store, which keeps the order of each list, with the image at its end. The lists have no times. So the
//! order of calls of different ports is checked only where the positions of their calls in the history show it. The
//! lists may come from anywhere, and need not be of a board. `Good` means that such a history exists. `Bad` names the
//! first bad call of the lowest list. `BadEnd` means that the image alone does not fit.
//!
//! ```rust
//! let verdict = weigh(rt.alloc(), setup, lists, image)?;
//! ```
#![tactic(auto)]

mod calls;
mod chains;
mod judging;
mod laws_of_weighing;
mod notes;
mod shown;
mod verdicts;
mod weighing;

pub use laws_of_weighing::{
    bad_end_is_said_over_lists, good_is_one_history, good_is_said_over_lists, verdict_is_one,
};
pub use model::Placed;
pub use store_image::Image;
pub use verdicts::Weighed;
pub use weighing::weigh;
