//! N processes under events: a world takes one event and returns the act that the event adds to the run, or the refusal.
//! Each act keeps the main theorem, which is a clause of [`World::event`]. The crate also exports the flicks of steps, the
//! picks of turns, and the laws.
//!
//! ```rust
//! let mut world = World::new(rt.alloc(), setup)?;
//! ```
//!
//! The following makes an event, such as `Event::Call(0, Command::Ask)` or `Event::Step(0, false)`, and prints its marks:
//!
//! ```rust
//! let Ok(act) = world.event(event) else {
//!     bail!("an event is refused");
//! };
//! for mark in &act.marks {
//!     println!(rt; "{} {mark}", event.process())?;
//! }
//! ```
#![tactic(auto)]

mod cores;
mod marks;
mod queue;
mod seats;
mod world;

pub use choices::{Divisor, Flick, Flicks};
pub use cores::Core;
pub use history_laws;
pub use laws;
pub use marks::{event_marks, step_marks};
pub use model::{Act, Event, Mark, Refusal, Stage, Taken};
pub use process::{
    AccessMade, AccessProgress, AccessesMade, BitCopy, CopyState, EventOutcome, Image, KnownTicket,
    Process, RegisterName, Settling, StepOutcome,
};
pub use world::World;
