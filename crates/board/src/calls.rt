//! The calls of a port: the finished ones, and the unfinished one.
ghost use Rattle.std.specs.Prelude.{◌≡◌, OnErr, OnOk};
ghost use Rattle.model.specs.declared.Mark.TheVariants.{Called};
ghost use Rattle.board.specs.Calls.{calls_after, finished, no_calls, with_answer, with_place};
ghost use Rattle.board.specs.Listing.{GoOnBy};

use model::Placed;
use plain_store::{Answer, Command, NestedTypes};
use process::StepOutcome;
use std::alloc::{AllocError, Global};
use std::marker::Model;

/// The list of a port, with room for the unfinished call.
#[derive(Drop)]
pub(crate) struct CallList {
    done: Vec<Placed>,
    current: Option<Placed>,
}

impl Model for CallList {
    ghost use Rattle.std.specs.Prelude.{◌<◌, IfSome, vec_capacity, vec_len};
    ghost use Rattle.board.specs.Calls.{Calls};

    ghost Value = { Calls };

    ghost view = { λ l. record { done = l.done.items; now = l.current } };

    ghost invariant = { λ l. IfSome l.current (λ _. vec_len l.done < vec_capacity l.done) };
}

impl CallList {
    /// Creates the list of a process that has not called. Allocates nothing.
    pub fn new(alloc: Global) -> CallList
        ensures { result ≡ no_calls }
    {
        CallList {
            done: Vec::new(alloc),
            current: None,
        }
    }

    /// Returns the finished calls, in order.
    pub fn done(&self) -> &[Placed]
        ensures { result.now ≡ self.now.done }
    {
        &self.done
    }

    /// Returns the finished calls, in order, and consumes the list.
    pub fn into_done(self) -> Vec<Placed>
        ensures { result.items ≡ self.done }
    {
        let CallList { done, .. } = self;
        done
    }

    /// Begins a call and reserves room for its entry. After a failed allocation the list is unchanged.
    pub fn begin(&mut self, command: Command) -> Result<(), AllocError>
        ensures begun { OnOk result (self.new ≡ calls_after 0 self.old (Called command)) }
        ensures unchanged { OnErr result (self.new ≡ self.old) }
    {
        self.done.reserve(1)?;
        self.current = Some(Placed {
            command,
            answer: None,
            place: None,
        });
        Ok(())
    }

    /// Records the outcome of a word step. `stamp` is the position of a command that a memory unit takes.
    #[inline]
    pub fn report(&mut self, reported: &StepOutcome, stamp: Option<u32>)
        ensures { GoOnBy reported.now stamp self.old self.new }
    {
        match *reported {
            StepOutcome::Took { changes, .. } => self.take(Some(changes)),
            StepOutcome::SettlesAndTakes(..) => self.take(stamp),
            StepOutcome::Answers(answer) => {
                self.answer(answer);
                self.finish();
            }
            StepOutcome::Lies => self.finish(),
            _ => {}
        }
    }

    /// Records that the command of the call is taken at this position.
    fn take(&mut self, place: Option<u32>)
        ensures { self.new ≡ with_place place self.old }
    {
        let _nested: NestedTypes = None;
        if let Some(call) = &mut self.current {
            call.place = place;
        }
    }

    /// Records the answer to the call.
    fn answer(&mut self, answer: Answer)
        ensures { self.new ≡ with_answer answer self.old }
    {
        let _nested: NestedTypes = None;
        if let Some(call) = &mut self.current {
            call.answer = Some(answer);
        }
    }

    /// Finishes the call.
    fn finish(&mut self)
        ensures { self.new ≡ finished self.old }
    {
        let _nested: NestedTypes = None;
        if let Some(call) = self.current.take() {
            self.done.push_reserved(call);
        }
    }
}
