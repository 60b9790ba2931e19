ghost use Rattle.std.specs.Prelude.{◌≡◌, ◌↔◌, length, IsTrue, IfOk, OnOk, OnErr, Ok, slice_get};
ghost use Rattle.plain_store.specs.Setups.{checked, callers_of, opening_store};
ghost use Rattle.plain_store.specs.Store.{ChangesPairs, Contents, empty_store, reply_to, after, number_of};

use crate::commands::{Caller, Command, Reply, Value};
use crate::names::Name;
use crate::setups::Setup;
use std::alloc::AllocError;

/// A store of named values. Each implementation returns the replies of the sequential specification.
pub trait Store {
    /// The contents that contracts use: the pairs in order of first write, the slots, and the callers' numbers.
    ghost contents: { Self → Contents };

    /// Applies a command. If it changes the pairs, it sets its process's number to that of the call; a process
    /// for which the store has no number is passed over. Fails only if an allocation fails; the store is then
    /// unchanged.
    fn apply(&mut self, command: &Command, caller: Caller) -> Result<Reply, AllocError>
        ensures reply { IfOk result (λ r. r ≡ reply_to (contents self.old) command.now caller) }
        ensures contents { OnOk result
            (contents self.new ≡ after (contents self.old) command.now caller) }
        ensures err { OnErr result (contents self.new ≡ contents self.old) };

    /// Returns whether the command would change the pairs.
    fn would_change(&self, command: &Command) -> bool
        ensures { IsTrue result ↔ ChangesPairs (contents self.now) command.now };

    /// Returns the number of pairs.
    fn len(&self) -> usize
        ensures { result ≡ length (contents self.now).pairs };

    /// Returns the pair at an index from 0, in the order of first write.
    fn entry(&self, place: usize) -> Option<(Name, Value)>
        ensures { result ≡ slice_get (contents self.now).pairs place };

    /// Returns the number of the process's last call that changed the pairs, or 0 if there is none.
    fn last(&self, process: u8) -> u16
        ensures { result ≡ number_of (contents self.now).numbers process };
}

/// Writes the opening pairs, in the order added, into an empty store made for the setup. Returns the opening
/// store: the pairs, and no call number.
///
/// # Errors
///
/// Returns [`AllocError`] if memory runs out.
#[tactic(auto, using(crate::proofs::OpeningPairs::opened_more, crate::proofs::OpeningPairs::some_within))]
pub fn opened<S: Store + Drop>(empty: S, setup: &Setup) -> Result<S, AllocError>
    requires good { checked setup.now ≡ Ok tt }
    requires empty { S.contents empty ≡ empty_store setup.now.slots (callers_of setup.now) }
    ensures { IfOk result (λ store. S.contents store ≡ opening_store setup.now) }
{
    let nobody = Caller {
        process: 0,
        number: 0,
    };
    let mut store = empty;
    for place in 0..setup.opening.len() {
        let (name, value) = setup.opening.entry(place).unwrap();
        store.apply(&Command::Write(name, value), nobody)?;
    }
    Ok(store)
}
