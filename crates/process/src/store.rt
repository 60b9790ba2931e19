//! A call's command and the store that was read.
ghost use Rattle.std.specs.Prelude.{◌≡◌};
ghost use Rattle.plain_store.specs.{after, changes};
ghost use Rattle.model.specs.{caller, reply};
ghost use Rattle.process.specs.ValuesRead.{call_of};

use crate::part::ProcessCall;
use plain_store::{Caller, Reply, Store, Value};
use store_image::Image;

/// Returns whether the command would change the store.
#[tactic(auto, using(plain_store::proofs::Changes::changes_differs))]
pub(crate) fn is_change(call: &ProcessCall, store: &Image) -> bool
    ensures { result ≡ changes store.now call.now.command }
{
    store.would_change(&call.command)
}

/// Returns the store after the command, and the reply.
pub(crate) fn applied(call: &ProcessCall, read: &Image) -> (Image, Reply)
    ensures store { result.0 ≡ after read.now call.now.command (caller (call_of call.now)) }
    ensures reply { result.1 ≡ reply (call_of call.now) read.now }
{
    // The prover needs a mention of this type, which is nested in others here.
    let _value: Option<Value> = None;
    let mut store = *read;
    let caller = Caller {
        process: call.process,
        number: call.number,
    };
    let reply = store.apply(&call.command, caller).unwrap();
    (store, reply)
}
