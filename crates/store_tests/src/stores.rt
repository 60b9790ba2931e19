//! The calls of the worked example of the sequential store, on both stores.
use plain_store::{Caller, NestedTypes, PlainStore, Store};
use scenario::{Line, read_scenario};
use std::alloc::{AllocError, Global};
use std::process::Abort;
use std::test::Fail;
use store_image::Image;

const CALLS: &str = "bakery 1\ncall 0 add a 1\ncall 0 write a c:9223372036854775807\n\
    call 0 add a 1\ncall 0 read a\ncall 0 write b t:x\ncall 0 cas b c:1 c:2\n\
    call 0 cas a c:1 c:2\ncall 0 cas a c:9223372036854775807 t:hi\ncall 0 add a 1\n";

const REPLIES: &str = "no-name\ndone\noverflow\nvalue c:9223372036854775807\nstore-full\n\
    no-name\nkept c:9223372036854775807\nswapped\nnot-counter\n";

/// Appends the reply of a store to the call of a line.
fn push_reply<S: Store>(text: &mut String, store: &mut S, line: &Line) -> Result<(), AllocError> {
    let _nested: NestedTypes = None;
    let Line::Call(process, command) = line else {
        return Ok(());
    };
    let caller = Caller {
        process: *process,
        number: 0,
    };
    let reply = store.apply(command, caller)?;
    writeln!(text, "{reply}")
}

/// Returns the replies of a store to calls, one per line.
fn replies_to<S: Store>(
    alloc: Global,
    store: &mut S,
    lines: &[Line],
) -> Result<String, AllocError> {
    let _nested: NestedTypes = None;
    let mut text = String::new(alloc);
    for line in lines {
        push_reply(&mut text, store, line)?;
    }
    Ok(text)
}

/// Asserts the replies of a store to the calls.
fn replies<S: Store>(rt: &(impl Abort + AllocGlobal), store: &mut S) -> Result<(), Fail> {
    let scenario = read_scenario(rt.alloc(), CALLS.as_bytes())?;
    let reported = replies_to(rt.alloc(), store, &scenario.lines)?;
    assert!(rt; reported.as_str() == REPLIES, "{reported}");
    Ok(())
}

#[test]
fn both_stores_reply_alike(rt: HostRuntime) -> Result<(), Fail> {
    replies(&rt, &mut PlainStore::new(rt.alloc(), 1, 0))?;
    replies(&rt, &mut Image::empty(1, 0))
}
