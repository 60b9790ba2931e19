//! Facts about the parts of an entry that their types give. Each function only names the parts.
ghost use Rattle.std.specs.Prelude.{◌≡◌, ◌^◌, ◌&&◌, true, nat_lt, Some};
ghost use Rattle.std.specs.List.{list_all};
ghost use Rattle.plain_store.specs.{is_value};
ghost use Rattle.record_file.specs.Given.{is_access, is_answer, is_entry, is_mark, is_reply};
ghost use Rattle.record_file.specs.Printing.{step_entry};

use model::{Access, Entry, Mark};
use plain_store::{Answer, NestedTypes, Reply, Value};

/// The parts of an entry are what their types allow.
pub fn sound_entry(entry: &Entry)
    ensures { is_entry entry.now ≡ true }
{
    let _nested: NestedTypes = None;
    sound_process(entry.process);
    sound_access(&entry.act.access);
    sound_marks(&entry.act.marks);
}

/// The parts of the entry of a Step are what their types allow.
pub fn sound_step(process: u8, access: &Access)
    ensures { is_entry (step_entry process access.now) ≡ true }
{
    sound_process(process);
    sound_parts(access);
}

fn sound_process(process: u8)
    ensures { nat_lt process 256 ≡ true }
{}

fn sound_access(access: &Option<Access>)
    ensures { is_access access.now ≡ true }
{
    if let Some(access) = access {
        sound_parts(access);
    }
}

fn sound_parts(access: &Access)
    ensures { is_access (Some access.now) ≡ true }
{
    sound_process(access.owner);
    sound_number(access.bit);
    sound_process(access.reader);
}

#[tactic(auto, using(scenario::proofs::Places::next_in, scenario::proofs::Places::all_at_end))]
fn sound_marks(marks: &[Mark])
    ensures { list_all is_mark marks.now ≡ true }
{
    let _nested: NestedTypes = None;
    for mark in marks {
        sound_mark(mark);
    }
}

fn sound_mark(mark: &Mark)
    ensures { is_mark mark.now ≡ true }
{
    let _nested: NestedTypes = None;
    match mark {
        Mark::Called(command) => command.operands_are_sound(),
        Mark::Taken(place, reply) => {
            sound_place(*place);
            sound_reply(reply);
        }
        Mark::Answered(answer) => sound_answer(answer),
        Mark::Waiting(ticket) => sound_ticket(*ticket),
        Mark::Entered
        | Mark::Left
        | Mark::Failed
        | Mark::Settled(_)
        | Mark::Down
        | Mark::Withdrew
        | Mark::Restarted => {}
    }
}

fn sound_place(place: u64)
    ensures { nat_lt place (2 ^ 64) ≡ true }
{}

fn sound_ticket(ticket: u32)
    ensures { nat_lt ticket (2 ^ 32) ≡ true }
{}

fn sound_number(number: u16)
    ensures { nat_lt number 65536 ≡ true }
{}

fn sound_answer(answer: &Answer)
    ensures { is_answer answer.now ≡ true }
{
    let _nested: NestedTypes = None;
    match answer {
        Answer::Reply(reply) => sound_reply(reply),
        Answer::TicketsFull { process } => sound_process(*process),
        Answer::StampsFull | Answer::Withdrawn => {}
    }
}

fn sound_reply(reply: &Reply)
    ensures { is_reply reply.now ≡ true }
{
    let _nested: NestedTypes = None;
    match reply {
        Reply::Value(value) | Reply::Kept(value) => sound_value(value),
        Reply::Sum(sum) => sound_value(&Value::Count(*sum)),
        Reply::Last(number) => sound_number(*number),
        Reply::Done
        | Reply::Swapped
        | Reply::NoName
        | Reply::NotCounter
        | Reply::Overflow
        | Reply::StoreFull => {}
    }
}

fn sound_value(value: &Value)
    ensures { is_value value.now ≡ true }
{
    match *value {
        Value::Count(_count) => {}
        Value::Text(text) => {
            let _text = text.bytes();
        }
    }
}
