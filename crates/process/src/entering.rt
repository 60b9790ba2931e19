//! The cursor of a part, at its begin and at its end.
ghost use Rattle.std.specs.Prelude.{◌≡◌, ◌<◌, ◌≤◌, IfSome, false};
ghost use Rattle.model.specs.{is_over, last_marks, part_after, width};
ghost use Rattle.model.specs.safe_number.{bits_of_number, number_of_bits};
ghost use Rattle.registers.specs.{IsDone, entered, writing};
ghost use Rattle.process.specs.Places.{changes_at};
ghost use Rattle.process.specs.ValuesRead.{IsCall};
ghost use Rattle.process.specs.Reporting.{changes_reported, marks_reported};

use crate::access_request::AccessRequest;
use crate::call_part::CallPart;
use crate::image::image_read;
use crate::outcomes::StepOutcome;
use model::Field;
use plain_store::pad;
use registers::{Cursor, RegisterAccessKind, RegisterName};

/// Puts the cursor at the begin of a part.
pub(crate) fn begin_part(called: &CallPart, cursor: &mut Cursor)
    requires call { IsCall called.now.call }
    requires going { is_over called.now.part ≡ false }
    ensures cursor { cursor.new ≡ entered called.now.call called.now.part }
    ensures in_range { cursor.new.register.owner < called.now.call.setup.processes }
{
    let setup = called.setup();
    let process = called.process();
    match called.asks() {
        AccessRequest::Nothing => unreachable!(),
        AccessRequest::Reads { owner, field } => {
            cursor.begin_read(&setup, RegisterName { owner, field }, process);
        }
        AccessRequest::Writes(field, number) => {
            let register = RegisterName {
                owner: process,
                field,
            };
            cursor.begin_write(&setup, register, number);
        }
        AccessRequest::WritesImage(field) => {
            let register = RegisterName {
                owner: process,
                field,
            };
            let image = called.image();
            let bytes: [u8; 216] = pad(image.bytes());
            cursor.begin_write_bytes(&setup, register, &bytes);
        }
    }
}

/// Puts the cursor at the begin of a write of 0 to a register of the process that has at most 32 bits.
pub(crate) fn clear(called: &CallPart, cursor: &mut Cursor, field: Field)
    requires call { IsCall called.now.call }
    requires narrow { width called.now.call.setup field ≤ 32 }
    ensures { cursor.new
        ≡ writing called.now.call.setup (record { owner = called.now.call.process; field = field })
        (bits_of_number (width called.now.call.setup field) 0) }
{
    let setup = called.setup();
    let owner = called.process();
    cursor.begin_write(&setup, RegisterName { owner, field }, 0);
}

/// Returns the number that was read; 0 after a write.
fn number_read(cursor: &Cursor) -> u32
    requires { cursor.now.run ≡ RegisterAccessKind.Reads → cursor.now.width ≤ 32 }
    ensures reads { cursor.now.run ≡ RegisterAccessKind.Reads →
        result ≡ number_of_bits cursor.now.bits }
    ensures writes { cursor.now.run ≡ RegisterAccessKind.Writes → result ≡ 0 }
{
    match cursor.run() {
        RegisterAccessKind::Reads => cursor.number(),
        _ => 0,
    }
}

/// Moves a call whose register access is over to its next part. Returns the outcome of the last access.
pub(crate) fn part_over(called: &mut CallPart, cursor: &Cursor) -> StepOutcome
    requires call { IsCall called.old.call }
    requires going { is_over called.old.part ≡ false }
    requires done { IsDone called.old.call called.old.part cursor.now }
    ensures part { called.new
        ≡ record called.old { part = part_after called.old.call called.old.part cursor.now.bits } }
    ensures marks { marks_reported result
        ≡ last_marks called.old.call called.old.part cursor.now.bits }
    ensures changes { IfSome (changes_reported result)
        (λ changes. changes ≡ changes_at called.old.part) }
{
    if called.reads_image() {
        let store = image_read(&called.setup(), &cursor.bytes());
        called.after_image(&store)
    } else {
        let number = number_read(cursor);
        called.after(number)
    }
}
