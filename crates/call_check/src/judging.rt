//! Bad calls, by the notes of the stores.
ghost use Rattle.std.specs.Prelude.{◌≡◌, ◌↔◌, ◌≤◌, ◌+◌, length, IsTrue};
ghost use Rattle.store_image.specs.{image_of};
ghost use Rattle.call_check.specs.Following.{FindsFirstBad, LeavesLeast, ReportsBad, ReportsFall, ReportsSeveral};
ghost use Rattle.call_check.specs.Weighing.{is_above, is_other_with_place, is_reply_without_place};

use crate::notes::{CallNotes, Note};
use model::Placed;
use plain_store::Answer;
use store_image::Image;

impl CallNotes {
    /// Returns the lowest bad call of a list; `before` is the number of calls in the lists before it.
    pub(crate) fn first_bad(&self, before: usize, list: &[Placed]) -> Option<usize>
        requires { before + length list.now ≤ length self.now.notes.items }
        ensures { FindsFirstBad self.now before list.now result }
    {
        let mut least = 0;
        for (index, placed) in list.iter().enumerate() {
            let note = self.notes[before + index];
            if self.is_bad(placed, note, least) {
                return Some(index);
            }
            least = least_after(placed.place, note, least);
        }
        None
    }

    /// Returns whether a call is bad, if `least` is the least place that the calls before it in its list allow.
    fn is_bad(&self, placed: &Placed, note: Note, least: u64) -> bool
        ensures { ReportsBad self.now placed.now note least result }
    {
        if self.is_above(placed.place) {
            return true;
        }
        if self.is_one_of_several(placed.place, note) {
            return true;
        }
        if is_below(placed.place, least) {
            return true;
        }
        if note.is_wrong {
            return true;
        }
        if is_reply_without_place(placed) {
            return true;
        }
        is_other_with_place(placed)
    }

    /// Returns whether a place is past the last store.
    fn is_above(&self, place: Option<u32>) -> bool
        ensures { result ≡ is_above self.now.count place }
    {
        match place {
            None => false,
            Some(place) => self.count < place as usize,
        }
    }

    /// Returns whether the call is one of several that would change the last store.
    fn is_one_of_several(&self, place: Option<u32>, note: Note) -> bool
        ensures { ReportsSeveral self.now place note result }
    {
        match place {
            None => false,
            Some(place) => place as usize == self.count && note.changes && self.several,
        }
    }

    /// Returns whether the image is that of the last store.
    pub(crate) fn end_with(&self, image: &Image) -> bool
        ensures { IsTrue result ↔ (image_of image.now ≡ image_of self.now.store) }
    {
        self.store == *image
    }
}

/// Returns the least place that a call may have after this one.
fn least_after(place: Option<u32>, note: Note, least: u64) -> u64
    ensures { LeavesLeast place note least result }
{
    match place {
        None => least,
        Some(place) => {
            let own = u64::from(place) + u64::from(note.changes);
            least.max(own)
        }
    }
}

/// Returns whether a place is below the least.
fn is_below(place: Option<u32>, least: u64) -> bool
    ensures { ReportsFall least place result }
{
    match place {
        None => false,
        Some(place) => u64::from(place) < least,
    }
}

/// Returns whether a call has a reply and no place.
fn is_reply_without_place(placed: &Placed) -> bool
    ensures { result ≡ is_reply_without_place placed.now }
{
    matches!(placed.answer, Some(Answer::Reply(_))) && placed.place.is_none()
}

/// Returns whether a call has another answer and a place.
fn is_other_with_place(placed: &Placed) -> bool
    ensures { result ≡ is_other_with_place placed.now }
{
    match placed.answer {
        None | Some(Answer::Reply(_)) => false,
        Some(_) => placed.place.is_some(),
    }
}
