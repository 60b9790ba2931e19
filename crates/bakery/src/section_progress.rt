ghost use Rattle.std.specs.Prelude.{◌≡◌};
ghost use Rattle.bakery.specs.Sections.{reported_at};

use plain_store::{Answer, Reply};

/// The result of an access of a section.
#[derive(Clone, Copy)]
pub enum SectionProgress {
    /// It reads the versions, or the newest image.
    Reading,
    /// It writes the change as its own version.
    Writing,
    /// It is over, and the command was taken with this access.
    Taken {
        /// The store's reply.
        reply: Reply,
        /// The greatest stamp that was read, which is the number of changes taken before the command.
        changes: u32,
    },
    /// It is over: the command would change the store, and no greater stamp fits the stamp bits. Nothing was
    /// written.
    NoStamp,
}

impl SectionProgress {
    /// Returns the result of an access, by the answer of the call, if it has one, and by whether the call writes a change.
    /// `changes` is the greatest stamp that was read before the access.
    pub(crate) fn at(changes: u32, answer: Option<Answer>, writes: bool) -> SectionProgress
        ensures { result ≡ reported_at changes answer writes }
    {
        match answer {
            Some(Answer::Reply(reply)) => SectionProgress::Taken { reply, changes },
            Some(_) => SectionProgress::NoStamp,
            None if writes => SectionProgress::Writing,
            None => SectionProgress::Reading,
        }
    }
}
