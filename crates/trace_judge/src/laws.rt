//! Laws of verdicts on traces. Each function does nothing; its contract is the law.
ghost use Rattle.trace_judge.specs.Forms.{LongFormIsSame};
ghost use Rattle.trace_judge.specs.Memories.{WeakerIsNotEarlier, WholeIsSame};
ghost use Rattle.trace_judge.specs.Soundness.{GoodIsSound, MaysKeepAllLaws};

/// In a good trace no two processes are ever inside together, and none enters while another is ahead of it.
pub fn good_is_sound()
    ensures { GoodIsSound }
{}

/// An entry that breaks the law `Memory` keeps all laws with each value that its reasons name.
pub fn mays_keep_all_laws()
    ensures { MaysKeepAllLaws }
{}

/// If all accesses are reads and writes in one entry, verdict and reasons are the same in all memories.
pub fn whole_accesses_are_judged_alike()
    ensures { WholeIsSame }
{}

/// In a weaker memory the verdict is not earlier: it is good if that in a stronger memory is, and otherwise its bad entry
/// is not lower.
pub fn weaker_memory_is_not_earlier()
    ensures { WeakerIsNotEarlier }
{}

/// In safe and regular memory a trace is good exactly if it is good with each access in one entry split into its begin and
/// its end.
pub fn long_form_is_judged_alike()
    ensures { LongFormIsSame }
{}
