ghost use Rattle.sim.specs.Laws.{PlaysTellMovedReads, ScriptsHaveOnePlay};

/// Every Conflict among the answers of a play shows the version that was read and another one that
/// then stood.
pub fn plays_tell_moved_reads()
    ensures { PlaysTellMovedReads }
{}

/// A script has one play at most: one list of answers, and one journal.
pub fn scripts_have_one_play()
    ensures { ScriptsHaveOnePlay }
{}
