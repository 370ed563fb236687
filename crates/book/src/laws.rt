ghost use Rattle.book.specs.Laws.{AuditedIsLegal, ConflictsNameMovedReads, LegalKilledAreSpent};

/// A Conflict names the first read of the run whose version had moved, with both versions.
pub fn conflicts_name_moved_reads()
    ensures { ConflictsNameMovedReads }
{}

/// A call that a legal journal has as killed spends its whole budget, alone on the tables then standing.
pub fn legal_killed_are_spent()
    ensures { LegalKilledAreSpent }
{}

/// Under audit a sound journal is legal, whoever carried its calls to their end.
pub fn audited_is_legal()
    ensures { AuditedIsLegal }
{}
