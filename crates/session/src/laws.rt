ghost use Rattle.session.specs.Laws.{LongerJournalsExplainAsMuch};

/// What a journal says of answers, of ends of calls and of sessions, every longer one says too.
pub fn longer_journals_explain_as_much()
    ensures { LongerJournalsExplainAsMuch }
{}
