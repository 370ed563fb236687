ghost use Rattle.task.specs.Laws.{CallsBeginAsTasks, ReadsArePaid, RecordsKeepTasks, TurnsKeepTasks, TurnsRaiseTheUnitsSpent, UnfinishedCallsHadFewTurns};

/// A call that begins is a task.
pub fn calls_begin_as_tasks()
    ensures { CallsBeginAsTasks }
{}

/// A task is one after each turn.
pub fn turns_keep_tasks()
    ensures { TurnsKeepTasks }
{}

/// A task that is given the record that it waits for is one.
pub fn records_keep_tasks()
    ensures { RecordsKeepTasks }
{}

/// A turn behind which the call goes on strictly raises the units spent.
pub fn turns_raise_the_units_spent()
    ensures { TurnsRaiseTheUnitsSpent }
{}

/// A task has spent 16 units for each read, and never more than its budget.
pub fn reads_are_paid()
    ensures { ReadsArePaid }
{}

/// A call that goes on has had few turns: fewer than its budget has quanta and 16 units, and 2 more.
pub fn unfinished_calls_had_few_turns()
    ensures { UnfinishedCallsHadFewTurns }
{}
