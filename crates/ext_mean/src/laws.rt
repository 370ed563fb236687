ghost use Rattle.ext_mean.specs.Borrowing.{MarkedMayBorrow};
ghost use Rattle.ext_mean.specs.Confinement.{OnlyReadableIsWanted, OnlyWritableIsChanged, PlacesAreChangedOnce, RunsAreWithinLimits};
ghost use Rattle.ext_mean.specs.Loops.{LoopsUnroll};
ghost use Rattle.ext_mean.specs.Laws.{GreaterBudgetsMeanTheSame, KnownRecordsDecide, RunsStayWithinBudgets, UsedUnitsSuffice, WantsAreDue, WantsCost, WantsPersist};
ghost use Rattle.ext_mean.specs.Asked.{KnownRecordsCost, ReadsCost, WantedReadJoins};

/// Where the meaning with some units is not spent, it is the same with every greater number.
pub fn greater_budgets_mean_the_same()
    ensures { GreaterBudgetsMeanTheSame }
{}

/// A run that is not spent is the same with any number of units that holds those it used.
pub fn used_units_suffice()
    ensures { UsedUnitsSuffice }
{}

/// Where the meaning on a view wants nothing, it is the same on every view that knows as much.
pub fn known_records_decide()
    ensures { KnownRecordsDecide }
{}

/// No run uses more than its budget.
pub fn runs_stay_within_budgets()
    ensures { RunsStayWithinBudgets }
{}

/// A run wants only what its view does not know and its rights let be read, behind 16 units.
pub fn wants_are_due()
    ensures { WantsAreDue }
{}

/// The next want after some that were answered comes 16 units behind each of them.
pub fn wants_cost()
    ensures { WantsCost }
{}

/// A read that the meaning wants on the reads asked joins them.
pub fn a_wanted_read_joins()
    ensures { WantedReadJoins }
{}

/// Where the meaning wants a record on the reads asked, it has used 16 units for it and for each.
pub fn reads_cost()
    ensures { ReadsCost }
{}

/// Where a view does not know what the meaning wants on a smaller one, the meaning is the same on it.
pub fn wants_persist()
    ensures { WantsPersist }
{}

/// Where the meaning wants a record, it has used 16 units for it and for each known one it asked.
pub fn known_records_cost()
    ensures { KnownRecordsCost }
{}

/// A loop is one turn with the loop behind it: no bound but the budget ends it.
pub fn loops_unroll()
    ensures { LoopsUnroll }
{}

/// A run wants only places whose tables its rights let it read, with keys of 1 to 64 bytes.
pub fn only_readable_is_wanted()
    ensures { OnlyReadableIsWanted }
{}

/// A run changes only tables that its rights let it write.
pub fn only_writable_is_changed()
    ensures { OnlyWritableIsChanged }
{}

/// A run answers and changes no more than the limits allow.
pub fn runs_are_within_limits()
    ensures { RunsAreWithinLimits }
{}

/// A run changes each place at most once.
pub fn places_are_changed_once()
    ensures { PlacesAreChangedOnce }
{}

/// The slices that are marked for a buffer are exactly those that may borrow from it.
pub fn marked_may_borrow()
    ensures { MarkedMayBorrow }
{}
