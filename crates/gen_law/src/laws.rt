ghost use Rattle.gen_law.specs.Law.{CodeMeansTheSame};

/// The code of a typed program, run from its beginning, is over within a stated number of turns, and then its run is
/// the meaning of the program: the same outcome, reply, writes and units, for all arguments, budgets and views.
pub fn code_means_the_same()
    ensures { CodeMeansTheSame }
{}
