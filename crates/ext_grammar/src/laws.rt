ghost use Rattle.ext_grammar.specs.Agreement.{ProgramsAreAccepted, AcceptedArePrograms, FaultsAreFirst, PassedHaveNoCode};

/// The tokens of a program within the bounds are accepted, with its tree and the lines of its items.
pub fn programs_are_accepted()
    ensures { ProgramsAreAccepted }
{}

/// Only the tokens of a program within the bounds are accepted, with its tree and the lines of its
/// items.
pub fn accepted_are_programs()
    ensures { AcceptedArePrograms }
{}

/// The fault that is answered of other tokens is the first that they have.
pub fn faults_are_first()
    ensures { FaultsAreFirst }
{}

/// A token behind which a program within the bounds goes on is no fault.
pub fn passed_have_no_code()
    ensures { PassedHaveNoCode }
{}
