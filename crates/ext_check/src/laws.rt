ghost use Rattle.ext_check.specs.Laws.{EveryTextIsJudged, RefusedAreNotAccepted, TextsHaveOneRefusal};

/// A text has at most one first refusal: one line and one code.
pub fn texts_have_one_refusal()
    ensures { TextsHaveOneRefusal }
{}

/// A text that is refused is accepted as no program.
pub fn refused_are_not_accepted()
    ensures { RefusedAreNotAccepted }
{}

/// Every text is accepted or refused.
pub fn every_text_is_judged()
    ensures { EveryTextIsJudged }
{}
