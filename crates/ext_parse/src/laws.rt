ghost use Rattle.ext_parse.specs.Laws.{EveryTextIsJudged, FaultyTextsSpellNone, TextsHaveOneFault, TextsSpellOneProgram};

/// A text spells at most one program, and its items have one line each.
pub fn texts_spell_one_program()
    ensures { TextsSpellOneProgram }
{}

/// A text has at most one fault: one line and one code.
pub fn texts_have_one_fault()
    ensures { TextsHaveOneFault }
{}

/// A text that has a fault spells no program.
pub fn faulty_texts_spell_none()
    ensures { FaultyTextsSpellNone }
{}

/// Every text spells a program or has a fault.
pub fn every_text_is_judged()
    ensures { EveryTextIsJudged }
{}
