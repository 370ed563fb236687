ghost use Rattle.ext_canonical.specs.Laws.{CanonicalIsShort, CanonicalIsSpelled};

/// The canonical text of a program that some text spells, spells it too.
pub fn canonical_is_spelled()
    ensures { CanonicalIsSpelled }
{}

/// No text of a program is shorter than its canonical text.
pub fn canonical_is_short()
    ensures { CanonicalIsShort }
{}
