//! What the fields of a line are, by how they are written.

ghost use Rattle.sched_text.specs.Laws.{FieldsAreSpaced, NumbersAreDecimal, BytesArePairs, LinesReadBack};

/// A line has its fields just if they stand in it with one space between each two.
pub fn fields_are_spaced()
    ensures { FieldsAreSpaced }
{}

/// A field spells a number just if it is that number in decimal, with no sign and no leading zero.
pub fn numbers_are_decimal()
    ensures { NumbersAreDecimal }
{}

/// A field spells bytes just if it is `x` and two lower-case hexadecimal digits for each of them.
pub fn bytes_are_pairs()
    ensures { BytesArePairs }
{}

/// A line of a script that is in its ranges is read again as it is written.
pub fn lines_read_back()
    ensures { LinesReadBack }
{}
