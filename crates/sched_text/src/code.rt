ghost use Rattle.std.specs.Prelude.{◌≡◌};
ghost use Rattle.sched_text.specs.Words.{code_word};

use thiserror::Error;

/// What is wrong with a line of a script. Of the codes that apply to a line, the first is told.
#[derive(Clone, Copy, Debug, PartialEq, Eq, Error)]
pub enum LineCode {
    /// The script has too many bytes; told of line 0.
    #[error("Long")]
    Long,
    /// The script has too many lines, or this line has one tenant or one table too many.
    #[error("Many")]
    Many,
    /// The first field is no word of such a line.
    #[error("Word")]
    Word,
    /// Another number of fields.
    #[error("Count")]
    Count,
    /// A field that is not of its form or range.
    #[error("Field")]
    Field,
    /// A head line behind a body line.
    #[error("Order")]
    Order,
    /// Something is declared for the second time.
    #[error("Twice")]
    Twice,
    /// A tenant that no earlier line declares.
    #[error("NoTenant")]
    NoTenant,
    /// A worker's number that is not below the count.
    #[error("NoWorker")]
    NoWorker,
    /// The script ends before the lines of a text or of a batch are all there.
    #[error("Text")]
    Text,
    /// A set-up line that the book refused; no reader tells this.
    #[error("Refused")]
    Refused,
}

impl LineCode {
    /// The word by which reports name the code.
    pub fn word(self) -> &'static [u8]
        ensures { result.now ≡ code_word self }
    {
        match self {
            LineCode::Long => b"Long",
            LineCode::Many => b"Many",
            LineCode::Word => b"Word",
            LineCode::Count => b"Count",
            LineCode::Field => b"Field",
            LineCode::Order => b"Order",
            LineCode::Twice => b"Twice",
            LineCode::NoTenant => b"NoTenant",
            LineCode::NoWorker => b"NoWorker",
            LineCode::Text => b"Text",
            LineCode::Refused => b"Refused",
        }
    }
}
