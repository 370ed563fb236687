/// Why a text is no program.
#[derive(Clone, Copy, Debug, PartialEq, Eq)]
pub enum SyntaxCode {
    /// No token begins there, or a byte is none of the language.
    Token,
    /// A name of more than 32 bytes, a number of 2^64 or more, or a text of more than 16,384 bytes.
    Long,
    /// The 33rd open bracket.
    Deep,
    /// The 33rd function, the 257th local of a function, or the 65th operator of an item.
    Many,
    /// Another token, or more text, stands there in every program that begins so.
    Expected,
}
