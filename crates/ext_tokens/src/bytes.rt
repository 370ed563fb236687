ghost use Rattle.std.specs.Prelude.{◌≡◌, ◌<◌, ℕ, MatchOption};
ghost use Rattle.std.specs.List.{prefix_len};
ghost use Rattle.ext_mean.specs.Tokens as spelling;

/// Whether a text may have the byte: a tab, a newline, a space or a visible one.
pub fn is_text_byte(byte: u8) -> bool
    ensures { result ≡ spelling.is_text_byte byte }
{
    byte == b'\t' || byte == b'\n' || (b' ' <= byte && byte <= b'~')
}

/// Whether the byte is a space, a tab or a newline.
pub fn is_blank(byte: u8) -> bool
    ensures { result ≡ spelling.is_blank byte }
{
    byte == b' ' || byte == b'\t' || byte == b'\n'
}

pub fn is_digit(byte: u8) -> bool
    ensures { result ≡ spelling.is_digit byte }
{
    b'0' <= byte && byte <= b'9'
}

pub fn is_lower(byte: u8) -> bool
    ensures { result ≡ spelling.is_lower byte }
{
    b'a' <= byte && byte <= b'z'
}

/// Whether the byte may stand in a name behind its first.
pub fn is_name_byte(byte: u8) -> bool
    ensures { result ≡ spelling.is_name_byte byte }
{
    is_lower(byte) || is_digit(byte) || byte == b'_'
}

/// Whether the byte may not follow a number.
pub fn is_word_byte(byte: u8) -> bool
    ensures { result ≡ spelling.is_word_byte byte }
{
    is_name_byte(byte) || (b'A' <= byte && byte <= b'Z')
}

/// Whether the byte stands for itself in a byte string.
pub fn is_plain(byte: u8) -> bool
    ensures { result ≡ spelling.is_plain byte }
{
    b' ' <= byte && byte <= b'~' && byte != b'"' && byte != b'\\'
}

/// How many bytes of a name there are at the front.
pub fn name_length(bytes: &[u8]) -> usize
    ensures { result ≡ prefix_len spelling.is_name_byte bytes.now }
{
    for (count, byte) in bytes.iter().enumerate() {
        if !is_name_byte(*byte) {
            return count;
        }
    }
    bytes.len()
}

/// How many digits there are at the front.
pub fn digits_length(bytes: &[u8]) -> usize
    ensures { result ≡ prefix_len spelling.is_digit bytes.now }
{
    for (count, byte) in bytes.iter().enumerate() {
        if !is_digit(*byte) {
            return count;
        }
    }
    bytes.len()
}

/// The value of a lower-case hexadecimal digit.
pub fn hex_value(byte: u8) -> Option<u8>
    ensures { MatchOption result ((value : ℕ) → value < 16 → byte ≡ spelling.hex_digit value → ⊥)
        (λ value. (value < 16) × (byte ≡ spelling.hex_digit value)) }
{
    match byte {
        b'0'..=b'9' => Some(byte - b'0'),
        b'a'..=b'f' => Some(byte - b'a' + 10),
        _ => None,
    }
}
