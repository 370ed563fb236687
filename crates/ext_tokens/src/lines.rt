ghost use Rattle.std.specs.Prelude.{◌↔◌, IsTrue};
ghost use Rattle.ext_mean.specs.Text.{EndsLine};

/// Whether the last byte of a text is a newline.
pub fn ends_line(text: &[u8]) -> bool
    ensures { IsTrue result ↔ EndsLine text.now }
{
    match text {
        [.., last] => *last == b'\n',
        [] => false,
    }
}
