ghost use Rattle.std.specs.Prelude.{◌≡◌};
ghost use Rattle.sqd_marks.specs.Bytes;

/// Whether a byte is a space, a tab, a carriage return or a line feed.
pub fn is_blank(b: u8) -> bool
    ensures { result ≡ Bytes.is_blank b }
{
    matches!(b, b' ' | b'\t' | b'\r' | b'\n')
}

/// Whether a name may begin with a byte: a letter, `_`, `:`, 128 and more.
pub fn begins_name(b: u8) -> bool
    ensures { result ≡ Bytes.begins_name b }
{
    b.is_ascii_alphabetic() || b == b'_' || b == b':' || b >= 128
}

/// Whether a byte may stand in a name: one that may begin it, a digit, `-`, `.`.
pub fn is_in_name(b: u8) -> bool
    ensures { result ≡ Bytes.is_in_name b }
{
    begins_name(b) || b.is_ascii_digit() || b == b'-' || b == b'.'
}
