ghost use Rattle.std.specs.Prelude.{◌≡◌, ◌≤◌, ◌<◌, take, drop, length, IfSome, IfNone, false, slice_index};
ghost use Rattle.sqd_marks.specs.Bytes;
ghost use Rattle.sqd_marks.specs.Bytes.{Each};
ghost use Rattle.sqd_nesting.specs.Texts.{is_text, mark_len};
ghost use Rattle.sqd_nesting.specs.Faults.{BeginsMark};

use sqd_marks::is_blank;

/// How many bytes of text stand before the next mark.
pub fn text_len(bytes: &[u8]) -> usize
    ensures within { result ≤ length bytes.now }
    ensures text { Each is_text (take result bytes.now) }
    ensures next { BeginsMark (drop result bytes.now) }
{
    for (i, b) in bytes.iter().enumerate() {
        if *b == b'<' {
            return i;
        }
    }
    bytes.len()
}

/// Where the first byte that isn't blank stands.
pub fn first_not_blank(bytes: &[u8]) -> Option<usize>
    ensures none { IfNone result (Each Bytes.is_blank bytes.now) }
    ensures within { IfSome result (λ at. at < length bytes.now) }
    ensures before { IfSome result (λ at. Each Bytes.is_blank (take at bytes.now)) }
    ensures found { IfSome result (λ at. Bytes.is_blank (slice_index bytes.now at) ≡ false) }
{
    for (i, b) in bytes.iter().enumerate() {
        if !is_blank(*b) {
            return Some(i);
        }
    }
    None
}

/// How many bytes the byte order mark takes.
pub fn bom_len(text: &[u8]) -> usize
    ensures within { result ≤ length text.now }
    ensures len { result ≡ mark_len text.now }
{
    match text {
        [0xEF, 0xBB, 0xBF, ..] => 3,
        _ => 0,
    }
}
