ghost use Rattle.std.specs.Prelude.{◌≡◌, length, take, drop, min};

/// Copies as many of the bytes as there are, as fit and as are asked for, and tells how many.
pub(crate) fn fill(bytes: &[u8], most: usize, buf: &mut [u8]) -> usize
    ensures given { take result buf.new ≡ take result bytes.now }
    ensures rest { drop result buf.new ≡ drop result buf.old }
    ensures count { result ≡ min (min most (length buf.old)) (length bytes.now) }
{
    let given = most.min(buf.len()).min(bytes.len());
    buf[..given].copy_from_slice(&bytes[..given]);
    given
}
