ghost use Rattle.std.specs.Prelude.{◌≡◌, ◌<◌, ◌+◌, ℕ, List, Some, IfSome, length, map, slice_get, sum};

/// The count of task k.
fn count_at(counts: &[Option<u64>], k: usize) -> Option<u64>
    requires { k < length counts.now }
    ensures { slice_get counts.now k ≡ Some result }
{
    counts[k]
}

/// The sum of two counts, or None where it is past 64 bits.
fn plus(total: u64, n: u64) -> Option<u64>
    ensures { IfSome result (λ more. more ≡ total + n) }
{
    total.checked_add(n)
}

/// Counts added up, or None where one is missing.
pub fn added(few: u64, counts: &[Option<u64>]) -> Option<u64>
    ensures { IfSome result (λ n. (ns : List ℕ) × (counts.now ≡ map Some ns)
        × (n ≡ few + sum ns)) }
{
    let mut total = few;
    for k in 0..counts.len() {
        match count_at(counts, k) {
            Some(n) => match plus(total, n) {
                Some(more) => total = more,
                None => return None,
            },
            None => return None,
        }
    }
    Some(total)
}
