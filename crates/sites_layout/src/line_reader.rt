// A line of a sites text out of its words.
ghost use Rattle.std.specs.Prelude.{◌≡◌, ◌==◌, ◌∷◌, [], map, slice_index};
ghost use Rattle.sqd_elements.specs.Numbers.{number_in};
ghost use Rattle.sites_layout.specs.SitesLines.{place_from, charge_from, vector_from, vectors_from, content_from, lattice_from, line_from};

use crate::line::{SitesLine, Vector, Vectors};
use sidb_layout::{Fix, Site};
use sqd_elements::number_of;

/// Whether a comment begins with this word.
fn is_comment(word: &[u8]) -> bool
    ensures { result ≡ (slice_index word.now 0 == 35) }
{
    matches!(word, [b'#', ..])
}

/// The place that three words give.
fn place_of(n: &[u8], m: &[u8], l: &[u8]) -> Option<Site>
    ensures { result ≡ place_from (number_in n.now) (number_in m.now) (number_in l.now) }
{
    let n = number_of(n)?;
    let m = number_of(m)?;
    let l = number_of(l)?;
    Some(Site { n, m, l })
}

/// The fixed charge that four words give.
fn charge_of(n: &[u8], m: &[u8], l: &[u8], q: &[u8]) -> Option<Fix>
    ensures { result ≡ charge_from
        (place_from (number_in n.now) (number_in m.now) (number_in l.now)) (number_in q.now) }
{
    let site = place_of(n, m, l)?;
    let charge = number_of(q)?;
    Some(Fix { site, charge })
}

/// The vector that two words give.
fn vector_of(x: &[u8], y: &[u8]) -> Option<Vector>
    ensures { result ≡ vector_from (number_in x.now) (number_in y.now) }
{
    let x = number_of(x)?;
    let y = number_of(y)?;
    Some(Vector { x, y })
}

/// Three vectors, where all are there.
fn vectors_of(column: Option<Vector>, row: Option<Vector>, atom: Option<Vector>) -> Option<Vectors>
    ensures { result ≡ vectors_from column row atom }
{
    let column = column?;
    let row = row?;
    let atom = atom?;
    Some(Vectors { column, row, atom })
}

/// A line of three words.
fn place_line(n: &[u8], m: &[u8], l: &[u8]) -> Option<SitesLine>
    ensures { result ≡ content_from n.now (m.now ∷ l.now ∷ []) }
{
    let site = place_of(n, m, l)?;
    Some(SitesLine::Place(site))
}

/// A line of five words.
fn charge_line(name: &[u8], n: &[u8], m: &[u8], l: &[u8], q: &[u8]) -> Option<SitesLine>
    ensures { result ≡ content_from name.now (n.now ∷ m.now ∷ l.now ∷ q.now ∷ []) }
{
    if name != b"fix".as_slice() {
        return None;
    }
    let fix = charge_of(n, m, l, q)?;
    Some(SitesLine::Charge(fix))
}

/// A line of a word and three pairs of words.
fn lattice_line(
    name: &[u8],
    column: Option<Vector>,
    row: Option<Vector>,
    atom: Option<Vector>,
) -> Option<SitesLine>
    ensures { result ≡ lattice_from name.now column row atom }
{
    if name != b"lattice".as_slice() {
        return None;
    }
    let vectors = vectors_of(column, row, atom)?;
    Some(SitesLine::Lattice(vectors))
}

/// The line of a first word and of the words behind it.
fn content_of(first: &[u8], rest: &[&[u8]]) -> Option<SitesLine>
    ensures { result ≡ content_from first.now (map (λ w. w.now) rest.now) }
{
    match rest {
        [m, l] => place_line(first, m, l),
        [n, m, l, q] => charge_line(first, n, m, l, q),
        [ax, ay, bx, by, cx, cy] => lattice_line(
            first,
            vector_of(ax, ay),
            vector_of(bx, by),
            vector_of(cx, cy),
        ),
        _ => None,
    }
}

/// The line that has these words.
pub fn line_of(row: &[&[u8]]) -> Option<SitesLine>
    ensures { result ≡ line_from (map (λ w. w.now) row.now) }
{
    match row {
        [] => Some(SitesLine::Empty),
        [first, rest @ ..] => {
            if is_comment(first) {
                Some(SitesLine::Empty)
            } else {
                content_of(first, rest)
            }
        }
    }
}
