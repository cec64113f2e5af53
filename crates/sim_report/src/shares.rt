// The text of the shares of entries.
ghost use Rattle.std.specs.Prelude.{◌≡◌, ◌<◌, All, length, map, slice_get, zip, string_bytes, IfOk, Some};
ghost use Rattle.std.specs.List.{join_with_byte};
ghost use Rattle.text_rows.specs.Rows.{text_of};
ghost use Rattle.ground_entries.specs.Seen.{seen};
ghost use Rattle.occupation.specs.Shares.{IsPartOfWhole};
ghost use Rattle.sim_report.specs.OccupationText.{occupation_text, occupation_title_rows, share_row};

use crate::rows::push_row;
use charge_state::print_charges;
use ground_entries::{Entry, GroundList};
use occupation::Share;
use potential_problem::Problem;
use sidb_units::{Memory, print_dec};
use std::alloc::Global;
use window_model::Window;

/// The decimal places of a share.
const PLACES: u32 = 9;

/// The occupation text: what it is and its version, the window and kT in 10^-12 V, the number of
/// sites and of entries, each entry and its share, and the end.
pub fn occupation_text(
    alloc: Global,
    problem: &Problem,
    window: &Window,
    kt: i64,
    list: &GroundList,
    shares: &[Share],
) -> Result<String, Memory>
    requires one_each { length shares.now ≡ length list.now }
    requires parts { All IsPartOfWhole shares.now }
    ensures text { IfOk result (λ text. string_bytes text
        ≡ occupation_text window.now.width kt problem.now.sites list.now shares.now) }
{
    let mut text = occupation_title(alloc, window, kt, problem.sites(), list.len())?;
    let lines = share_lines(alloc, list, shares)?;
    text.push_str(&lines)?;
    text.push_str("end\n")?;
    Ok(text)
}

/// The lines before the entries.
fn occupation_title(
    alloc: Global,
    window: &Window,
    kt: i64,
    sites: usize,
    entries: usize,
) -> Result<String, Memory>
    ensures { IfOk result (λ text. string_bytes text
        ≡ text_of (occupation_title_rows window.now.width kt sites entries)) }
{
    let width = window.width;
    Ok(format!(in alloc;
        "sidb-occupation 1\nwindow {width}\nkt {kt}\nsites {sites}\nentries {entries}\n"
    )?)
}

/// The lines of the entries, each with its share.
fn share_lines(alloc: Global, list: &GroundList, shares: &[Share]) -> Result<String, Memory>
    requires one_each { length shares.now ≡ length list.now }
    requires parts { All IsPartOfWhole shares.now }
    ensures { IfOk result (λ text. string_bytes text
        ≡ text_of (map share_row (zip list.now shares.now))) }
{
    let mut text = String::new(alloc);
    for j in 0..list.len() {
        let share = share_at(shares, j);
        let line = share_line(alloc, list.entry(j), &share)?;
        push_row(&mut text, &line)?;
    }
    Ok(text)
}

/// Share j.
fn share_at(shares: &[Share], j: usize) -> Share
    requires within { j < length shares.now }
    requires parts { All IsPartOfWhole shares.now }
    ensures value { slice_get shares.now j ≡ Some result }
    ensures part { IsPartOfWhole result }
{
    shares[j]
}

/// The line of an entry with its share, without a line feed.
fn share_line(alloc: Global, entry: &Entry, share: &Share) -> Result<String, Memory>
    requires { IsPartOfWhole share.now }
    ensures { IfOk result (λ line. string_bytes line
        ≡ join_with_byte 32 (share_row (seen entry.now, share.now))) }
{
    let charges = print_charges(alloc, &entry.charges)?;
    let lo = print_dec(alloc, share.lo, PLACES)?;
    let hi = print_dec(alloc, share.hi, PLACES)?;
    Ok(format!(in alloc; "{charges} {lo} {hi}")?)
}
