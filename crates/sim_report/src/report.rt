ghost use Rattle.std.specs.Prelude.{◌≡◌, ◌++◌, ℕ, List, string_bytes, IfOk};
ghost use Rattle.text_rows.specs.Rows.{text_of};
ghost use Rattle.ground_report.specs.Subject.{AreListsOfProblem};
ghost use Rattle.sim_report.specs.GroundText.{IsGroundText, IsTitledText, count_rows, layout_rows, ground_title_rows};
ghost use Rattle.sim_report.specs.WindowText.{IsWindowText, window_title_rows};

use crate::layout::layout_lines;
use crate::lists::list_lines;
use ground_entries::GroundList;
use ground_report::About;
use potential_problem::Problem;
use sidb_units::Memory;
use std::alloc::Global;
use window_model::Window;

/// The ground text: what it is and its version, the number of sites, the lattice where it is
/// another one than that of silicon, each site and each fixed charge of the layout, the number of
/// skipped items and of entries, each entry and its mark, and the end. With energies each entry
/// has its least and greatest energy at scale 1, in 10^-12 V.
pub fn ground_text(
    alloc: Global,
    about: &About,
    problem: &Problem,
    list: &GroundList,
    energies: bool,
) -> Result<String, Memory>
    requires entries { AreListsOfProblem problem.now list.now }
    ensures text { IfOk result (λ text.
        IsGroundText about.now problem.now list.now energies (string_bytes text)) }
{
    let title = title(alloc, about, problem.sites())?;
    titled(alloc, title, about, problem, list, energies)
}

/// The window text: the ground text with `sidb-window 1` as its first line, and the window as its
/// second, in 10^-12 V.
pub fn window_text(
    alloc: Global,
    about: &About,
    problem: &Problem,
    window: &Window,
    list: &GroundList,
    energies: bool,
) -> Result<String, Memory>
    requires entries { AreListsOfProblem problem.now list.now }
    ensures text { IfOk result (λ text. IsWindowText about.now problem.now window.now.width
        list.now energies (string_bytes text)) }
{
    let title = window_title(alloc, window, problem.sites())?;
    titled(alloc, title, about, problem, list, energies)
}

/// The text that begins with this title.
fn titled(
    alloc: Global,
    title: String,
    about: &About,
    problem: &Problem,
    list: &GroundList,
    energies: bool,
) -> Result<String, Memory>
    requires { AreListsOfProblem problem.now list.now }
    ensures { (rows : List (List (List ℕ))) → string_bytes title ≡ text_of rows
        → IfOk result (λ text. IsTitledText rows about.now problem.now list.now energies
        (string_bytes text)) }
{
    let mut text = with_counts(alloc, title, about, list.len())?;
    let entries = list_lines(alloc, problem, list, energies)?;
    text.push_str(&entries)?;
    text.push_str("end\n")?;
    Ok(text)
}

/// The lines before the entries: behind the title the layout, and what is counted.
fn with_counts(
    alloc: Global,
    title: String,
    about: &About,
    entries: usize,
) -> Result<String, Memory>
    ensures { (rows : List (List (List ℕ))) → string_bytes title ≡ text_of rows
        → IfOk result (λ text. string_bytes text ≡ text_of (rows
        ++ (layout_rows about.now.layout ++ count_rows about.now entries))) }
{
    let mut text = title;
    let layout = about_lines(alloc, about)?;
    let counts = counts(alloc, about, entries)?;
    text.push_str(&layout)?;
    text.push_str(&counts)?;
    Ok(text)
}

/// The title of a ground text.
fn title(alloc: Global, about: &About, sites: usize) -> Result<String, Memory>
    ensures { IfOk result (λ text. string_bytes text
        ≡ text_of (ground_title_rows about.now sites)) }
{
    let version = about.version();
    Ok(format!(in alloc; "sidb-ground {version}\nsites {sites}\n")?)
}

/// The title of a window text.
fn window_title(alloc: Global, window: &Window, sites: usize) -> Result<String, Memory>
    ensures { IfOk result (λ text. string_bytes text
        ≡ text_of (window_title_rows window.now.width sites)) }
{
    let width = window.width;
    Ok(format!(in alloc; "sidb-window 1\nwindow {width}\nsites {sites}\n")?)
}

/// The lines of the layout, where there is one.
fn about_lines(alloc: Global, about: &About) -> Result<String, Memory>
    ensures { IfOk result (λ text. string_bytes text
        ≡ text_of (layout_rows about.now.layout)) }
{
    match &about.layout {
        Some(layout) => layout_lines(alloc, layout),
        None => Ok(String::new(alloc)),
    }
}

/// How many items were skipped, and how many entries there are.
fn counts(alloc: Global, about: &About, entries: usize) -> Result<String, Memory>
    ensures { IfOk result (λ text. string_bytes text ≡ text_of (count_rows about.now entries)) }
{
    let skipped = about.skipped_items();
    Ok(format!(in alloc; "skipped {skipped}\nentries {entries}\n")?)
}
