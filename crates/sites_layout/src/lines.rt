// The lines of a text, or the first that is none.
ghost use Rattle.std.specs.Prelude.{◌≡◌, ◌⊎◌, ◌+◌, ◌++◌, ◌∷◌, [], length, map, Some, IfOk, IfErr, OnOk};
ghost use Rattle.std.specs.List.{list_any};
ghost use Rattle.sqd_scan.specs.declared.fault.SqdFault.TheVariants.{Memory as OutOfMemory, BadLine as WrongLine};
ghost use Rattle.sites_layout.specs.SitesLines.{line_in, lines_in, is_lattice as is_lattice_line};
ghost use Rattle.sites_layout.specs.SitesFaults.{AreFineSitesLines, IsSitesFault};

use crate::SqdFault;
use crate::line::SitesLine;
use crate::line_reader::line_of;
use crate::words::{without_return, words_in};
use std::alloc::Global;
use text_rows::cut;

/// Whether it is a line `lattice`.
fn is_lattice(line: &SitesLine) -> bool
    ensures { result ≡ is_lattice_line (Some line.now) }
{
    matches!(line, SitesLine::Lattice(_))
}

/// Whether one of the lines is a line `lattice`.
fn has_lattice(lines: &[SitesLine]) -> bool
    ensures { result ≡ list_any (λ line. is_lattice_line (Some line)) lines.now }
{
    lines.iter().any(|line| is_lattice(line))
}

/// The line of these bytes, which has this number and stands behind the others.
fn checked_line(
    alloc: Global,
    before: &[SitesLine],
    number: u64,
    bytes: &[u8],
) -> Result<SitesLine, SqdFault>
    requires fine { AreFineSitesLines (map Some before.now) }
    ensures line { IfOk result (λ line. line_in bytes.now ≡ Some line) }
    ensures fine { IfOk result (λ line. AreFineSitesLines (map Some before.now ++ Some line ∷ [])) }
    ensures fault { IfErr result (λ fault. (fault ≡ OutOfMemory)
        ⊎ ((fault ≡ WrongLine number)
        × (¬ AreFineSitesLines (map Some before.now ++ line_in bytes.now ∷ [])))) }
{
    let row = words_in(alloc, without_return(bytes))?;
    let Some(line) = line_of(&row) else {
        return Err(SqdFault::BadLine(number));
    };
    if is_lattice(&line) && has_lattice(before) {
        return Err(SqdFault::BadLine(number));
    }
    Ok(line)
}

/// Adds the line of these bytes.
fn push_line(alloc: Global, lines: &mut Vec<SitesLine>, bytes: &[u8]) -> Result<(), SqdFault>
    requires fine { AreFineSitesLines (map Some lines.old.items) }
    ensures fine { OnOk result (AreFineSitesLines (map Some lines.new.items)) }
    ensures line { OnOk result
        (map Some lines.new.items ≡ map Some lines.old.items ++ line_in bytes.now ∷ []) }
    ensures fault { IfErr result (λ fault. (fault ≡ OutOfMemory)
        ⊎ ((fault ≡ WrongLine (length lines.old.items + 1))
        × (¬ AreFineSitesLines (map Some lines.old.items ++ line_in bytes.now ∷ [])))) }
{
    let number = lines.len() as u64 + 1;
    let line = checked_line(alloc, lines, number, bytes)?;
    lines.push(line)?;
    Ok(())
}

/// All lines of the text, or the first that is none, or is a second line `lattice`.
pub fn read_lines(alloc: Global, text: &[u8]) -> Result<Vec<SitesLine>, SqdFault>
    ensures lines { IfOk result (λ lines. lines_in text.now ≡ map Some lines.items) }
    ensures fine { IfOk result (λ lines. AreFineSitesLines (map Some lines.items)) }
    ensures fault { IfErr result (λ fault. (fault ≡ OutOfMemory) ⊎ IsSitesFault text.now fault) }
{
    let mut lines = Vec::new(alloc);
    let mut rest = text;
    while let Some((line, behind)) = cut(rest, b'\n') {
        push_line(alloc, &mut lines, line)?;
        rest = behind;
    }
    push_line(alloc, &mut lines, rest)?;
    Ok(lines)
}
