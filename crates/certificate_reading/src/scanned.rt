// What is kept of the lines behind the table.
ghost use Rattle.std.specs.Prelude.{◌≡◌, ◌⊎◌, ◌+◌, ◌<◌, ◌≤◌, ◌^◌, ◌++◌, ◌∷◌, [], length, map, true, IfOk, IfErr, OnOk};
ghost use Rattle.std.specs.List.{filter};
ghost use Rattle.ground_entries.specs.Seen.{seen};
ghost use Rattle.certificate_lines.specs.Lines.{entry_line};
ghost use Rattle.certificate_reading.specs.declared.fault.CertText.TheVariants.{Memory as OutOfMemory};
ghost use Rattle.certificate_reading.specs.Order.{is_entry};
ghost use Rattle.certificate_reading.specs.Ranges.{is_certificate_line_in_range, AreCountsInRange};
ghost use Rattle.certificate_reading.specs.Scanning.{IsScanned, IsScanFault, Takes};

use crate::CertText;
use crate::counts::Counts;
use crate::line::checked_line;
use crate::range::mark_in;
use certificate_lines::CertLine;
use ground_entries::Entry;
use potential_problem::Problem;
use sidb_units::Memory;
use std::alloc::Global;
use table_reading::LineWhy;
use text_rows::cut;

/// What is kept of the lines: what was counted, the entries, and the place just behind the line
/// `tokens`.
#[derive(Drop)]
pub struct Scanned {
    pub counts: Counts,
    pub entries: Vec<Entry>,
    pub start: usize,
}

// Adds the entry of a line, if it is one.
fn push_entry(
    entries: &mut Vec<Entry>,
    problem: &Problem,
    counts: &Counts,
    line: CertLine,
) -> Result<(), Memory>
    requires { is_certificate_line_in_range problem.now counts.now line ≡ true }
    ensures { OnOk result (map entry_line (map seen entries.new.items)
        ≡ map entry_line (map seen entries.old.items) ++ filter is_entry (line ∷ [])) }
{
    if let CertLine::Entry(charges, mark) = line {
        let mark = mark_in(problem, counts.named, mark);
        entries.push(Entry { charges, mark })?;
    }
    Ok(())
}

impl Scanned {
    // Takes one more line, which ends at this place.
    fn take(&mut self, problem: &Problem, line: CertLine, place: usize) -> Result<(), Memory>
        requires ranges { AreCountsInRange self.old.counts }
        requires in_range { is_certificate_line_in_range problem.now self.old.counts line ≡ true }
        ensures { OnOk result (Takes self.old self.new place line) }
    {
        let counts = self.counts;
        if matches!(line, CertLine::Tokens) {
            self.start = place;
        }
        self.counts = counts.after(&line);
        push_entry(&mut self.entries, problem, &counts, line)
    }
}

/// What stands behind the table, with lines numbered from `first` on.
pub fn scan_lines(
    alloc: Global,
    problem: &Problem,
    text: &[u8],
    first: u64,
) -> Result<Scanned, CertText>
    requires { first + length text.now < 2 ^ 64 }
    ensures found { IfOk result (λ scanned. IsScanned problem.now text.now scanned) }
    ensures fault { IfErr result (λ fault. (fault ≡ OutOfMemory)
        ⊎ IsScanFault problem.now first text.now fault) }
{
    let mut scanned = Scanned {
        counts: Counts::none(),
        entries: Vec::new(alloc),
        start: 0,
    };
    let mut number = first;
    let mut rest = text;
    'lines: while !scanned.counts.is_ended() {
        let Some((line, behind)) = cut(rest, b'\n') else {
            return Err(CertText::Line(number, LineWhy::Form));
        };
        let found = match checked_line(problem, &scanned.counts, line) {
            Ok(found) => found,
            Err(why) => return Err(CertText::Line(number, why)),
        };
        scanned.take(problem, found, text.len() - behind.len())?;
        number += 1;
        rest = behind;
    }
    if rest.is_empty() {
        Ok(scanned)
    } else {
        Err(CertText::Line(number, LineWhy::Form))
    }
}
