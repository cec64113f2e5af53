// Which line may stand after the lines so far.
ghost use Rattle.std.specs.Prelude.{◌≡◌};
ghost use Rattle.table_lines.specs.Order.{may_follow_lines as follows, may_follow_charges as behind_charges, ends_or_places as ends_there};
ghost use Rattle.table_lines.specs.Seen.{IsCounted};

use crate::TableLine;
use crate::seen::Seen;

// Whether it is a line `pair` or `end`, or in version 2 a line `near`.
fn ends_or_places(second: bool, line: &TableLine) -> bool
    ensures { result ≡ ends_there second line.now }
{
    match line {
        TableLine::Pair(..) | TableLine::End => true,
        TableLine::Near(..) => second,
        _ => false,
    }
}

// Whether such a line may stand behind the levels or a charge.
fn may_follow_charges(seen: &Seen, line: &TableLine) -> bool
    requires { IsCounted seen.now }
    ensures { result ≡ behind_charges seen.now.lines.items line.now }
{
    if (seen.charges.len() as i64) < seen.fixed {
        matches!(line, TableLine::Charge(_))
    } else {
        matches!(line, TableLine::Class(..)) || ends_or_places(seen.second, line)
    }
}

/// Whether such a line may stand after the lines so far.
pub fn may_follow(seen: &Seen, line: &TableLine) -> bool
    requires { IsCounted seen.now }
    ensures { result ≡ follows seen.now.lines.items line.now }
{
    let Some(last) = seen.lines.last() else {
        return matches!(line, TableLine::FirstVersion | TableLine::SecondVersion);
    };
    match last {
        TableLine::FirstVersion | TableLine::SecondVersion => matches!(line, TableLine::Sites(_)),
        TableLine::Sites(_) => {
            if seen.second {
                matches!(line, TableLine::Fixed(_))
            } else {
                matches!(line, TableLine::Base(_))
            }
        }
        TableLine::Fixed(_) => matches!(line, TableLine::Base(_)),
        TableLine::Base(_) => matches!(line, TableLine::Levels(..)),
        TableLine::Levels(..) | TableLine::Charge(_) => may_follow_charges(seen, line),
        TableLine::Class(..) => {
            matches!(line, TableLine::Class(..)) || ends_or_places(seen.second, line)
        }
        TableLine::Pair(..) | TableLine::Near(..) => ends_or_places(seen.second, line),
        TableLine::End => false,
    }
}
