// Lines added at the end of a text.
ghost use Rattle.std.specs.Prelude.{◌≡◌, ◌++◌, ◌∷◌, [], string_bytes, OnOk};

use sidb_units::Memory;

/// Adds the line, and a line feed.
pub fn push_row(text: &mut String, line: &str) -> Result<(), Memory>
    ensures { OnOk result (string_bytes text.new
        ≡ string_bytes text.old ++ (line.now ++ 10 ∷ [])) }
{
    text.push_str(line)?;
    text.push_str("\n")?;
    Ok(())
}
