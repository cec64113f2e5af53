//! What the line of an entry promises.
ghost use Rattle.std.specs.Prelude.{◌≡◌, ◌≤◌, length};
ghost use Rattle.charge_model.specs.declared.mark.Mark.{Mark};
ghost use Rattle.charge_model.specs.declared.TheConstants.{MAX_SITES};
ghost use Rattle.charge_model.specs.GroundList.{Entry};
ghost use Rattle.entry_lines.specs.EntryLines.{FitsMark, entry_words, mark_words};

/// The words of a mark are those of no other mark.
#[tactic(auto, using(crate::proofs::OneMark::one_mark))]
pub fn one_mark()
    ensures { (a b : Mark) → FitsMark a → FitsMark b → mark_words a ≡ mark_words b → a ≡ b }
{}

/// The words of an entry are those of no other entry.
pub fn one_entry()
    ensures { (e f : Entry) → length e.charges ≤ MAX_SITES → length f.charges ≤ MAX_SITES
        → FitsMark e.mark → FitsMark f.mark → entry_words e ≡ entry_words f → e ≡ f }
{
    charge_state::laws::texts_have_one_reading();
    charge_state::laws::printed_lists_are_read();
    one_mark();
}
