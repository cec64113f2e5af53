// The marks of a text are read from the last to the first, so that all that stands inside an
// element is known where it begins.
ghost use Rattle.std.specs.Prelude.{◌≡◌, ◌+◌, ◌<◌, ◌≤◌, ◌^◌, ℕ, List, [], ◌∷◌, ◌++◌, OnOk, IfOk};
ghost use Rattle.std.specs.List.{AllByRecursion};
ghost use Rattle.sqd_marks.specs.Marks.{Tag};
ghost use Rattle.sqd_nesting.specs.Texts.{Item, IsItem};
ghost use Rattle.sqd_nesting.specs.Views.{ShowAll};
ghost use Rattle.sqd_nesting.specs.declared.read.PlacedMark.{PlacedMark};
ghost use Rattle.sqd_elements.specs.Elements.{Element, element_at, elements};
ghost use Rattle.sqd_elements.specs.Kept.{sort_in, inside_of};
ghost use Rattle.sqd_dots.specs.Levels.{Closes};
ghost use Rattle.sqd_dots.specs.States.{IsTally, IsAt, HasRead};

use crate::levels::OpenElements;
use crate::tally::Tally;
use sidb_units::Memory;
use sqd_elements::laws::{kept_of_both, kept_of_one};
use sqd_elements::{Inside, Sort, sort_of};
use sqd_marks::{Kind, end_name};
use sqd_nesting::PlacedMark;
use std::alloc::Global;

/// What is known at a place of all that stands behind it.
#[derive(Drop)]
pub struct DotsReader<'a> {
    pub levels: OpenElements<'a>,
    pub tally: Tally,
}

impl<'a> DotsReader<'a> {
    /// Stands at the end of the text.
    pub fn at_end(alloc: Global) -> DotsReader<'a>
        ensures read { HasRead result [] }
        ensures none { result.tally.skipped ≡ 0 }
    {
        DotsReader {
            levels: OpenElements::outside(alloc),
            tally: Tally::nothing(alloc),
        }
    }

    /// Goes before an element with so much inside.
    fn begin(&mut self, at: usize, sort: Sort, inside: Inside) -> Result<(), Memory>
        requires { self.old.tally.skipped + 1 < 2 ^ 64 }
        ensures at { (around : List (List ℕ)) (tag : Tag) (tags others : List Tag)
            (more : List (List Tag)) (es : List Element)
            → IsAt self.old around (others ∷ more) es → sort_in tag ≡ sort → inside_of tags ≡ inside
            → OnOk result (IsAt self.new around ((tag ∷ (tags ++ others)) ∷ more)
            (element_at at around tag tags ∷ es)) }
        ensures few { self.new.tally.skipped ≤ self.old.tally.skipped + 1 }
    {
        kept_of_one();
        kept_of_both();
        let in_layer = self.levels.is_layer();
        self.levels.add(Inside::of_sort(sort).with(inside));
        self.tally.see(at, sort, inside, in_layer)
    }

    /// Goes before a mark.
    fn take(&mut self, mark: &PlacedMark<'a>) -> Result<(), Memory>
        requires { self.old.tally.skipped + 1 < 2 ^ 64 }
        ensures read { (found : List PlacedMark) → HasRead self.old found
            → OnOk result (HasRead self.new (mark.now ∷ found)) }
        ensures few { self.new.tally.skipped ≤ self.old.tally.skipped + 1 }
    {
        match mark.kind {
            Kind::Start => {
                let inside = self.levels.leave();
                self.begin(mark.at, sort_of(mark.bytes), inside)
            }
            Kind::Empty => self.begin(mark.at, sort_of(mark.bytes), Inside::nothing()),
            Kind::End => self.levels.enter(end_name(mark.bytes)),
            _ => Ok(()),
        }
    }
}

/// The tally of all elements that the marks of a text begin.
pub fn tally_of(alloc: Global, marks: &[PlacedMark]) -> Result<Tally, Memory>
    ensures { (at : ℕ) (items : List Item) → ShowAll at marks.now items
        → AllByRecursion IsItem items → Closes [] items
        → IfOk result (λ tally. IsTally tally (elements at [] items)) }
{
    let mut reader = DotsReader::at_end(alloc);
    let mut k = marks.len();
    while k > 0 {
        k -= 1;
        reader.take(&marks[k])?;
    }
    let DotsReader { levels: _, tally } = reader;
    Ok(tally)
}
