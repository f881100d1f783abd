// The ranges of a status, walked one after another over the caller's frame: a view holds the frame, and the place and the
// count of the ranges that are left. It is taken apart, and the reader does the work.
#![tactic(auto)]

ghost use Rattle.std.specs.Prelude.{◌≡◌};
ghost use Rattle.frame_reader.specs.Answers.{cursor_of, next_in};

use frame_reader::{Cursor, Head, Range, Step};

#[derive(Clone, Copy)]
pub struct View<'a> {
    pub frame: &'a [u8],
    pub at: Cursor,
}

// The view of a status that was read in a frame: all of its ranges are left.
pub fn view_of<'a>(frame: &'a [u8], head: Head) -> View<'a>
    ensures { (result.frame ≡ frame.entry) × (result.at ≡ cursor_of head) }
{
    View {
        frame,
        at: frame_reader::first_range(head),
    }
}

// The range that a view stands at, and the cursor behind it.
pub fn next(v: View<'_>) -> Option<Step>
    ensures { result ≡ next_in v.entry.frame.now v.entry.at }
{
    frame_reader::next_range(v.frame, v.at)
}

// The ranges that are left, one after another.
impl Iterator for View<'_> {
    ghost use Rattle.std.specs.Iterator.{YieldsFirstBy, item_count};
    ghost use Rattle.frame_layout.specs.Types.{range_of};
    ghost use Rattle.frame_view.specs.Views.{ahead_of};

    type Item = Range;

    ghost next_gives = { YieldsFirstBy range_of ahead_of };

    ghost remaining = { item_count ahead_of };

    fn next(&mut self) -> Option<Range> {
        let step = next(*self)?;
        self.at = step.rest;
        Some(step.range)
    }
}
