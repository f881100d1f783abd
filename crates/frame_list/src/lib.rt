// The writer of a status over a lent list of ranges. The starts and the ends are copied out of the list, and the writer
// of `frame_writer`, which takes numbers, does the work: document 01 names it so.
#![tactic(auto)]

ghost use Rattle.std.specs.Prelude.{◌≡◌};
ghost use Rattle.frame_layout.specs.Frames.{write_status as «write_status_of»};
ghost use Rattle.frame_layout.specs.Types.{ranges_in};
ghost use Rattle.frame_writer.specs.Answers.{left, head_status};

pub use frame_layout::Range;
use frame_writer::Head;
use refusal::Refusal;

// The places of each array: one more than a status carries, so that a list that is too long is seen.
const PLACES: usize = frame_layout::MOST_RANGES + 1;

// A status frame: type 1, or 2 in the long form; how many octets it has.
pub fn write_status(head: Head, ranges: &[Range], dst: &mut [u8]) -> Result<usize, Refusal>
    ensures { left result dst.new ≡ «write_status_of» (head_status head (ranges_in ranges.now)) dst.old }
{
    let n = ranges.len().min(PLACES);
    let mut starts = [0; PLACES];
    let mut ends = [0; PLACES];
    // An index, since it is a range's place in the list and that of its numbers in both arrays: no walk over all three would be plainer.
    for i in 0..n {
        starts[i] = ranges[i].start;
        ends[i] = ranges[i].end;
    }
    frame_writer::write_status(head, &starts[..n], &ends[..n], dst)
}
