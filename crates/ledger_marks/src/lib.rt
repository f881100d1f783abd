// A status's ranges applied to the entries that the master holds: one pass over the entries, in step with one over the frame.
#![tactic(auto)]

ghost use Rattle.std.specs.Prelude.{◌≡◌, ℕ, IfErr, IfOk};
ghost use Rattle.circle.specs.Lengths.{is_long};
ghost use Rattle.bearer.specs.Ledger.{mark_lost};
ghost use Rattle.ledger_entries.specs.View.{entries_of};
ghost use Rattle.ledger_entries.specs.Steps.{Lowers};
ghost use Rattle.ledger_marks.specs.Walked.{walked, marked_as};

use frame_reader::{Cursor, Range};
use frame_view::View;
use ledger_entries::Entries;
use refusal::Refusal;

// Entries with a status's ranges applied, what is left of a sum of waiting sizes, and how many became lost.
#[derive(Clone, Copy)]
pub struct Marked {
    pub entries: Entries,
    pub octets: u32,
    pub lost: u32,
}

// The numbers of the ranges from a cursor on become lost, one after another, where they are found among the waiting entries, and a sum
// of waiting sizes is lowered by the size of each; 33 where one isn't found so. The entries are copied once, so a refusal leaves them.
// One place goes through the entries for all the ranges, so no range is walked further than the entries reach.
// Frame and cursor come apart and not as a view: of a slice in a struct the proof doesn't learn that its octets are below 256.
// The view is asked for each range, since the loop ends alike where the ranges end and where it is left by its label, and 33 hangs on which.
pub fn mark(entries: &Entries, octets: u32, frame: &[u8], from: Cursor) -> Result<Marked, Refusal>
    ensures { ((L : ℕ) → is_long L ≡ from.long → marked_as result ≡ mark_lost L (entries_of entries.now) (walked frame.now from))
        × IfErr result (λ refusal. refusal ≡ Refusal.NotWaiting)
        × IfOk result (λ marked. Lowers octets (entries_of entries.now) (entries_of marked.entries) marked.octets) }
{
    let n = entries.held().len();
    let mut marked = Marked {
        entries: *entries,
        octets,
        lost: 0,
    };
    let mut passed: usize = 0;
    let mut view = View { frame, at: from };
    'ranges: loop {
        let Some(Range { start, end }) = view.next() else {
            return Ok(marked);
        };
        let mut number = start;
        let mut further = circle::distance(start, end, from.long);
        for i in passed..n {
            let e = marked.entries.slots[i];
            if e.waits() && e.number == number {
                marked.entries.slots[i] = e.as_lost();
                marked.octets = marked.octets.saturating_sub(u32::from(e.size));
                marked.lost += 1;
                if further == 0 {
                    passed = i + 1;
                    continue 'ranges;
                }
                further -= 1;
                number = circle::onward(number, 1, from.long);
            }
        }
        break 'ranges;
    }
    Err(Refusal::NotWaiting)
}
