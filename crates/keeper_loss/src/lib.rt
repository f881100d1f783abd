// Where numbers lie as seen from base, and what is given up below a distance from it: passes over a lent list of numbers.
// Numbers are of the short form (modulo 2^16) or the long one (modulo 2^24); distances are forward from base.
#![tactic(auto)]

ghost use Rattle.std.specs.Prelude.{◌≡◌, ◌+◌, ◌-◌, ◌%◌, ◌^◌, ◌<◌, length, set};
ghost use Rattle.std.proofs.lemmas.List.Edits.{sets};
ghost use Rattle.circle.specs.Circle.{forward};
ghost use Rattle.circle.specs.Lengths.{modulus};
ghost use Rattle.frame_layout.specs.Frames.{starts_of, ends_of};
ghost use Rattle.bearer.specs.Losses.{before, ahead_of, from_on, far_behind, front_of, place_in, first_behind as «first_behind_of», is_beyond as «is_beyond_of», offsets, gaps as «gaps_of», lowest as «lowest_of», runs_of};
ghost use Rattle.keeper_loss.specs.Tally.{told, found, base_in, gaps_left};

mod gaps;

use circle::Side;
use gaps::Gaps;
use keeper_state::Words;

// What is given up: how many gaps and numbers, and how far the first gap is from base.
#[derive(Clone, Copy, Debug, PartialEq, Eq)]
pub struct GivenUp {
    pub gaps: usize,
    pub numbers: u32,
    pub first: Option<u32>,
}

// A number on the circle of its form, from which others are seen: base, or one that arrives.
#[derive(Clone, Copy, Debug, PartialEq, Eq)]
pub struct Point {
    pub at: u32,
    pub long: bool,
}

// Base, as the words say it.
impl From<Words> for Point {
    ghost from_gives = { λ words point. point ≡ base_in words };

    fn from(words: Words) -> Point {
        Point {
            at: words.base,
            long: circle::is_long(words.bits),
        }
    }
}

impl Point {
    // How far it is forward to a number.
    pub fn distance(self, number: u32) -> u32
        ensures { result ≡ forward (modulus self.long) self.at number }
    {
        circle::distance(self.at, number, self.long)
    }

    // The number so far forward.
    pub fn onward(self, distance: u32) -> u32
        ensures { result ≡ (self.at + distance) % modulus self.long }
    {
        circle::onward(self.at, distance, self.long)
    }

    // Whether a number lies ahead.
    pub fn is_ahead(self, number: u32) -> bool
        ensures { result ≡ ahead_of (modulus self.long) self.at number }
    {
        circle::lies(self.at, number, self.long) == Side::Ahead
    }

    // Whether a number lies before: neither ahead nor the same, so behind or opposite.
    pub fn is_before(self, number: u32) -> bool
        ensures { result ≡ before (modulus self.long) self.at number }
    {
        matches!(
            circle::lies(self.at, number, self.long),
            Side::Behind | Side::Opposite
        )
    }

    // How far behind a number is that lies before; 0 for any other, and no None: the floor is the greatest of these distances, as its definition has it.
    fn behind(self, number: u32) -> u32
        ensures { result ≡ far_behind (modulus self.long) self.at number }
    {
        if self.is_before(number) {
            circle::distance(number, self.at, self.long)
        } else {
            0
        }
    }

    // ---- the ends of a list

    // Where it belongs in a list: in front of the last numbers that all lie ahead. From the back, so that what stands in front of
    // them is not looked at.
    pub fn place(self, numbers: &[u32]) -> usize
        ensures { result ≡ place_in (modulus self.long) numbers.now self.at }
    {
        match numbers.iter().rposition(|n| !self.is_ahead(*n)) {
            Some(last) => last + 1,
            None => 0,
        }
    }

    // How many numbers stand in front of the last ones that all are the same or lie ahead.
    pub fn passed(self, numbers: &[u32]) -> usize
        ensures { result ≡ front_of (from_on (modulus self.long) self.at) numbers.now }
    {
        match numbers.iter().rposition(|n| self.is_before(*n)) {
            Some(last) => last + 1,
            None => 0,
        }
    }

    // How far behind the first number is; 0 for none, as above.
    pub fn first_behind(self, numbers: &[u32]) -> u32
        ensures { result ≡ «first_behind_of» (modulus self.long) self.at numbers.now }
    {
        numbers.first().map_or(0, |n| self.behind(*n))
    }

    // Whether a number lies beyond the last of others; and so it does where that lies before, or where there is none.
    pub fn is_beyond(self, numbers: &[u32], number: u32) -> bool
        ensures { result ≡ «is_beyond_of» (modulus self.long) self.at numbers.now number }
    {
        let [.., last] = numbers else { return true };
        let last = Point { at: *last, ..self };
        self.is_before(last.at) || last.is_ahead(number)
    }

    // ---- what is open below a distance

    // The lowest distance from `from` on at which none of the numbers lies.
    pub fn lowest(self, numbers: &[u32], from: u32) -> u32
        ensures { result ≡ «lowest_of» from (offsets (modulus self.long) self.at numbers.now) }
    {
        let mut low = from;
        for n in numbers {
            if self.distance(*n) == low {
                low += 1;
            }
        }
        low
    }

    // The gaps that numbers leave below the distance `limit`.
    fn gaps(self, numbers: &[u32], limit: u32) -> Gaps<'_>
        ensures { gaps_left result ≡ «gaps_of» 0 limit (offsets (modulus self.long) self.at numbers.now) }
    {
        Gaps {
            point: self,
            numbers,
            from: 0,
            limit,
        }
    }

    // What is given up below the distance `limit`.
    pub fn given_up(self, numbers: &[u32], limit: u32) -> GivenUp
        ensures { result ≡ told («gaps_of» 0 limit (offsets (modulus self.long) self.at numbers.now)) }
    {
        let mut gaps = self.gaps(numbers, limit);
        let Some(first) = gaps.next() else {
            return GivenUp {
                gaps: 0,
                numbers: 0,
                first: None,
            };
        };
        // The first gap by itself: in the loop each gap would ask whether there was one before it.
        let mut sum = GivenUp {
            gaps: 1,
            numbers: first.to - first.from,
            first: Some(first.from),
        };
        for gap in gaps {
            sum.gaps += 1;
            sum.numbers += gap.to - gap.from;
        }
        sum
    }

    // Writes the run of each gap below the distance `limit` to starts and ends, from their first slot on. Slots past an end are left. Two arrays, as C lends them.
    pub fn list_gaps(self, numbers: &[u32], limit: u32, starts: &mut [u32], ends: &mut [u32])
        ensures starts_after { starts.new ≡ sets starts.old 0 (starts_of (runs_of (modulus self.long) self.at («gaps_of» 0 limit (offsets (modulus self.long) self.at numbers.now)))) }
        ensures ends_after { ends.new ≡ sets ends.old 0 (ends_of (runs_of (modulus self.long) self.at («gaps_of» 0 limit (offsets (modulus self.long) self.at numbers.now)))) }
    {
        for (slot, gap) in self.gaps(numbers, limit).enumerate() {
            store(starts, slot, self.onward(gap.from));
            store(ends, slot, self.onward(gap.to - 1));
        }
    }
}

// Stores a number in a slot, if there is one.
fn store(slots: &mut [u32], at: usize, number: u32)
    ensures { slots.new ≡ set slots.old at number }
{
    // Not by `get_mut`: the check alone found no proof of what is stored through it.
    if at < slots.len() {
        slots[at] = number;
    }
}

// Where a number first stands.
pub fn index_of(numbers: &[u32], number: u32) -> Option<usize>
    ensures { result ≡ found number numbers.now }
{
    numbers.iter().position(|n| *n == number)
}
