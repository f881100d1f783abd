// What an arrival and an expiry on the secondary's end answer and change, judged before anything is changed. The state is lent to be read
// (the crate keeper_state). specs/Judgements.antt says what a judgement means.
#![tactic(auto)]

ghost use Rattle.std.specs.Prelude.{◌≡◌, ℕ, ◌^◌, ◌≤◌, ◌<◌, length};
ghost use Rattle.circle.specs.Lengths.{modulus};
ghost use Rattle.bearer.specs.Losses.{place_in, bears_before, offsets, raised_base as «raised_base_of»};
ghost use Rattle.bearer.specs.Keeper.{limit_of, base_arrived};
ghost use Rattle.keeper_state.specs.Lent.{state_shown};
ghost use Rattle.keeper_judge.specs.Judgements.{joins_from, Reaches, ReachesFrom, JudgesLosses, JudgesArrival, JudgesPlace, JudgesExpiry, JudgesGaps};

use circle::Side;
use keeper_loss::Point;
use keeper_state::{Held, MOST_RECORDS, MOST_RUNS};
use refusal::Refusal;

const WINDOW: u32 = 256;

// What is given up below the distance `limit` from base: how many numbers, how many runs are listed then, and whether the
// first new run joins the last listed one. The records from `from` on lie at or past base (not asked where `limit` is 0).
// `joins` stands beside numbers that mean the same either way, so an enum of two variants with all of them would be no plainer.
#[derive(Clone, Copy, Debug, PartialEq, Eq)]
pub struct Losses {
    pub from: usize,
    pub limit: u32,
    pub numbers: u32,
    pub runs: usize,
    pub joins: bool,
}

// What an accepted arrival or expiry changes: base, and what is given up.
#[derive(Clone, Copy, Debug, PartialEq, Eq)]
pub struct Plan {
    pub base: u32,
    pub lost: Losses,
}

// An accepted arrival: its record belongs at `place`.
#[derive(Clone, Copy, Debug, PartialEq, Eq)]
pub struct Arrival {
    pub place: usize,
    pub plan: Plan,
}

// ---- the calls

// Arrival of a number and a PDCP number: 9, 10, 18, 11, or by its place.
pub fn judge_arrival(held: &Held<'_>, number: u32, pdcp: u32) -> Result<Arrival, Refusal>
    ensures { JudgesArrival result (state_shown held.now) number pdcp }
{
    let words = held.words;
    if !words.is_open() {
        return Err(Refusal::Closed);
    }
    let base = Point::from(words);
    if circle::modulus(base.long) <= number || circle::pdcps(words.bits) <= pdcp {
        return Err(Refusal::Number);
    }
    match circle::lies(base.at, number, base.long) {
        Side::Opposite => Err(Refusal::Opposite),
        Side::Behind => Err(Refusal::Late),
        Side::Same | Side::Ahead => judge_place(held, number),
    }
}

// Expiry, by which each open number before the mark is lost: 9, 10, 19, 17, or by the gaps before the mark.
pub fn judge_expiry(held: &Held<'_>, mark: u32) -> Result<Plan, Refusal>
    ensures { JudgesExpiry result (state_shown held.now) mark }
{
    if !held.words.is_open() {
        return Err(Refusal::Closed);
    }
    let base = Point::from(held.words);
    if circle::modulus(base.long) <= mark {
        return Err(Refusal::Number);
    }
    if !base.is_before(mark) && base.is_beyond(held.numbers, mark) {
        return Err(Refusal::Mark);
    }
    if !base.is_ahead(mark) {
        return Err(Refusal::NoGap);
    }
    judge_gaps(held, base.distance(mark))
}

// ---- arrival

// An arrival that doesn't lie before base, by its place among the numbers held: 12, 13, 14, 15, or what it changes.
fn judge_place(held: &Held<'_>, number: u32) -> Result<Arrival, Refusal>
    ensures { (pdcp : ℕ) → JudgesPlace result (state_shown held.now) number pdcp }
{
    let base = Point::from(held.words);
    let place = place_of(base, held.numbers, number);
    if has_record(held.numbers, place, number) {
        return Err(Refusal::Again);
    }
    let distance = base.distance(number);
    let floor = base
        .first_behind(held.starts)
        .max(base.first_behind(held.numbers));
    if circle::half(base.long) <= floor + distance {
        return Err(Refusal::Span);
    }
    let lost = lost_below(held, distance.saturating_sub(WINDOW - 1))?;
    if MOST_RECORDS <= held.numbers.len() {
        return Err(Refusal::Records);
    }
    let base = arrived_base(base, held.numbers, place, distance, lost);
    Ok(Arrival {
        place,
        plan: Plan { base, lost },
    })
}

// Where the record of a number belongs: behind that of the same number, where one is held.
fn place_of(base: Point, numbers: &[u32], number: u32) -> usize
    ensures { result ≡ place_in (modulus base.long) numbers.now number }
{
    Point { at: number, ..base }.place(numbers)
}

// Whether the record in front of a place bears the number.
fn has_record(numbers: &[u32], place: usize, number: u32) -> bool
    requires { place ≤ length numbers.now }
    ensures { result ≡ bears_before numbers.now number place }
{
    numbers[..place].last() == Some(&number)
}

// The base after an arrival: it moves if the arrival is base itself, or if base is given up.
fn arrived_base(base: Point, numbers: &[u32], place: usize, distance: u32, lost: Losses) -> u32
    requires { (place ≤ length numbers.now) × (distance < 2 ^ 24) × (lost.limit ≡ limit_of distance) × Reaches lost (modulus base.long) base.at numbers.now }
    ensures { result ≡ base_arrived (modulus base.long) base.at numbers.now place distance }
{
    if distance == 0 {
        return base.onward(base.lowest(&numbers[place..], 1));
    }
    if distance < WINDOW {
        return base.at;
    }
    raised_base(base, &numbers[lost.from..], lost.limit, distance)
}

// The base when all below the distance `limit` is given up, and the number at the distance `top` has a record.
fn raised_base(base: Point, above: &[u32], limit: u32, top: u32) -> u32
    requires { top < 2 ^ 24 }
    ensures { result ≡ «raised_base_of» (modulus base.long) base.at (offsets (modulus base.long) base.at above.now) limit top }
{
    let low = base.lowest(above, limit);
    if low == top {
        base.onward(low + 1)
    } else {
        base.onward(low)
    }
}

// ---- expiry

// An expiry by the gaps below a distance from base: 14, or what it changes.
fn judge_gaps(held: &Held<'_>, distance: u32) -> Result<Plan, Refusal>
    requires { 0 < distance }
    ensures { JudgesGaps result (state_shown held.now) distance }
{
    let base = Point::from(held.words);
    let lost = lost_below(held, distance)?;
    let open = base.lowest(&held.numbers[lost.from..], distance);
    Ok(Plan {
        base: base.onward(open),
        lost,
    })
}

// ---- what is given up

// What is given up below the distance `limit`: 14, or what can be listed. The list is passed twice, to be changed only once nothing is
// refused. Inlined: when that was done, an arrival in order went from 308 instructions to 246.
#[inline(always)]
fn lost_below(held: &Held<'_>, limit: u32) -> Result<Losses, Refusal>
    ensures { JudgesLosses result (state_shown held.now) limit }
{
    let base = Point::from(held.words);
    let from = reach(base, held.numbers, limit);
    let up = base.given_up(&held.numbers[from..], limit);
    let joins = joins_last(base, held.ends, up.first);
    let runs = held.ends.len() + up.gaps - usize::from(joins);
    if MOST_RUNS < runs {
        return Err(Refusal::Runs);
    }
    Ok(Losses {
        from,
        limit,
        numbers: up.numbers,
        runs,
        joins,
    })
}

// How many numbers lie before base. Where nothing can be given up none is looked at.
fn reach(base: Point, numbers: &[u32], limit: u32) -> usize
    ensures { ReachesFrom result limit (modulus base.long) base.at numbers.now }
{
    if limit == 0 {
        numbers.len()
    } else {
        base.passed(numbers)
    }
}

// Whether the first new run, from so far on, joins the last listed one.
fn joins_last(base: Point, ends: &[u32], first: Option<u32>) -> bool
    ensures { result ≡ joins_from (modulus base.long) base.at ends.now first }
{
    let (Some(first), [.., last]) = (first, ends) else {
        return false;
    };
    circle::distance(*last, base.onward(first), base.long) == 1
}
