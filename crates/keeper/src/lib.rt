// The secondary's loss keeper (SeNB end): open, arrival, expiry, confirm, status, anything to say. The state is lent arrays of numbers (the
// crate keeper_state), changed in place: records in sending order (number, PDCP number, mark of confirmation), listed runs (start, end), and
// six words: L, base, the reported highest, open or closed, how many runs, how many records. specs/View.antt says how they are read, and
// specs/Plain.antt which numbers calls leave in them.
// Each call is judged (the crates keeper_judge and keeper_report) before anything is changed.
#![tactic(auto)]

ghost use Rattle.std.specs.Prelude.{◌≡◌, true, Ok, Err, ◌∷◌, ◌++◌, ◌+◌, ◌-◌, ◌≤◌, ◌<◌, length, take, drop};
ghost use Rattle.refusal.specs.declared.Refusal.{Refusal};
ghost use Rattle.refusal.specs.Numbers.{answer_of};
ghost use Rattle.circle.specs.Lengths.{modulus, is_length};
ghost use Rattle.frame_layout.specs.Frames.{ranges_of, most_ranges, write_status as «write_status_of»};
ghost use Rattle.frame_writer.specs.Answers.{left};
ghost use Rattle.bearer.specs.Bearer.{most_runs, most_records};
ghost use Rattle.bearer.specs.Losses.{new_runs, runs_joined};
ghost use Rattle.bearer.specs.Keeper.{open_keeper, new_record, records_with, runs_after, arrive as «arrive_of», expire as «expire_of», confirm as «confirm_of», status as «status_of», anything as «anything_of», ◌with_base◌, ◌with_reported◌, ◌with_closed◌, ◌with_runs◌, ◌with_records◌};
ghost use Rattle.keeper_state.specs.Lent.{arrays_of, keeper_of, state_shown, SameLoans};
ghost use Rattle.keeper_judge.specs.Judgements.{Losing, Loses};
ghost use Rattle.keeper.specs.View.{fresh_words, shown_in, answered, reported_as, opens_into};
ghost use Rattle.keeper.specs.Plain.{Plain};
ghost use Rattle.keeper.specs.Steps.{Becomes, status_with};

use frame_writer::Head;
use keeper_judge::{Arrival, Losses};
use keeper_loss::Point;
pub use keeper_state::{RecordArray, RunArray, State, WordArray};
use keeper_state::{Held, Words};
use refusal::Refusal;

// What the words say, for those who show a state: slots past a count are no part of it.
#[derive(Clone, Copy, Debug, PartialEq, Eq)]
pub struct Shown {
    pub base: u32,
    pub reported: u32,
    pub closed: bool,
    pub runs: usize,
    pub records: usize,
}

// ---- the calls, each promise by a name of its own, since C's calls cite them one by one

// Opens the end: L, the first X2-U number and the first PDCP number.
pub fn open(state: &mut State<'_>, bits: u32, number: u32, pdcp: u32) -> Result<(), Refusal>
    ensures loans { SameLoans state.old state.new }
    ensures words_after { answered result (keeper_of state.new) ≡ opens_into (keeper_of state.old) (open_keeper bits number pdcp) }
    ensures unchanged { (e : Refusal) → result ≡ Err e → arrays_of state.new ≡ arrays_of state.old }
    ensures plain { result ≡ Ok tt → Plain state.new.words.now state.new.marks.now }
{
    if !circle::is_length(bits) {
        return Err(Refusal::PdcpLength);
    }
    if circle::modulus(circle::is_long(bits)) <= number || circle::pdcps(bits) <= pdcp {
        return Err(Refusal::Number);
    }
    *state.words = fresh(bits, number, pdcp).into();
    Ok(())
}

// Arrival of a number and a PDCP number: how many numbers became lost.
pub fn arrive(state: &mut State<'_>, number: u32, pdcp: u32) -> Result<u32, Refusal>
    ensures loans { SameLoans state.old state.new }
    ensures words_after { answered result (keeper_of state.new) ≡ «arrive_of» (keeper_of state.old) number pdcp }
    ensures unchanged { (e : Refusal) → result ≡ Err e → arrays_of state.new ≡ arrays_of state.old }
    ensures plain { Plain state.old.words.now state.old.marks.now → Plain state.new.words.now state.new.marks.now }
{
    let Arrival { place, plan } = keeper_judge::judge_arrival(&state.held(), number, pdcp)?;
    list_lost(state, plan.lost);
    add_record(state, place, number, pdcp);
    move_base(state, plan.base);
    Ok(plan.lost.numbers)
}

// Expiry: each open number before the mark is lost; how many became so.
pub fn expire(state: &mut State<'_>, mark: u32) -> Result<u32, Refusal>
    ensures loans { SameLoans state.old state.new }
    ensures words_after { answered result (keeper_of state.new) ≡ «expire_of» (keeper_of state.old) mark }
    ensures unchanged { (e : Refusal) → result ≡ Err e → arrays_of state.new ≡ arrays_of state.old }
    ensures plain { Plain state.old.words.now state.old.marks.now → Plain state.new.words.now state.new.marks.now }
{
    let plan = keeper_judge::judge_expiry(&state.held(), mark)?;
    list_lost(state, plan.lost);
    move_base(state, plan.base);
    Ok(plan.lost.numbers)
}

// A number is confirmed: its record is marked as delivered to the handset.
pub fn confirm(state: &mut State<'_>, number: u32) -> Result<(), Refusal>
    ensures loans { SameLoans state.old state.new }
    ensures words_after { answered result (keeper_of state.new) ≡ «confirm_of» (keeper_of state.old) number }
    ensures unchanged { (e : Refusal) → result ≡ Err e → arrays_of state.new ≡ arrays_of state.old }
    ensures plain { Plain state.old.words.now state.old.marks.now → Plain state.new.words.now state.new.marks.now }
{
    let at = keeper_report::judge_confirm(&state.held(), number)?;
    state.marks[at] = 1;
    Ok(())
}

// A status frame at the front of dst: the first runs listed, and the highest PDCP number delivered in sequence. How many octets it has.
pub fn status(
    state: &mut State<'_>,
    desired: u32,
    minimum: u32,
    last: bool,
    dst: &mut [u8],
) -> Result<usize, Refusal>
    ensures loans { SameLoans state.old state.new }
    ensures dst_after { reported_as result (keeper_of state.new) dst.new ≡ «status_of» (keeper_of state.old) desired minimum last dst.old }
    ensures unchanged { (e : Refusal) → result ≡ Err e → arrays_of state.new ≡ arrays_of state.old }
    ensures plain { Plain state.old.words.now state.old.marks.now → Plain state.new.words.now state.new.marks.now }
{
    let held = state.held();
    let gone = keeper_report::judge_status(&held, last)?;
    let head = Head {
        long: circle::is_long(held.words.bits),
        last,
        highest: gone.highest,
        desired,
        minimum,
    };
    let octets = write_runs(head, &held, dst)?;
    drop_runs(state);
    drop_records(state, gone.count);
    report(state, gone.highest, last);
    Ok(octets)
}

// Anything to say: would a status now carry a range or let go of a record? What is held is only read.
pub fn anything(held: &Held<'_>) -> Result<bool, Refusal>
    ensures { answer_of (λ yes. yes) result ≡ «anything_of» (state_shown held.now) }
{
    if !held.words.is_open() {
        return Err(Refusal::Closed);
    }
    Ok(keeper_report::has_news(held))
}

// What the words say.
pub fn show(words: &WordArray) -> Shown
    ensures { result ≡ shown_in words.now }
{
    let words = Words::from(*words);
    Shown {
        base: words.base,
        reported: words.reported,
        closed: !words.is_open(),
        runs: words.listed(),
        records: words.held(),
    }
}

// ---- the words

// The words of a fresh end: the reported highest is the PDCP number before the first, forward from 1 to it.
fn fresh(bits: u32, number: u32, pdcp: u32) -> Words
    requires { is_length bits ≡ true }
    ensures { result ≡ fresh_words bits number pdcp }
{
    Words {
        bits,
        base: number,
        reported: circle::forward(1, pdcp, bits),
        opened: keeper_state::opened_word(false),
        runs: 0,
        records: 0,
    }
}

// Base moves.
fn move_base(state: &mut State<'_>, base: u32)
    ensures { Becomes state.old state.new (keeper_of state.old with_base base) }
{
    keeper_state::store_base(state.words, base);
}

// A status reports the highest, and the last one closes.
fn report(state: &mut State<'_>, highest: u32, last: bool)
    ensures { Becomes state.old state.new (keeper_of state.old with_reported highest with_closed last) }
{
    keeper_state::store_reported(state.words, highest, last);
}

// ---- runs

// Lists what is lost behind the runs that are listed. Inlined, as `keeper_judge::lost_below` is: every arrival comes here.
#[inline(always)]
fn list_lost(state: &mut State<'_>, lost: Losses)
    requires { Loses lost (keeper_of state.old) }
    ensures { Becomes state.old state.new (keeper_of state.old with_runs runs_after (keeper_of state.old) lost.limit) }
{
    // Nothing lies below base itself: the usual arrival ends here. A count past the end is stored as full.
    if lost.limit == 0 {
        keeper_state::store_runs(state.words, lost.runs as u32);
        return;
    }
    let words = state.held().words;
    let starts = &mut *state.starts;
    let ends = &mut *state.ends;
    let numbers = basics::front(state.numbers, words.held());
    list_runs(
        Point::from(words),
        numbers,
        lost,
        starts,
        ends,
        words.listed(),
    );
    keeper_state::store_runs(state.words, lost.runs as u32);
}

// Lists what is lost behind so many runs, where these numbers are held. Starts, ends and their count stand side by side, as C lends them.
fn list_runs(
    base: Point,
    numbers: &[u32],
    lost: Losses,
    starts: &mut RunArray,
    ends: &mut RunArray,
    listed: usize,
)
    requires { Losing lost (modulus base.long) base.at numbers.now (take listed (ranges_of starts.old ends.old)) × (listed ≤ most_runs) × (lost.runs ≤ most_runs) }
    ensures { take lost.runs (ranges_of starts.new ends.new)
        ≡ runs_joined (modulus base.long) (take listed (ranges_of starts.old ends.old)) (new_runs (modulus base.long) base.at numbers.now lost.limit) }
{
    let numbers = &numbers[lost.from..];
    if lost.joins {
        // The last listed run grows: it keeps its start.
        let last = listed - 1;
        let start = starts[last];
        base.list_gaps(numbers, lost.limit, &mut starts[last..], &mut ends[last..]);
        starts[last] = start;
        return;
    }
    base.list_gaps(
        numbers,
        lost.limit,
        &mut starts[listed..],
        &mut ends[listed..],
    );
}

// Takes the runs that a status carries off the front of those listed.
fn drop_runs(state: &mut State<'_>)
    ensures { Becomes state.old state.new (keeper_of state.old with_runs drop most_ranges (keeper_of state.old).runs) }
{
    let listed = state.held().words.listed();
    let carried = listed.min(frame_layout::MOST_RANGES);
    take_off(state.starts, listed, carried);
    take_off(state.ends, listed, carried);
    keeper_state::store_runs(state.words, (listed - carried) as u32);
}

// ---- records

// Puts a new record at a place among those held.
fn add_record(state: &mut State<'_>, place: usize, number: u32, pdcp: u32)
    requires { (place ≤ length (keeper_of state.old).records) × (length (keeper_of state.old).records < most_records) }
    ensures { Becomes state.old state.new (keeper_of state.old with_records records_with (keeper_of state.old).records place (new_record number pdcp)) }
{
    let held = state.held().words.held();
    put_in(state.numbers, held, place, number);
    put_in(state.pdcps, held, place, pdcp);
    put_in(state.marks, held, place, 0);
    keeper_state::store_records(state.words, held as u32 + 1);
}

// Takes records off the front of those held.
fn drop_records(state: &mut State<'_>, gone: usize)
    requires { gone ≤ length (keeper_of state.old).records }
    ensures { Becomes state.old state.new (keeper_of state.old with_records drop gone (keeper_of state.old).records) }
{
    let held = state.held().words.held();
    take_off(state.numbers, held, gone);
    take_off(state.pdcps, held, gone);
    take_off(state.marks, held, gone);
    keeper_state::store_records(state.words, (held - gone) as u32);
}

// ---- numbers at the front of an array, whose count is a word beside it, as C lends them

// Puts one at a place among those held.
fn put_in(a: &mut RecordArray, held: usize, place: usize, v: u32)
    requires { (place ≤ held) × (held < most_records) }
    ensures { take (held + 1) a.new ≡ take place (take held a.old) ++ v ∷ drop place (take held a.old) }
{
    keeper_shelf::insert(&mut a[..=held], place, v);
}

// Takes the first k off those held.
fn take_off<const N: usize>(a: &mut [u32; N], held: usize, k: usize)
    requires { (k ≤ held) × (held ≤ N) }
    ensures { take (held - k) a.new ≡ drop k (take held a.old) }
{
    keeper_shelf::drop_front(&mut a[..held], k);
}

// ---- the frame

// A status frame with the first runs of those listed.
fn write_runs(head: Head, held: &Held<'_>, dst: &mut [u8]) -> Result<usize, Refusal>
    ensures { left result dst.new ≡ «write_status_of» (status_with head (take most_ranges (state_shown held.now).runs)) dst.old }
{
    frame_writer::write_status(
        head,
        basics::front(held.starts, frame_layout::MOST_RANGES),
        basics::front(held.ends, frame_layout::MOST_RANGES),
        dst,
    )
}
