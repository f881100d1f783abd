// What a confirm and a status on the secondary's end answer and change, judged before anything is changed, and whether a status would have
// anything to say. The state is lent to be read (the crate keeper_state). specs/Reports.antt says what a judgement means.
#![tactic(auto)]

ghost use Rattle.std.specs.Prelude.{◌≡◌, List, length, take_while};
ghost use Rattle.std.specs.List.{zip};
ghost use Rattle.basics.specs.Basics.{is_set};
ghost use Rattle.circle.specs.Lengths.{modulus};
ghost use Rattle.frame_layout.specs.Frames.{Range};
ghost use Rattle.bearer.specs.Losses.{goes_before};
ghost use Rattle.bearer.specs.Keeper.{news, ◌with_runs◌};
ghost use Rattle.keeper_state.specs.Lent.{state_shown};
ghost use Rattle.keeper_report.specs.Reports.{JudgesConfirm, JudgesStatus, goes};

use frame_layout::MOST_RANGES;
use keeper_loss::Point;
use keeper_state::Held;
use refusal::Refusal;

// How many records a status lets go, and the highest PDCP number that it reports.
#[derive(Clone, Copy, Debug, PartialEq, Eq)]
pub struct Gone {
    pub count: usize,
    pub highest: u32,
}

// ---- the calls

// Confirm of a number: 9, 10, 16, or where its record stands. Runs are not looked at.
pub fn judge_confirm(held: &Held<'_>, number: u32) -> Result<usize, Refusal>
    ensures { (runs : List Range) → JudgesConfirm result (state_shown held.now with_runs runs) number }
{
    let words = held.words;
    if !words.is_open() {
        return Err(Refusal::Closed);
    }
    let base = Point::from(words);
    if circle::modulus(base.long) <= number {
        return Err(Refusal::Number);
    }
    let Some(at) = keeper_loss::index_of(held.numbers, number) else {
        return Err(Refusal::NoRecord);
    };
    if !base.is_before(number) || basics::is_set(held.marks[at]) {
        return Err(Refusal::NoRecord);
    }
    Ok(at)
}

// Status: 9, 22, or what it lets go and the highest that it reports.
pub fn judge_status(held: &Held<'_>, last: bool) -> Result<Gone, Refusal>
    ensures { JudgesStatus result (state_shown held.now) last }
{
    if !held.words.is_open() {
        return Err(Refusal::Closed);
    }
    if last && MOST_RANGES < held.starts.len() {
        return Err(Refusal::FinalRuns);
    }
    let long = circle::is_long(held.words.bits);
    let left_out = &held.starts[MOST_RANGES.min(held.starts.len())..];
    let count = going(held.numbers, held.marks, left_out, long);
    let highest = held.pdcps[..count]
        .last()
        .copied()
        .unwrap_or(held.words.reported);
    Ok(Gone { count, highest })
}

// Whether a status now would have anything to say: by the first run, or the first record if no run is listed. Nothing else is looked at.
pub fn has_news(held: &Held<'_>) -> bool
    ensures { result ≡ let k = state_shown held.now in news k.runs k.records }
{
    !held.starts.is_empty() || held.marks.first().is_some_and(|mark| basics::is_set(*mark))
}

// ---- status

// How many records a status lets go: those at the front that may go, one after another. Where no run is left out their marks alone say it.
fn going(numbers: &[u32], marks: &[u32], left_out: &[u32], long: bool) -> usize
    requires { length marks.now ≡ length numbers.now }
    ensures { result ≡ length (take_while (goes (modulus long) left_out.now) (zip numbers.now marks.now)) }
{
    if left_out.is_empty() {
        return marked(marks);
    }
    numbers
        .iter()
        .zip(marks)
        .take_while(|&(&number, &mark)| may_go(left_out, long, number, mark))
        .count()
}

// How many marks at the front are set, one after another.
fn marked(marks: &[u32]) -> usize
    ensures { result ≡ length (take_while is_set marks.now) }
{
    marks
        .iter()
        .take_while(|&&mark| basics::is_set(mark))
        .count()
}

// Whether a record may go, by the starts of the runs left out.
fn may_go(left_out: &[u32], long: bool, number: u32, mark: u32) -> bool
    ensures { result ≡ goes_before (modulus long) left_out.now number (is_set mark) }
{
    basics::is_set(mark)
        && left_out
            .first()
            .is_none_or(|&start| Point { at: start, long }.is_before(number))
}
