// The C boundary of the secondary's loss keeper, and of reading a frame range by range: one function a call, on numbers, slices
// and arrays of numbers. An answer from 0 on is document 01's, one below 0 is minus the number of a refusal. A flag or a form is
// a number, 0 or not 0, since a `bool` that C made is undefined where its octet is neither 0 nor 1. include/x2u.h has C's side.
// The crate c_calls_c exports the calls to C under the same names. Those on whole frames are c_frames', an object of their own: the
// compiler makes one of a function and its caller where it has one caller in the object, and no answer of reader and writer then
// passes through memory.
#![tactic(auto)]

ghost use Rattle.std.specs.Prelude.{◌≡◌, ℕ, ◌^◌, ◌<◌, ◌≤◌, min, ℤ, pos, negsuc, Some, None, if◌then◌else◌};
ghost use Rattle.basics.specs.Basics.{bit, is_set};
ghost use Rattle.frame_layout.specs.Frames.{read_frame};
ghost use Rattle.frame_layout.specs.Types.{number_of};
ghost use Rattle.refusal.specs.Numbers.{answer_of};
ghost use Rattle.bearer.specs.Keeper.{open_keeper, arrive, expire, confirm, status, anything};
ghost use Rattle.keeper.specs.View.{keeper_in, opens_into, arrays};
ghost use Rattle.keeper.specs.Plain.{Plain};
ghost use Rattle.c_calls.specs.Boundary.{counts, settles, reports, tells, most_answer, minus, leaves, said, fields_of, reads, cursor_in as «cursor_in_of», words_of as «words_of_of», begins, step_in, steps};
ghost use Rattle.c_calls.specs.Looks.{kind_of, is_status as «is_status_of», first_of, before_first as «before_first_of», answer_to};

use frame_layout::FrameType;
use frame_reader::{Cursor, Frame};
use keeper::State;
use keeper_state::Held;
use refusal::Refusal;

pub const RANGES: usize = 5; // where the count of ranges stands among a frame's fields

const NO_TYPE: u32 = 4; // the kind of a refusal, past every type

// What C lends for a frame's fields (number, highest, desired, minimum, final, ranges), for a cursor, and for a range, by place (include/x2u.h).
pub type FieldArray = [u32; 6];

pub type CursorArray = [u32; 3];

pub type EndArray = [u32; 2];

// ---- reading

// Reads a frame into its fields: its type, or the refusal. The one place that calls the reader.
pub fn look(frame: &[u8], fields: &mut FieldArray) -> Result<FrameType, Refusal>
    ensures { (answer_of number_of result ≡ kind_of (read_frame frame.now)) × (fields.new ≡ fields_of fields.old (read_frame frame.now)) }
{
    match frame_reader::read(frame) {
        Frame::Data { long, number } => {
            *fields = [number, 0, 0, 0, 0, 0];
            Ok(frame_layout::data_type(long))
        }
        Frame::Status(head) => {
            *fields = [
                0,
                head.highest,
                head.desired,
                head.minimum,
                u32::from(head.last),
                head.count,
            ];
            Ok(frame_layout::status_type(head.long))
        }
        Frame::Refused(refusal) => Err(refusal),
    }
}

// Whether the type of this number is a status's.
pub fn is_status(kind: u32) -> bool
    ensures { result ≡ «is_status_of» kind }
{
    kind == 1 || kind == 2
}

// The cursor before the first of so many ranges of a status, of the type of this number.
pub fn first_of(kind: u32, count: u32) -> Cursor
    ensures { (result ≡ first_of kind count) × (result.place ≤ 13) }
{
    let long = kind == 2;
    Cursor {
        long,
        place: frame_layout::list_at(long),
        left: count,
    }
}

// The same for the number of any type: none where it is no status's.
fn first_if_status(kind: u32, count: u32) -> Option<Cursor>
    ensures { result ≡ (if «is_status_of» kind then Some (first_of kind count) else None) }
{
    if is_status(kind) {
        return Some(first_of(kind, count));
    }
    None
}

// The cursor before the first of so many ranges of a frame of this type, if it is a status. Each type has its own call, so that its
// number is a constant to the compiler: with one call for them all, reading a frame takes up to 9 instructions more.
pub fn before_first(kind: FrameType, count: u32) -> Option<Cursor>
    ensures { result ≡ «before_first_of» kind count }
{
    match kind {
        FrameType::Data => first_if_status(FrameType::Data as u32, count),
        FrameType::Status => first_if_status(FrameType::Status as u32, count),
        FrameType::LongStatus => first_if_status(FrameType::LongStatus as u32, count),
        FrameType::LongData => first_if_status(FrameType::LongData as u32, count),
    }
}

// Reads a frame: its type, 0 to 3. The fields are the X2-U number of data, and of a status the highest PDCP number, the desired
// size, the minimum size, Final as 0 or 1, and how many ranges, each in a place of its own; a field that the frame hasn't is 0.
pub fn x2u_read(frame: &[u8], fields: &mut FieldArray) -> i64
    ensures { leaves result fields.new ≡ reads fields.old (read_frame frame.now) }
{
    answer(look(frame, fields))
}

// Puts a cursor before the first range of a frame: how many ranges it has, which for data is none.
pub fn x2u_first_range(frame: &[u8], cursor: &mut CursorArray) -> i64
    ensures { leaves result cursor.new ≡ begins cursor.old (read_frame frame.now) }
{
    let mut fields = [0; 6];
    let seen = look(frame, &mut fields);
    let Ok(kind) = seen else {
        return answer(seen);
    };
    *cursor = match before_first(kind, fields[RANGES]) {
        Some(at) => words_of(at),
        None => [0; 3],
    };
    i64::from(fields[RANGES])
}

// Takes the range at a cursor: 1, or 0 where none is left.
pub fn x2u_next_range(frame: &[u8], cursor: &mut CursorArray, range: &mut EndArray) -> i64
    ensures { leaves result (cursor.new, range.new)
        ≡ steps cursor.old range.old (step_in frame.now («cursor_in_of» cursor.old)) }
{
    if frame_layout::MOST_OCTETS < frame.len() {
        return 0;
    }
    let Some(step) = frame_reader::next_range(frame, cursor_in(cursor)) else {
        return 0;
    };
    *cursor = words_of(step.rest);
    *range = [step.range.start, step.range.end];
    1
}

// ---- the keeper, whose state is six lent arrays: C lends each, so each is a parameter, and each call puts them together

// Opens the end: 0.
pub fn x2u_keeper_open(
    numbers: &mut keeper::RecordArray,
    pdcps: &mut keeper::RecordArray,
    marks: &mut keeper::RecordArray,
    starts: &mut keeper::RunArray,
    ends: &mut keeper::RunArray,
    words: &mut keeper::WordArray,
    length: u32,
    number: u32,
    pdcp: u32,
) -> i64
    ensures words_after { leaves result (keeper_in numbers.new pdcps.new marks.new starts.new ends.new words.new)
        ≡ settles (opens_into (keeper_in numbers.old pdcps.old marks.old starts.old ends.old words.old) (open_keeper length number pdcp)) }
    ensures unchanged { (n : ℕ) → result ≡ negsuc n → arrays numbers.new pdcps.new marks.new starts.new ends.new words.new
        ≡ arrays numbers.old pdcps.old marks.old starts.old ends.old words.old }
    ensures plain { (n : ℕ) → result ≡ pos n → Plain words.new marks.new }
{
    let mut state = State {
        numbers,
        pdcps,
        marks,
        starts,
        ends,
        words,
    };
    answer(keeper::open(&mut state, length, number, pdcp))
}

// Arrival of a number and a PDCP number: how many numbers became lost.
pub fn x2u_keeper_arrive(
    numbers: &mut keeper::RecordArray,
    pdcps: &mut keeper::RecordArray,
    marks: &mut keeper::RecordArray,
    starts: &mut keeper::RunArray,
    ends: &mut keeper::RunArray,
    words: &mut keeper::WordArray,
    number: u32,
    pdcp: u32,
) -> i64
    ensures words_after { leaves result (keeper_in numbers.new pdcps.new marks.new starts.new ends.new words.new)
        ≡ counts (arrive (keeper_in numbers.old pdcps.old marks.old starts.old ends.old words.old) number pdcp) }
    ensures unchanged { (n : ℕ) → result ≡ negsuc n → arrays numbers.new pdcps.new marks.new starts.new ends.new words.new
        ≡ arrays numbers.old pdcps.old marks.old starts.old ends.old words.old }
    ensures plain { Plain words.old marks.old → Plain words.new marks.new }
{
    let mut state = State {
        numbers,
        pdcps,
        marks,
        starts,
        ends,
        words,
    };
    answer(keeper::arrive(&mut state, number, pdcp))
}

// Expiry of what is open before a mark: how many numbers became lost.
pub fn x2u_keeper_expire(
    numbers: &mut keeper::RecordArray,
    pdcps: &mut keeper::RecordArray,
    marks: &mut keeper::RecordArray,
    starts: &mut keeper::RunArray,
    ends: &mut keeper::RunArray,
    words: &mut keeper::WordArray,
    mark: u32,
) -> i64
    ensures words_after { leaves result (keeper_in numbers.new pdcps.new marks.new starts.new ends.new words.new)
        ≡ counts (expire (keeper_in numbers.old pdcps.old marks.old starts.old ends.old words.old) mark) }
    ensures unchanged { (n : ℕ) → result ≡ negsuc n → arrays numbers.new pdcps.new marks.new starts.new ends.new words.new
        ≡ arrays numbers.old pdcps.old marks.old starts.old ends.old words.old }
    ensures plain { Plain words.old marks.old → Plain words.new marks.new }
{
    let mut state = State {
        numbers,
        pdcps,
        marks,
        starts,
        ends,
        words,
    };
    answer(keeper::expire(&mut state, mark))
}

// A number is confirmed: 0.
pub fn x2u_keeper_confirm(
    numbers: &mut keeper::RecordArray,
    pdcps: &mut keeper::RecordArray,
    marks: &mut keeper::RecordArray,
    starts: &mut keeper::RunArray,
    ends: &mut keeper::RunArray,
    words: &mut keeper::WordArray,
    number: u32,
) -> i64
    ensures words_after { leaves result (keeper_in numbers.new pdcps.new marks.new starts.new ends.new words.new)
        ≡ settles (confirm (keeper_in numbers.old pdcps.old marks.old starts.old ends.old words.old) number) }
    ensures unchanged { (n : ℕ) → result ≡ negsuc n → arrays numbers.new pdcps.new marks.new starts.new ends.new words.new
        ≡ arrays numbers.old pdcps.old marks.old starts.old ends.old words.old }
    ensures plain { Plain words.old marks.old → Plain words.new marks.new }
{
    let mut state = State {
        numbers,
        pdcps,
        marks,
        starts,
        ends,
        words,
    };
    answer(keeper::confirm(&mut state, number))
}

// A status frame at the front of a buffer: how many octets it has.
pub fn x2u_keeper_status(
    numbers: &mut keeper::RecordArray,
    pdcps: &mut keeper::RecordArray,
    marks: &mut keeper::RecordArray,
    starts: &mut keeper::RunArray,
    ends: &mut keeper::RunArray,
    words: &mut keeper::WordArray,
    desired: u32,
    minimum: u32,
    last: u32,
    dst: &mut [u8],
) -> i64
    ensures dst_after { leaves result ((keeper_in numbers.new pdcps.new marks.new starts.new ends.new words.new), dst.new)
        ≡ reports (status (keeper_in numbers.old pdcps.old marks.old starts.old ends.old words.old) desired minimum (is_set last) dst.old) }
    ensures unchanged { (n : ℕ) → result ≡ negsuc n → arrays numbers.new pdcps.new marks.new starts.new ends.new words.new
        ≡ arrays numbers.old pdcps.old marks.old starts.old ends.old words.old }
    ensures plain { Plain words.old marks.old → Plain words.new marks.new }
{
    let mut state = State {
        numbers,
        pdcps,
        marks,
        starts,
        ends,
        words,
    };
    answer(keeper::status(&mut state, desired, minimum, basics::is_set(last), dst))
}

// Anything to say: 1 for yes, 0 for no. C lends the arrays to be read alone.
pub fn x2u_keeper_anything(
    numbers: &keeper::RecordArray,
    pdcps: &keeper::RecordArray,
    marks: &keeper::RecordArray,
    starts: &keeper::RunArray,
    ends: &keeper::RunArray,
    words: &keeper::WordArray,
) -> i64
    ensures { result ≡ tells (anything (keeper_in numbers.now pdcps.now marks.now starts.now ends.now words.now)) }
{
    answer(keeper::anything(&Held::of(numbers, pdcps, marks, starts, ends, words)))
}

// ---- answers

// What a call answers where it isn't refused: a number from 0 on.
pub trait Value {
    ghost number: { Self → ℕ };

    fn number(self) -> i64
        ensures { result ≡ pos (number self) };
}

// A frame type's number.
impl Value for FrameType {
    ghost number = { number_of };

    fn number(self) -> i64 {
        i64::from(u8::from(self))
    }
}

// A count is itself.
impl Value for u32 {
    ghost number = { λ n. n };

    fn number(self) -> i64 {
        i64::from(self)
    }
}

// Nothing to say is 0.
impl Value for () {
    ghost number = { λ u. 0 };

    fn number(self) -> i64 {
        0
    }
}

// Yes is 1 and no is 0.
impl Value for bool {
    ghost number = { bit };

    fn number(self) -> i64 {
        i64::from(self)
    }
}

// A frame's length, no more than an answer holds.
impl Value for usize {
    ghost number = { λ n. min n most_answer };

    fn number(self) -> i64 {
        octets(self)
    }
}

// A frame's length, as an answer: no more than an answer holds.
pub fn octets(n: usize) -> i64
    ensures { result ≡ pos (min n most_answer) }
{
    i64::try_from(n).unwrap_or(i64::MAX)
}

// A refusal n is answered as minus n.
pub fn refused(n: u32) -> i64
    ensures { result ≡ minus n }
{
    -i64::from(n)
}

// What a call tells, which one number answers.
pub trait Told {
    ghost answer: { Self → ℤ };

    fn answer(self) -> i64
        ensures { result ≡ answer self };
}

// A result's value by its number, a refusal by minus its number.
impl<T: Value> Told for Result<T, Refusal> {
    ghost answer = { said T.number };

    fn answer(self) -> i64 {
        match self {
            Ok(value) => value.number(),
            Err(refusal) => refused(u32::from(refusal)),
        }
    }
}

// What a look tells, as numbers: a type, 0 to 3, or 4 and the number of a refusal.
#[derive(Drop)]
pub struct Seen {
    pub kind: u32,
    pub refusal: u32,
}

// A type by itself, a refusal by minus its number.
impl Told for Seen {
    ghost answer = { λ seen. answer_to seen.kind seen.refusal };

    fn answer(self) -> i64 {
        if self.kind < NO_TYPE {
            return i64::from(self.kind);
        }
        refused(self.refusal)
    }
}

// The answer to what a call tells.
pub fn answer<T: Told>(told: T) -> i64
    ensures { result ≡ T.answer told }
{
    told.answer()
}

// ---- words

// The words that say a cursor, whose place is one within a frame.
fn words_of(at: Cursor) -> CursorArray
    requires { at.place < 2 ^ 32 }
    ensures { result ≡ «words_of_of» at }
{
    [u32::from(at.long), at.place as u32, at.left]
}

// The cursor as it stands.
fn cursor_in(cursor: &CursorArray) -> Cursor
    ensures { result ≡ «cursor_in_of» cursor.now }
{
    Cursor {
        long: basics::is_set(cursor[0]),
        place: cursor[1] as usize,
        left: cursor[2],
    }
}
