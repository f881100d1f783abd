// Reading X2-U frames of types 0 to 3 (TS 36.425 V15.0.0, 5.5). Nothing is copied: a status's ranges are
// reached one after another over the caller's frame.
#![tactic(auto)]

ghost use Rattle.std.specs.Prelude.{◌≡◌, ◌↔◌, ◌+◌, ◌*◌, ◌/◌, ◌%◌, ◌≤◌, IsTrue, length};
ghost use Rattle.std.proofs.lemmas.List.Edits.{sets};
ghost use Rattle.frame_layout.specs.Octets.{field};
ghost use Rattle.frame_layout.specs.Frames.{width, least_octets, starts_of, ends_of, bad_length as «bad_length_of», read_status as «read_status_of», read_type as «read_type_of», read_frame};
ghost use Rattle.frame_reader.specs.Answers.{reading_of, cursor_of, next_in, there, range_in};

pub use frame_layout::Range;
use refusal::Refusal;

// The most ranges that a status carries, as counts are.
const MOST_RANGES: u32 = frame_layout::MOST_RANGES as u32;

// What a status says before its list, and how many ranges the list has: the writer's head has no count, since it counts the list itself.
#[derive(Clone, Copy, Debug, PartialEq, Eq)]
pub struct Head {
    pub long: bool,
    pub last: bool,
    pub highest: u32,
    pub desired: u32,
    pub minimum: u32,
    pub count: u32,
}

// What was read: document 01 names these three kinds of answer, so a refusal is one of them and no Err.
#[derive(Clone, Copy, Debug, PartialEq, Eq)]
pub enum Frame {
    Data { long: bool, number: u32 },
    Status(Head),
    Refused(Refusal),
}

// A place in a status's list: where the next range stands, and how many are left.
#[derive(Clone, Copy, Debug, PartialEq, Eq)]
pub struct Cursor {
    pub long: bool,
    pub place: usize,
    pub left: u32,
}

// A range, and the cursor behind it.
#[derive(Clone, Copy, Debug, PartialEq, Eq)]
pub struct Step {
    pub range: Range,
    pub rest: Cursor,
}

// ---- numbers out of octets

// The number in N octets from place i on.
fn join<const N: usize>(frame: &[u8], i: usize) -> u32
    requires { (N ≤ 4) × (i + N ≤ length frame.now) }
    ensures { result ≡ field frame.now i N }
{
    let mut octets = [0; 4];
    octets[4 - N..].copy_from_slice(&frame[i..i + N]);
    u32::from_be_bytes(octets)
}

// The number of a form from place i on.
fn number_at(frame: &[u8], i: usize, long: bool) -> u32
    requires { i + width long ≤ length frame.now }
    ensures { result ≡ field frame.now i (width long) }
{
    if long {
        join::<3>(frame, i)
    } else {
        join::<2>(frame, i)
    }
}

// The range of a form from a place on.
fn range_at(frame: &[u8], place: usize, long: bool) -> Range
    requires { place + 2 * width long ≤ length frame.now }
    ensures { result ≡ range_in frame.now place (width long) }
{
    Range {
        start: number_at(frame, place, long),
        end: number_at(frame, place + frame_layout::width(long), long),
    }
}

// ---- the first octet, whose spare bits are never looked at

// The type, in bits 7 to 4.
fn type_in(first: u8) -> u8
    ensures { result ≡ first / 16 }
{
    first >> 4
}

// Final, in bit 1.
fn final_in(first: u8) -> bool
    ensures { IsTrue result ↔ (first / 2 % 2 ≡ 1) }
{
    (first >> 1) & 1 == 1
}

// Whether there is a list, in bit 0.
fn listed_in(first: u8) -> bool
    ensures { IsTrue result ↔ (first % 2 ≡ 1) }
{
    first & 1 == 1
}

// ---- reading

// Whether no frame has this length.
fn bad_length(n: usize) -> bool
    ensures { result ≡ «bad_length_of» n }
{
    !(frame_layout::LEAST_OCTETS..=frame_layout::MOST_OCTETS).contains(&n) || n % 4 != 2
}

// Types 1 and 2, of a length that a frame has.
fn read_status(frame: &[u8], long: bool) -> Frame
    requires { least_octets ≤ length frame.now }
    ensures { reading_of frame.now result ≡ «read_status_of» long frame.now }
{
    let listed = listed_in(frame[0]);
    let count_at = frame_layout::count_at(long);
    if frame.len() < count_at + usize::from(listed) {
        return Frame::Refused(Refusal::FixedPart);
    }
    let highest = number_at(frame, 1, long);
    if frame_layout::most_highest(long) < highest {
        return Frame::Refused(Refusal::Highest);
    }
    let count = if listed {
        u32::from(frame[count_at])
    } else {
        0
    };
    if listed && !(1..=MOST_RANGES).contains(&count) {
        return Frame::Refused(Refusal::Count);
    }
    if listed && frame.len() < frame_layout::list_end(long, count) {
        return Frame::Refused(Refusal::List);
    }
    let sizes = 1 + frame_layout::width(long);
    Frame::Status(Head {
        long,
        last: final_in(frame[0]),
        highest,
        desired: join::<4>(frame, sizes),
        minimum: join::<4>(frame, sizes + 4),
        count,
    })
}

// By the type, octets of a length that a frame has.
fn read_type(frame: &[u8], kind: u8) -> Frame
    requires { least_octets ≤ length frame.now }
    ensures { reading_of frame.now result ≡ «read_type_of» kind frame.now }
{
    match kind {
        0 => Frame::Data {
            long: false,
            number: number_at(frame, 1, false),
        },
        // One arm and so one caller, which keeps the speed of reading (docs/PERFORMANCE.md).
        1..=2 => read_status(frame, kind == 2),
        3 => Frame::Data {
            long: true,
            number: number_at(frame, 1, true),
        },
        4..=15 => Frame::Refused(Refusal::Reserved),
        // Four bits hold no more than 15.
        _ => Frame::Refused(Refusal::Reserved),
    }
}

// Reads any octets.
pub fn read(frame: &[u8]) -> Frame
    ensures { reading_of frame.now result ≡ read_frame frame.now }
{
    if bad_length(frame.len()) {
        return Frame::Refused(Refusal::Length);
    }
    read_type(frame, type_in(frame[0]))
}

// ---- the walk over a status's ranges

// The cursor before a status's first range.
pub fn first_range(head: Head) -> Cursor
    ensures { result ≡ cursor_of head }
{
    Cursor {
        long: head.long,
        place: frame_layout::list_at(head.long),
        left: head.count,
    }
}

// The range at a cursor and the cursor behind it, or that none is left.
pub fn next_range(frame: &[u8], at: Cursor) -> Option<Step>
    ensures { result ≡ next_in frame.now at }
{
    let size = 2 * frame_layout::width(at.long);
    // A place may be any number, so a range is taken off the length and not added to the place.
    let last = frame.len().checked_sub(size)?;
    if at.left == 0 || last < at.place {
        return None;
    }
    Some(Step {
        range: range_at(frame, at.place, at.long),
        rest: Cursor {
            place: at.place + size,
            left: at.left - 1,
            ..at
        },
    })
}

// ---- all of a status's ranges at once

// Puts the ranges from a cursor on at the front of starts and ends, whose other places stay as they were: all of them, where the
// frame holds them all and they are no more than a frame carries, and otherwise none. Two arrays, as C lends them.
pub fn put_ranges(
    frame: &[u8],
    at: Cursor,
    starts: &mut frame_layout::RangeArray,
    ends: &mut frame_layout::RangeArray,
)
    ensures { (starts.new ≡ sets starts.old 0 (starts_of (there frame.now at)))
        × (ends.new ≡ sets ends.old 0 (ends_of (there frame.now at))) }
{
    let size = 2 * frame_layout::width(at.long);
    let count = at.left as usize;
    // As in next_range, the place may be any number.
    let Some(last) = frame.len().checked_sub(count * size) else {
        return;
    };
    if MOST_RANGES < at.left || last < at.place {
        return;
    }
    // An index, since it says where in the frame a range stands and where in both arrays it goes: no walk over all three would be plainer.
    for i in 0..count {
        let range = range_at(frame, at.place + i * size, at.long);
        starts[i] = range.start;
        ends[i] = range.end;
    }
}
