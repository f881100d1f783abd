// Writing X2-U frames of types 0 to 3 (TS 36.425 V15.0.0, 5.5) at the front of a buffer that the caller lends.
#![tactic(auto)]

ghost use Rattle.std.specs.Prelude.{◌≡◌, ◌∷◌, ◌++◌, ◌+◌, ◌*◌, ◌≤◌, ◌<◌, length, replicate};
ghost use Rattle.basics.specs.Basics.{all};
ghost use Rattle.frame_layout.specs.Octets.{octets};
ghost use Rattle.frame_layout.specs.Frames.{ranges_of, range_octets, list_octets, first_octet as «first_octet_of», in_form, most_ranges, most_octets, width, status_type, status_fields, write_data as «write_data_of», write_status as «write_status_of»};
ghost use Rattle.frame_layout.specs.Types.{number_of};
ghost use Rattle.basics.specs.Laid.{Room, Laid};
ghost use Rattle.frame_writer.specs.Answers.{left, head_status};
ghost use Rattle.frame_writer.specs.Lengths.{status_length as «status_length_of»};

use frame_layout::FrameType;
use refusal::Refusal;

// What a status says before its list.
#[derive(Clone, Copy, Debug, PartialEq, Eq)]
pub struct Head {
    pub long: bool,
    pub last: bool,
    pub highest: u32,
    pub desired: u32,
    pub minimum: u32,
}

// A data frame: type 0, or 3 in the long form; how many octets it has. Each form has its own call, so that its lengths are constants to
// the compiler: without it a frame takes 44 instructions for 23 (docs/DECISIONS.md).
pub fn write_data(long: bool, number: u32, dst: &mut [u8]) -> Result<usize, Refusal>
    ensures { left result dst.new ≡ «write_data_of» long number dst.old }
{
    if long {
        return write_data_in(true, number, dst);
    }
    write_data_in(false, number, dst)
}

// A data frame of either form, called with the form as a constant.
fn write_data_in(long: bool, number: u32, dst: &mut [u8]) -> Result<usize, Refusal>
    ensures { left result dst.new ≡ «write_data_of» long number dst.old }
{
    if circle::modulus(long) <= number {
        return Err(Refusal::Number);
    }
    let length = 1 + frame_layout::width(long);
    let zeros = frame_layout::padding(length);
    if dst.len() < length + zeros {
        return Err(Refusal::Room);
    }
    dst[0] = first_octet(frame_layout::data_type(long), false, false);
    let at = put_number(long, number, dst, 1);
    Ok(put_zeros(zeros, dst, at))
}

// A status frame: type 1, or 2 in the long form; how many octets it has. Range i is starts[i] to ends[i], as many as there are of both:
// two arrays, as C lends them.
pub fn write_status(
    head: Head,
    starts: &[u32],
    ends: &[u32],
    dst: &mut [u8],
) -> Result<usize, Refusal>
    ensures { left result dst.new ≡ «write_status_of» (head_status head (ranges_of starts.now ends.now)) dst.old }
{
    let long = head.long;
    if frame_layout::most_highest(long) < head.highest {
        return Err(Refusal::Highest);
    }
    let count = starts.len().min(ends.len());
    if frame_layout::MOST_RANGES < count {
        return Err(Refusal::Count);
    }
    if !all_in_form(long, starts, ends) {
        return Err(Refusal::Number);
    }
    let length = status_length(long, count);
    let zeros = frame_layout::padding(length);
    if dst.len() < length + zeros {
        return Err(Refusal::Room);
    }
    let at = put_status(head, starts, ends, dst);
    let end = put_zeros(zeros, dst, at);
    Ok(end)
}

// ---- lengths

// A status before its padding.
fn status_length(long: bool, count: usize) -> usize
    requires { count ≤ most_ranges }
    ensures { (result ≡ «status_length_of» long count) × (result < most_octets) }
{
    if count == 0 {
        return frame_layout::count_at(long);
    }
    frame_layout::list_end(long, count as u32)
}

// ---- the ranges

// Whether both ends of every range are numbers of the form.
fn all_in_form(long: bool, starts: &[u32], ends: &[u32]) -> bool
    ensures { result ≡ all (in_form long) (ranges_of starts.now ends.now) }
{
    let limit = circle::modulus(long);
    for (start, end) in starts.iter().zip(ends) {
        if limit <= *start || limit <= *end {
            return false;
        }
    }
    true
}

// ---- stores: each lays octets at a place, where there is room for them, and answers the place behind them. A struct of buffer and place
// would be no plainer: each store would have to say of it, too, that it keeps the loan.

// The first octet, its spare bits zero.
fn first_octet(kind: FrameType, last: bool, listed: bool) -> u8
    ensures { result ≡ «first_octet_of» (number_of kind) last listed }
{
    (u8::from(kind) << 4) | (u8::from(last) << 1) | u8::from(listed)
}

// A number's last N octets.
fn put<const N: usize>(number: u32, dst: &mut [u8], at: usize) -> usize
    requires { (N ≤ 4) × Room dst.old at N }
    ensures { Laid dst.old at (octets N number) result dst.new }
{
    dst[at..at + N].copy_from_slice(&number.to_be_bytes()[4 - N..]);
    at + N
}

// A number of a form.
fn put_number(long: bool, number: u32, dst: &mut [u8], at: usize) -> usize
    requires { Room dst.old at (width long) }
    ensures { Laid dst.old at (octets (width long) number) result dst.new }
{
    if long {
        put::<3>(number, dst, at)
    } else {
        put::<2>(number, dst, at)
    }
}

// A range: start and end.
fn put_range(long: bool, start: u32, end: u32, dst: &mut [u8], at: usize) -> usize
    requires { Room dst.old at (2 * width long) }
    ensures { Laid dst.old at (octets (width long) start ++ octets (width long) end) result dst.new }
{
    let at = put_number(long, start, dst, at);
    put_number(long, end, dst, at)
}

// All ranges.
fn put_ranges(long: bool, starts: &[u32], ends: &[u32], dst: &mut [u8], at: usize) -> usize
    requires { Room dst.old at (length (range_octets (width long) (ranges_of starts.now ends.now))) }
    ensures { Laid dst.old at (range_octets (width long) (ranges_of starts.now ends.now)) result dst.new }
{
    let mut at = at;
    for (start, end) in starts.iter().zip(ends) {
        at = put_range(long, *start, *end, dst, at);
    }
    at
}

// The count and the ranges, or nothing where there are none.
#[tactic(auto, using(frame_layout::proofs::Ranges::ranges_count))]
fn put_list(long: bool, starts: &[u32], ends: &[u32], dst: &mut [u8], at: usize) -> usize
    requires { (length (ranges_of starts.now ends.now) ≤ most_ranges) × Room dst.old at (length (list_octets (width long) (ranges_of starts.now ends.now))) }
    ensures { Laid dst.old at (list_octets (width long) (ranges_of starts.now ends.now)) result dst.new }
{
    let count = starts.len().min(ends.len());
    if count == 0 {
        return at;
    }
    dst[at] = count as u8;
    put_ranges(long, starts, ends, dst, at + 1)
}

// What stands before the list.
fn put_head(head: Head, listed: bool, dst: &mut [u8]) -> usize
    requires { Room dst.old 0 (9 + width head.long) }
    ensures { Laid dst.old 0
        («first_octet_of» (status_type head.long) head.last listed
        ∷ octets (width head.long) head.highest ++ octets 4 head.desired ++ octets 4 head.minimum)
        result dst.new }
{
    let long = head.long;
    dst[0] = first_octet(frame_layout::status_type(long), head.last, listed);
    let at = put_number(long, head.highest, dst, 1);
    let at = put::<4>(head.desired, dst, at);
    put::<4>(head.minimum, dst, at)
}

// All that stands before the padding.
#[tactic(auto, using(frame_layout::proofs::Ranges::ranges_count))]
fn put_status(head: Head, starts: &[u32], ends: &[u32], dst: &mut [u8]) -> usize
    requires { (length (ranges_of starts.now ends.now) ≤ most_ranges) × Room dst.old 0 (length (status_fields (head_status head (ranges_of starts.now ends.now)))) }
    ensures { Laid dst.old 0 (status_fields (head_status head (ranges_of starts.now ends.now))) result dst.new }
{
    let listed = !starts.is_empty() && !ends.is_empty();
    let at = put_head(head, listed, dst);
    put_list(head.long, starts, ends, dst, at)
}

// Up to three zero octets, written out: `fill` is a call of memset, and a status without a range took 13.9 ns with it for 12.2.
fn put_zeros(count: usize, dst: &mut [u8], at: usize) -> usize
    requires { (count ≤ 3) × Room dst.old at count }
    ensures { Laid dst.old at (replicate count 0) result dst.new }
{
    if count == 0 {
        return at;
    }
    dst[at] = 0;
    let at = at + 1;
    if count == 1 {
        return at;
    }
    dst[at] = 0;
    let at = at + 1;
    if count == 2 {
        return at;
    }
    dst[at] = 0;
    at + 1
}
