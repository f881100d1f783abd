// The lister's answer to a line (document 01, its last section): the line in hexadecimal is a frame, and the answer is a line of
// its fields.
#![tactic(auto)]

ghost use Rattle.std.specs.Prelude.{◌≡◌, ◌-◌, length};
ghost use Rattle.frame_layout.specs.Frames.{data_of, refuse, read_frame};
ghost use Rattle.frame_layout.specs.Types.{range_of};
ghost use Rattle.frame_reader.specs.Answers.{reading_of, cursor_of, Held};
ghost use Rattle.frame_reader.specs.declared.Frame.TheVariants.{Status};
ghost use Rattle.frame_view.specs.Views.{ahead_of};
ghost use Rattle.refusal.specs.Numbers.{number_of};
ghost use Rattle.lister_text.specs.Texts.{range_text, ranges_text};
ghost use Rattle.lister_text.specs.Outputs.{Lays, Puts};
ghost use Rattle.lister_answers.specs.Answers.{answer_to, roomy, answer_in, frame_in};
ghost use Rattle.lister_answers.specs.Parts.{marked, tabbed};

use frame_layout::FrameArray;
use frame_reader::{Frame, Head, Range};
use frame_view::{View, view_of};
use lister_text::{COMMA, DASH, LINE_FEED, Output, TAB};
use refusal::Refusal;

pub const MOST_TEXT: usize = 4096; // no answer is longer

// ---- parts: each is laid where there is room for it

// A number in decimal with a mark behind it.
fn put_marked(n: u32, mark: u8, out: &mut Output<'_>)
    ensures { Puts out.old (marked n mark) out.new }
{
    out.decimal(n);
    out.octet(mark);
}

// Numbers in decimal, each with a tab behind it.
fn put_fields(numbers: &[u32], out: &mut Output<'_>)
    ensures { Puts out.old (tabbed numbers.now) out.new }
{
    for &n in numbers {
        put_marked(n, TAB, out);
    }
}

// A range: start-end.
fn put_range(range: Range, out: &mut Output<'_>)
    ensures { Puts out.old (range_text (range_of range)) out.new }
{
    put_marked(range.start, DASH, out);
    out.decimal(range.end);
}

// The ranges of a view joined by commas, or `none`.
fn put_ranges(ranges: View<'_>, out: &mut Output<'_>)
    ensures { Puts out.old (ranges_text (ahead_of ranges.entry)) out.new }
{
    let mut ranges = ranges;
    let Some(first) = ranges.next() else {
        out.text(b"none");
        return;
    };
    put_range(first, out);
    for range in ranges {
        out.octet(COMMA);
        put_range(range, out);
    }
}

// ---- answers

// A data frame: type, number.
fn put_data(long: bool, number: u32, out: &mut Output<'_>)
    ensures { Puts out.old (answer_to (data_of long number)) out.new }
{
    put_marked(u32::from(u8::from(frame_layout::data_type(long))), TAB, out);
    put_marked(number, LINE_FEED, out);
}

// A status: type, highest, desired, minimum, Final, ranges.
fn put_status(frame: &[u8], head: Head, out: &mut Output<'_>)
    requires { Held frame.now (cursor_of head) }
    ensures { Puts out.old (answer_to (reading_of frame.now (Status head))) out.new }
{
    let fields = [
        u32::from(u8::from(frame_layout::status_type(head.long))),
        head.highest,
        head.desired,
        head.minimum,
        u32::from(head.last),
    ];
    put_fields(&fields, out);
    put_ranges(view_of(frame, head), out);
    out.octet(LINE_FEED);
}

// A refusal: `refused`, number.
fn put_refused(refusal: Refusal, out: &mut Output<'_>)
    ensures { Puts out.old (answer_to (refuse (number_of refusal))) out.new }
{
    out.text(b"refused\t");
    put_marked(u32::from(refusal), LINE_FEED, out);
}

// What a frame is read as.
fn put_frame(frame: &[u8], out: &mut Output<'_>)
    ensures { Puts out.old (answer_to (read_frame frame.now)) out.new }
{
    match frame_reader::read(frame) {
        Frame::Data { long, number } => put_data(long, number, out),
        Frame::Status(head) => put_status(frame, head, out),
        Frame::Refused(refusal) => put_refused(refusal, out),
    }
}

// Whether an output has room for any answer.
pub fn has_room(out: &Output<'_>) -> bool
    ensures { result ≡ roomy (length out.now.octets.now - out.now.at) }
{
    out.fits(MOST_TEXT)
}

// The answer to a line, on an output with room for any. Without the room nothing changes.
pub fn answer(line: &[u8], frame: &mut FrameArray, out: &mut Output<'_>)
    ensures laid { Lays out.old (answer_in (length out.old.octets.now - out.old.at) line.now) out.new }
    ensures frame_after { frame.new ≡ frame_in (length out.old.octets.now - out.old.at) line.now frame.old }
{
    if !has_room(out) {
        return;
    }
    match lister_text::decode(line, frame) {
        Some(n) => put_frame(basics::front(frame, n), out),
        None => out.text(b"unreadable\n"),
    }
}
