// The lines that answer calls, each laid on an output that has room for any line, and else not at all. A line ends within the
// output: none is cut.
#![tactic(auto)]

ghost use Rattle.std.specs.Prelude.{◌≡◌, [], ◌∷◌, ◌+◌, ◌*◌, ◌/◌, ◌%◌, ◌<◌, length, take};
ghost use Rattle.lister_text.specs.Texts.{tab, parted};
ghost use Rattle.replay_parts.specs.Parts.{Puts};
ghost use Rattle.replay_states.specs.Lines.{line_with, most_fields, Said};
ghost use Rattle.replay_answers.specs.Answers.{answer_fields, answer_by, hex_digit as «hex_digit_of», hex_text, frame_fields, most_frame};

use lister_text::Output;
use refusal::Refusal;

const MOST_FRAME: usize = 2048; // of a frame's octets in a line: all that a status is given room for

// An answer of one or a few numbers: it is what a line prints, so a refusal is one of them, and `Result<Answer, Refusal>` becomes it.
#[derive(Drop)]
pub enum Answer {
    Ok,
    Unopened,
    Unreadable,
    Lost(u32),
    Sent(u32),
    Freed { freed: u32, lost: u32, last: bool },
    Taken { number: u32, pdcp: u32, size: u32 },
    Room(u32),
    // Any number, as the line has it: a Refusal would ask more of callers than the line's definition does.
    Refused(u32),
}

// What a call answers, if it isn't refused.
impl From<Result<Answer, Refusal>> for Answer {
    ghost from_gives = { λ said answer. answer ≡ answer_by said };

    fn from(said: Result<Answer, Refusal>) -> Answer {
        match said {
            Ok(answer) => answer,
            Err(refusal) => Answer::Refused(u32::from(refusal)),
        }
    }
}

// ---- the answers of one or a few numbers

// What accepting a status counted.
fn put_freed(freed: u32, lost: u32, last: bool, out: &mut Output<'_>)
    ensures { Puts out.old (parted tab (answer_fields (Answer.Freed freed lost last))) out.new 49 }
{
    replay_parts::put_named(b"freed", &[freed], out);
    replay_parts::put_named(b"\tlost", &[lost], out);
    replay_parts::put_named(b"\tfinal", &[u32::from(last)], out);
}

// The fields of an answer.
fn put_answer(answer: Answer, out: &mut Output<'_>)
    ensures { Puts out.old (parted tab (answer_fields answer)) out.new most_fields }
{
    match answer {
        Answer::Ok => out.text(b"ok"),
        Answer::Unopened => out.text(b"unopened"),
        Answer::Unreadable => out.text(b"unreadable"),
        Answer::Lost(n) => replay_parts::put_named(b"lost", &[n], out),
        Answer::Sent(n) => replay_parts::put_named(b"sent", &[n], out),
        Answer::Freed { freed, lost, last } => put_freed(freed, lost, last, out),
        Answer::Taken { number, pdcp, size } => replay_parts::put_named(
            b"taken",
            &[number, pdcp, size],
            out,
        ),
        Answer::Room(n) => replay_parts::put_named(b"room", &[n], out),
        Answer::Refused(n) => replay_parts::put_named(b"refused", &[n], out),
    }
}

// ---- a frame

// The digit of a number below 16. By hand: `char::from_digit` answers an Option of a char, to be unwrapped and cast back, no plainer.
fn hex_digit(n: u8) -> u8
    requires { n < 16 }
    ensures { result ≡ «hex_digit_of» n }
{
    if n < 10 { b'0' + n } else { b'a' + (n - 10) }
}

// An octet in lower-case hexadecimal.
fn put_hex(octet: u8, out: &mut Output<'_>)
    ensures { Puts out.old (hex_text (octet ∷ [])) out.new 2 }
{
    out.octet(hex_digit(octet / 16));
    out.octet(hex_digit(octet % 16));
}

// Octets in lower-case hexadecimal.
fn put_octets(octets: &[u8], out: &mut Output<'_>)
    ensures { Puts out.old (hex_text octets.now) out.new (length octets.now * 2) }
{
    for octet in octets {
        put_hex(*octet, out);
    }
}

// The fields of a frame.
fn put_frame(frame: &[u8], out: &mut Output<'_>)
    ensures { Puts out.old (parted tab (frame_fields frame.now)) out.new (6 + length frame.now * 2) }
{
    out.text(b"frame\t");
    put_octets(frame, out);
}

// ---- lines

// The line of an answer.
pub fn lay_answer(answer: Answer, out: &mut Output<'_>)
    ensures { Said out.old (line_with (answer_fields answer)) out.new }
{
    if replay_states::has_room(out) {
        put_answer(answer, out);
        replay_parts::put_end(out);
    }
}

// The line of a frame: no more than 2,048 octets of it.
pub fn lay_frame(frame: &[u8], out: &mut Output<'_>)
    ensures { Said out.old (line_with (frame_fields (take most_frame frame.now))) out.new }
{
    if replay_states::has_room(out) {
        put_frame(basics::front(frame, MOST_FRAME), out);
        replay_parts::put_end(out);
    }
}
