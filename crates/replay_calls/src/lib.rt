// A line of a script taken apart: one call a line, its fields parted by tabs.
#![tactic(auto)]

ghost use Rattle.std.specs.Prelude.{◌≡◌, ◌≤◌, length, drop, Some, IfSome};
ghost use Rattle.replay_calls.specs.Calls.{first_field, tabbed_fields, digit_in, number_of, numbers_of, few, held_in, status_call, call_with, accept_of, call_by, read_call as «read_call_of», decoded_behind, frame_by, frame_after};

use frame_layout::FrameArray;

pub const MOST_ROOM: usize = 2048; // of a buffer that is lent to a status

const MOST_DIGITS: usize = 10; // of a number

const MOST_NUMBERS: usize = 4; // of a call

// An open of both ends: L, the first X2-U number and the first PDCP number.
#[derive(Drop)]
pub struct OpenCall {
    pub bits: u32,
    pub first: u32,
    pub pdcp: u32,
}

// A status: both sizes, Final, and how much room its frame is given.
#[derive(Drop)]
pub struct StatusCall {
    pub desired: u32,
    pub minimum: u32,
    pub last: bool,
    pub room: usize,
}

// A call on the secondary.
#[derive(Drop)]
pub enum KeeperCall {
    Arrive { number: u32, pdcp: u32 },
    Expire(u32),
    Confirm(u32),
    Status(StatusCall),
    Show,
}

// A call on the master. The octets of the frame to accept stand in a buffer beside it: `read_call` says what it leaves there, and a slice here
// would lend the buffer for as long as the call.
#[derive(Drop)]
pub enum LedgerCall {
    Send { pdcp: u32, size: u32 },
    Accept(usize),
    Take,
    Room,
    Show,
}

// What a line says: an open of both ends, or a call on one of them.
#[derive(Drop)]
pub enum Call {
    Open(OpenCall),
    Keeper(KeeperCall),
    Ledger(LedgerCall),
}

// ---- a line taken apart

// The field at the front of octets, up to the first tab or to their end, and what stands behind it.
fn first_parted(octets: &[u8]) -> (&[u8], &[u8])
    ensures field { result.0.now ≡ first_field octets.now }
    ensures behind { result.1.now ≡ drop (length (first_field octets.now)) octets.now }
{
    let end = octets
        .iter()
        .position(|c| *c == lister_text::TAB)
        .unwrap_or(octets.len());
    octets.split_at(end)
}

// The value of a decimal digit.
fn digit(c: u8) -> Option<u32>
    ensures { result ≡ digit_in c }
{
    char::from(c).to_digit(10)
}

// The number that a field of 1 to 10 decimal digits says, unless it is above 4294967295. (std's parse would take a sign too.)
fn number_in(field: &[u8]) -> Option<u32>
    ensures { result ≡ number_of field.now }
{
    if field.is_empty() || MOST_DIGITS < field.len() {
        return None;
    }
    let mut value: u32 = 0;
    for c in field {
        value = value.checked_mul(10)?.checked_add(digit(*c)?)?;
    }
    Some(value)
}

// The numbers in fields that each have a tab before them, laid at the front of values, and how many they are, unless one is no
// number or there are more than 4.
fn numbers_in(fields: &[u8], values: &mut [u32; MOST_NUMBERS]) -> Option<usize>
    ensures read { held_in result values.new ≡ few (numbers_of (tabbed_fields fields.now)) }
    ensures within { IfSome result (λ count. count ≤ 4) }
{
    // An array and a count, filled by hand: there is no heap, and slice patterns need the numbers in a row.
    let mut count = 0;
    let mut rest = fields;
    while let [_, field @ ..] = rest {
        let (digits, behind) = first_parted(field);
        let number = number_in(digits)?;
        if count == MOST_NUMBERS {
            return None;
        }
        values[count] = number;
        count += 1;
        rest = behind;
    }
    Some(count)
}

// ---- calls

// A status's sizes, Final and room, of which Final is at most 1 and the room at most 2048.
fn status_of(desired: u32, minimum: u32, last: u32, room: u32) -> Option<Call>
    ensures { result ≡ status_call desired minimum last room }
{
    let room = room as usize;
    if 1 < last || MOST_ROOM < room {
        return None;
    }
    let last = last == 1;
    Some(Call::Keeper(KeeperCall::Status(StatusCall {
        desired,
        minimum,
        last,
        room,
    })))
}

// A call by its word and its numbers.
fn numbered_call(word: &[u8], numbers: &[u32]) -> Option<Call>
    ensures { result ≡ call_with word.now (Some numbers.now) }
{
    match numbers {
        [] if word == b"take".as_slice() => Some(Call::Ledger(LedgerCall::Take)),
        [] if word == b"room".as_slice() => Some(Call::Ledger(LedgerCall::Room)),
        [] if word == b"keeper".as_slice() => Some(Call::Keeper(KeeperCall::Show)),
        [] if word == b"ledger".as_slice() => Some(Call::Ledger(LedgerCall::Show)),
        [number] if word == b"expire".as_slice() => Some(Call::Keeper(KeeperCall::Expire(*number))),
        [number] if word == b"confirm".as_slice() => Some(Call::Keeper(KeeperCall::Confirm(
            *number,
        ))),
        [a, b] if word == b"arrive".as_slice() => Some(Call::Keeper(KeeperCall::Arrive {
            number: *a,
            pdcp: *b,
        })),
        [a, b] if word == b"send".as_slice() => Some(Call::Ledger(LedgerCall::Send {
            pdcp: *a,
            size: *b,
        })),
        [bits, first, pdcp] if word == b"open".as_slice() => Some(Call::Open(OpenCall {
            bits: *bits,
            first: *first,
            pdcp: *pdcp,
        })),
        [desired, minimum, last, room] if word == b"status".as_slice() => status_of(
            *desired, *minimum, *last, *room,
        ),
        _ => None,
    }
}

// The frame to accept, in the one field that has a tab before it. A tab is no digit.
fn accept_call(fields: &[u8], frame: &mut FrameArray) -> Option<Call>
    ensures call { result ≡ accept_of (tabbed_fields fields.now) }
    ensures decoded { frame.new ≡ decoded_behind fields.now frame.old }
{
    let [_, field @ ..] = fields else {
        return None;
    };
    let octets = lister_text::decode(field, frame)?;
    Some(Call::Ledger(LedgerCall::Accept(octets)))
}

// The call that a word and the fields behind it, each with a tab before it, say.
fn call_of(word: &[u8], fields: &[u8], frame: &mut FrameArray) -> Option<Call>
    ensures call { result ≡ call_by word.now (tabbed_fields fields.now) }
    ensures decoded { frame.new ≡ frame_by word.now fields.now frame.old }
{
    if word == b"accept".as_slice() {
        return accept_call(fields, frame);
    }
    let mut values = [0u32; MOST_NUMBERS];
    let count = numbers_in(fields, &mut values)?;
    numbered_call(word, &values[..count])
}

// Reads a line: its word, and the fields behind it.
pub fn read_call(line: &[u8], frame: &mut FrameArray) -> Option<Call>
    ensures call { result ≡ «read_call_of» line.now }
    ensures decoded { frame.new ≡ frame_after line.now frame.old }
{
    let (word, fields) = first_parted(line);
    call_of(word, fields, frame)
}
