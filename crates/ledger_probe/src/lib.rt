// A rig for measuring the ledger, and no part of the product: a ledger holds enums, which can't cross to C, so the loops that are
// timed stand on this side. specs/Rig.antt says what each adds up to: an answer hangs on every answer inside, so that no call
// can be left out by the compiler.
#![tactic(auto)]

ghost use Rattle.std.specs.Prelude.{◌≡◌, ◌+◌, ◌%◌, ◌^◌, ◌<◌};
ghost use Rattle.ledger.specs.View.{ledger_in, sent_as, accepted_as};
ghost use Rattle.ledger_probe.specs.Rig.{worth, left, total, number, counts, filled as «filled_of», rounds, sends, accept_again, sends_behind, accepts, ask_room, rooms};

use ledger::{Accepted, Ledger};
use refusal::Refusal;

// How many packets fill a ledger.
const FULL: u32 = ledger_entries::MOST_ENTRIES as u32;

// How many packets are sent behind the entries that a ledger has.
const ROUND: u32 = 16;

// How many octets each packet has.
const OCTETS: u32 = 1500;

// Sends so many packets, each into a ledger that is not full: an empty one takes the place of a full one.
#[unsafe(no_mangle)]
pub extern "C" fn probe_ledger_send(bits: u32, turns: u32) -> u32
    ensures { result ≡ sends bits turns }
{
    send_rounds(&filled(bits, 0), 0, FULL, turns)
}

// Sends so many packets, 512 at most, accepts a frame, and then sends so many behind the entries that are left, 16 at a time: the
// ledger as the frame left it then takes the place of the one that they went into. A frame by which entries are lost has every such
// send go behind them.
#[unsafe(no_mangle)]
pub extern "C" fn probe_ledger_send_behind(bits: u32, entries: u32, turns: u32, frame: &[u8]) -> u32
    ensures { result ≡ sends_behind bits entries turns frame.now }
{
    let mut ledger = filled(bits, entries);
    let _sum = accept_turns(&mut ledger, 1, frame);
    send_rounds(&ledger, entries.min(FULL), ROUND, turns)
}

// Sends so many packets, 512 at most, and then accepts a frame so many times, each time on the ledger that the last one left: a
// refused frame leaves it as it was. With 0 turns it is what the sending costs.
#[unsafe(no_mangle)]
pub extern "C" fn probe_ledger_accept(bits: u32, entries: u32, turns: u32, frame: &[u8]) -> u32
    ensures { result ≡ accepts bits entries turns frame.now }
{
    let mut ledger = filled(bits, entries);
    let sum = accept_turns(&mut ledger, turns, frame);
    sum.wrapping_add(ledger.next)
}

// Sends so many packets, 512 at most, accepts a frame, and then asks so many times for room. What a turn asks hangs on what the one
// before it was answered, so that the compiler can neither leave a turn out nor do several at once.
#[unsafe(no_mangle)]
pub extern "C" fn probe_ledger_room(bits: u32, entries: u32, turns: u32, frame: &[u8]) -> u32
    ensures { result ≡ rooms bits entries turns frame.now }
{
    let mut ledger = filled(bits, entries);
    let _sum = accept_turns(&mut ledger, 1, frame);
    room_turns(&mut ledger, turns)
}

// Accepts a frame so many times: what was answered together. All who want a frame accepted call this, so that `accept` is called at
// one place and the compiler can take it into the loop.
fn accept_turns(ledger: &mut Ledger, turns: u32, frame: &[u8]) -> u32
    ensures { (ledger_in ledger.new ≡ left (accept_again frame.now) (ledger_in ledger.old) 0 turns)
        × (result ≡ total counts (accept_again frame.now) (ledger_in ledger.old) 0 turns % 2 ^ 32) }
{
    let mut sum: u32 = 0;
    for _turn in 0..turns {
        let answer = ledger.accept(frame);
        sum = add(sum, counted(answer));
    }
    sum
}

// Sends so many packets, a round of them from a PDCP number on, and each round into the ledger as it was before the first.
fn send_rounds(start: &Ledger, pdcp: u32, round: u32, turns: u32) -> u32
    requires { (0 < round) × (pdcp + round < 2 ^ 32) }
    ensures { result ≡ rounds pdcp round (ledger_in start.now) turns }
{
    let mut ledger = *start;
    let mut sum: u32 = 0;
    for turn in 0..turns {
        let at = turn % round;
        if at == 0 {
            ledger = *start;
        }
        let answer = ledger.send(pdcp + at, OCTETS);
        sum = add(sum, answer);
    }
    sum
}

// Asks so many times for room, each time with a desired size that is greater by 1, or by 2 after an odd answer.
fn room_turns(ledger: &mut Ledger, turns: u32) -> u32
    ensures { result ≡ total number ask_room (ledger_in ledger.old) 0 turns % 2 ^ 32 }
{
    let mut sum: u32 = 0;
    for _turn in 0..turns {
        let room = ledger.room();
        sum = sum.wrapping_add(room);
        ledger.desired = ledger.desired.wrapping_add(1 + room % 2);
    }
    sum
}

// A ledger with so many packets sent, 512 at most, from number 0 and PDCP number 0 on.
fn filled(bits: u32, entries: u32) -> Ledger
    ensures { ledger_in result ≡ «filled_of» bits entries }
{
    let mut ledger = Ledger::open(bits, 0, 0).unwrap_or(Ledger::closed());
    for i in 0..entries.min(FULL) {
        let _answer = ledger.send(i, OCTETS);
    }
    ledger
}

// What accepting answered, as one number: those freed and those lost.
fn counted(answer: Result<Accepted, Refusal>) -> Result<u32, Refusal>
    ensures { worth number (sent_as result) % 2 ^ 32 ≡ worth counts (accepted_as answer) % 2 ^ 32 }
{
    let accepted = answer?;
    Ok(accepted.freed.wrapping_add(accepted.lost))
}

// A sum with what was answered: a number, or a refusal, which takes its own away.
fn add(sum: u32, answer: Result<u32, Refusal>) -> u32
    ensures { result ≡ (sum + worth number (sent_as answer)) % 2 ^ 32 }
{
    match answer {
        Ok(n) => sum.wrapping_add(n),
        Err(refusal) => sum.wrapping_sub(u32::from(refusal)),
    }
}
