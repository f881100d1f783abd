// The master's ledger (MeNB end): open, send, accepting a status, take, room. A ledger is changed in place; its entries stand in
// sending order (the crate ledger_entries). specs/View.antt says how a state and the answers are read.
#![tactic(auto)]

ghost use Rattle.std.specs.Prelude.{◌≡◌, true};
ghost use Rattle.basics.specs.Basics.{◌and◌};
ghost use Rattle.circle.specs.Lengths.{is_long, length_in};
ghost use Rattle.bearer.specs.Ledger.{fresh as «fresh_of», open_ledger, is_size as «is_size_of», is_in_order as «is_in_order_of», past_last, is_within_half, send as «send_of», accept as «accept_of», take_oldest, marking, accept_status as «accept_status_of», accept_marked, raised, kept_room};
ghost use Rattle.frame_reader.specs.Answers.{cursor_of, head_status, Held};
ghost use Rattle.ledger.specs.View.{ledger_in, opened_as, judged_as, sent_as, accepted_as, taken_as, beside};
ghost use Rattle.ledger.specs.Steps.{judged};

use frame_reader::{Frame, Head};
use ledger_entries::Entries;
pub use ledger_entries::{Entry, Fate};
use refusal::Refusal;

// How many octets a PDU has at most (refusal 39).
const MOST_SIZE: u32 = 16384;

// How many the entries have together at most: 512 such PDUs.
const MOST_OCTETS: u32 = 8388608;

// The master's end: the entries, L, the next X2-U number, the highest last accepted, the last PDCP number sent, whether it is
// closed, both sizes of the last status, the sizes of all waiting entries added up, and where the oldest waiting entry stands
// (behind all where none waits: a number and no Option, since the machine has one, and any number is a state).
#[derive(Clone, Copy)]
pub struct Ledger {
    pub entries: Entries,
    pub bits: u32,
    pub next: u32,
    pub highest: u32,
    pub sent: u32,
    pub closed: bool,
    pub desired: u32,
    pub minimum: u32,
    pub octets: u32,
    pub oldest: usize,
}

// What accepting a status answers: how many were freed, how many became lost, and Final.
#[derive(Clone, Copy, Debug, PartialEq, Eq)]
pub struct Accepted {
    pub freed: u32,
    pub lost: u32,
    pub last: bool,
}

// What a take answers: the two numbers and the size of what was taken.
#[derive(Clone, Copy, Debug, PartialEq, Eq)]
pub struct Taken {
    pub number: u32,
    pub pdcp: u32,
    pub size: u32,
}

// ---- send

// Whether a PDU's size is within its limits.
fn is_size(size: u32) -> bool
    ensures { result ≡ «is_size_of» size }
{
    (1..=MOST_SIZE).contains(&size)
}

// A sum of waiting sizes with one more. It stops at the most that entries have together, so that it can't overflow, whatever the sum was.
fn raise(octets: u32, size: u32) -> u32
    ensures { result ≡ raised octets size }
{
    octets.saturating_add(size).min(MOST_OCTETS)
}

impl Ledger {
    // ---- open

    // An end with no entries.
    fn fresh(bits: u32, next: u32, highest: u32, closed: bool) -> Ledger
        ensures { ledger_in result ≡ «fresh_of» (length_in bits) next highest closed }
    {
        Ledger {
            entries: Entries::none(),
            bits,
            next,
            highest,
            sent: highest,
            closed,
            desired: 0,
            minimum: 0,
            octets: 0,
            oldest: 0,
        }
    }

    // An end that is closed and empty: what stands where an open was refused.
    pub fn closed() -> Ledger
        ensures { ledger_in result ≡ «fresh_of» 18 0 0 true }
    {
        Ledger::fresh(18, 0, 0, true)
    }

    // Open: 7, 10, or a fresh end.
    pub fn open(bits: u32, first: u32, pdcp: u32) -> Result<Ledger, Refusal>
        ensures { opened_as result ≡ open_ledger bits first pdcp }
    {
        if !circle::is_length(bits) {
            return Err(Refusal::PdcpLength);
        }
        let most = circle::pdcps(bits);
        if circle::modulus(circle::is_long(bits)) <= first || most <= pdcp {
            return Err(Refusal::Number);
        }
        let before = (pdcp + (most - 1)) % most;
        Ok(Ledger::fresh(bits, first, before, false))
    }

    // ---- send

    // Whether a PDCP number follows, seen from that of the oldest waiting entry: past the last sent, and less than half the PDCP
    // numbers past the oldest.
    fn follows(&self, oldest: u32, pdcp: u32) -> bool
        ensures { let l = ledger_in self.now in result ≡ (past_last l oldest pdcp and is_within_half l oldest pdcp) }
    {
        let length = circle::length_in(self.bits);
        let to_sent = circle::forward(oldest, self.sent, length);
        let to_pdcp = circle::forward(oldest, pdcp, length);
        to_sent < to_pdcp && to_pdcp < circle::pdcps(self.bits) / 2
    }

    // Whether a PDCP number is in order: it isn't the highest, and follows the oldest waiting entry, if one waits.
    fn is_in_order(&self, pdcp: u32) -> bool
        ensures { result ≡ «is_in_order_of» (ledger_in self.now) pdcp }
    {
        if pdcp == self.highest {
            return false;
        }
        match self.entries.held().get(self.oldest) {
            Some(entry) => self.follows(entry.pdcp, pdcp),
            None => true,
        }
    }

    // What is judged of a send before there is room for it: 9, 10, 39, 35.
    fn judge(&self, pdcp: u32, size: u32) -> Result<(), Refusal>
        ensures { judged_as result ≡ judged (ledger_in self.now) pdcp size }
    {
        if self.closed {
            return Err(Refusal::Closed);
        }
        if circle::pdcps(self.bits) <= pdcp {
            return Err(Refusal::Number);
        }
        if !is_size(size) {
            return Err(Refusal::Size);
        }
        if !self.is_in_order(pdcp) {
            return Err(Refusal::PdcpOrder);
        }
        Ok(())
    }

    // Send of a PDU by its PDCP number and its size: 9, 10, 39, 35, 36, or the X2-U number given out. 35 is for the highest, and with
    // an entry waiting for a number that doesn't follow the oldest such.
    pub fn send(&mut self, pdcp: u32, size: u32) -> Result<u32, Refusal>
        ensures { beside (sent_as result) (ledger_in self.new) ≡ «send_of» (ledger_in self.old) pdcp size tt }
    {
        self.judge(pdcp, size)?;
        let number = self.next;
        self.entries.push(Entry::new(number, pdcp, size as u16))?;
        self.next = circle::onward(number, 1, circle::is_long(self.bits));
        self.sent = pdcp;
        self.octets = raise(self.octets, size);
        Ok(number)
    }

    // ---- accepting a status

    // The ranges and the highest of a status of the bearer's form: 33, 34, or the counts. The ranges are applied to a copy of the
    // entries, so that a refusal leaves them. Frame and head both come, since a view has no head.
    fn apply(&mut self, frame: &[u8], head: Head) -> Result<Accepted, Refusal>
        requires { Held frame.now (cursor_of head) × (head.long ≡ is_long (length_in self.old.bits)) }
        ensures { let l = ledger_in self.old in let status = head_status frame.now head in
            beside (accepted_as result) (ledger_in self.new) ≡ accept_marked l status (marking l status) }
    {
        let first = frame_reader::first_range(head);
        let marked = ledger_marks::mark(&self.entries, self.octets, frame, first)?;
        if !marked.entries.may_be_highest(self.highest, head.highest) {
            return Err(Refusal::NoSuchHighest);
        }
        let mut octets = marked.octets;
        let freed = self
            .entries
            .free_through(&marked.entries, &mut octets, self.highest, head.highest);
        self.oldest = self.entries.waiting_from(self.oldest);
        self.octets = octets;
        self.highest = head.highest;
        self.closed = head.last;
        self.desired = head.desired;
        self.minimum = head.minimum;
        Ok(Accepted {
            freed,
            lost: marked.lost,
            last: head.last,
        })
    }

    // A status of either form: 31, 32, and then its ranges and its highest.
    fn accept_status(&mut self, frame: &[u8], head: Head) -> Result<Accepted, Refusal>
        requires { Held frame.now (cursor_of head) }
        ensures { beside (accepted_as result) (ledger_in self.new) ≡ «accept_status_of» (ledger_in self.old) (head_status frame.now head) }
    {
        if head.long != circle::is_long(self.bits) {
            return Err(Refusal::OtherType);
        }
        if circle::pdcps(self.bits) <= head.highest {
            return Err(Refusal::HighestBits);
        }
        self.apply(frame, head)
    }

    // Accepting any octets: 9, 1 to 6, 31, 32, 33, 34, or the counts.
    pub fn accept(&mut self, frame: &[u8]) -> Result<Accepted, Refusal>
        ensures { beside (accepted_as result) (ledger_in self.new) ≡ «accept_of» (ledger_in self.old) frame.now }
    {
        if self.closed {
            return Err(Refusal::Closed);
        }
        match frame_reader::read(frame) {
            Frame::Data { .. } => Err(Refusal::OtherType),
            Frame::Status(head) => self.accept_status(frame, head),
            Frame::Refused(refusal) => Err(refusal),
        }
    }

    // ---- take

    // Take: 38, or the two numbers and the size of the oldest entry that may go.
    pub fn take(&mut self) -> Result<Taken, Refusal>
        ensures { beside (taken_as result) (ledger_in self.new) ≡ take_oldest (ledger_in self.old) }
    {
        let at = self.entries.to_take(self.closed).ok_or(Refusal::Nothing)?;
        let entry = self.entries.slots[at];
        self.entries.remove(at);
        let from = ledger_entries::place_without(at, self.oldest);
        self.oldest = self.entries.waiting_from(from);
        self.octets = self.octets.saturating_sub(entry.waiting_size());
        Ok(Taken {
            number: entry.number,
            pdcp: entry.pdcp,
            size: u32::from(entry.size),
        })
    }

    // ---- room

    // Room: the desired size of the last accepted status less the sizes of all waiting entries; 0 where that would be negative or no
    // status has come. A closed end answers it too. It looks at the sum that is kept, and at no entry.
    pub fn room(&self) -> u32
        ensures { result ≡ kept_room (ledger_in self.now) }
    {
        self.desired.saturating_sub(self.octets)
    }
}
