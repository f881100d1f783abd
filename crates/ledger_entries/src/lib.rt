// Packets that went out, in an array of entries, and the passes that the master's calls make over it. Entries stand in sending order
// from slot 0 on, as many as a count says; a count past the end is a full array. specs/View.antt says how they are read.
#![tactic(auto)]

ghost use Rattle.std.specs.Prelude.{◌≡◌, ◌≤◌, not, [], ◌∷◌, ◌++◌, ◌+◌, eqb, ltb, leb, length, map, take, drop, if◌then◌else◌};
ghost use Rattle.basics.specs.Basics.{◌or◌};
ghost use Rattle.bearer.specs.Bearer.{most_entries};
ghost use Rattle.bearer.specs.Ledger.{new_entry as «new_entry_of», waits as «waits_of», waiting_at, as_lost as «as_lost_of», waits_for, take_at, place_without as «place_without_of»};
ghost use Rattle.ledger_entries.specs.View.{entry_in, entries_of};
ghost use Rattle.ledger_entries.specs.Steps.{is_full, place_in, passed_of, free_while, Lowers};

use refusal::Refusal;

// How many entries are held at most (refusal 36).
pub const MOST_ENTRIES: usize = 512;

// What became of a packet that is still held.
#[derive(Clone, Copy, Debug, PartialEq, Eq)]
pub enum Fate {
    Waiting,
    Lost,
}

// A packet that went out: its two numbers, the PDU's size in octets, and its fate. A size has 16 bits, so that an entry has 12
// octets as it had without one: accepting a status copies all of them.
#[derive(Clone, Copy, Debug, PartialEq, Eq)]
pub struct Entry {
    pub number: u32,
    pub pdcp: u32,
    pub size: u16,
    pub fate: Fate,
}

impl Entry {
    // The entry of a send: it waits.
    pub fn new(number: u32, pdcp: u32, size: u16) -> Entry
        ensures { entry_in result ≡ «new_entry_of» number pdcp size tt }
    {
        Entry {
            number,
            pdcp,
            size,
            fate: Fate::Waiting,
        }
    }

    // The entry, lost.
    pub fn as_lost(self) -> Entry
        ensures { entry_in result ≡ «as_lost_of» (entry_in self) }
    {
        Entry {
            fate: Fate::Lost,
            ..self
        }
    }

    // Whether it waits.
    pub fn waits(self) -> bool
        ensures { result ≡ «waits_of» (entry_in self) }
    {
        self.fate == Fate::Waiting
    }

    // How much it has of what waits: a waiting one its size, a lost one nothing.
    pub fn waiting_size(self) -> u32
        ensures { result ≡ (if «waits_of» (entry_in self) then self.size else 0) }
    {
        if self.waits() {
            u32::from(self.size)
        } else {
            0
        }
    }
}

// The entries: those in the first slots, as many as the count says, and no more than there are slots. An array and a count, since
// there is no heap.
#[derive(Clone, Copy)]
pub struct Entries {
    pub slots: [Entry; MOST_ENTRIES],
    pub count: usize,
}

impl Entries {
    // No entries.
    pub fn none() -> Entries
        ensures { entries_of result ≡ [] }
    {
        Entries {
            slots: [Entry::new(0, 0, 0); MOST_ENTRIES],
            count: 0,
        }
    }

    // Those that are held.
    pub fn held(&self) -> &[Entry]
        ensures { map entry_in result.now ≡ entries_of self.now }
    {
        basics::front(&self.slots, self.count)
    }

    // One more behind them all: 36 where no slot is free.
    pub fn push(&mut self, entry: Entry) -> Result<(), Refusal>
        ensures { let es = entries_of self.old in
            (result ≡ (if is_full es then Err Refusal.Entries else Ok tt))
            × (entries_of self.new ≡ (if is_full es then es else es ++ (entry_in entry ∷ []))) }
    {
        if MOST_ENTRIES <= self.count {
            return Err(Refusal::Entries);
        }
        self.slots[self.count] = entry;
        self.count += 1;
        Ok(())
    }

    // Where the first waiting entry from a place on stands; for none, how many entries there are, or the place itself if it lies past
    // them. That is a number and no `None`: the master's machine has it as one, and goes on from it.
    pub fn waiting_from(&self, place: usize) -> usize
        ensures { result ≡ place + waiting_at (drop place (entries_of self.now)) }
    {
        let held = self.held();
        let behind = &held[place.min(held.len())..];
        place
            + behind
                .iter()
                .position(|e| e.waits())
                .unwrap_or(behind.len())
    }

    // Whether a status may bear this highest: the one last accepted again, or a waiting entry's.
    pub fn may_be_highest(&self, last: u32, highest: u32) -> bool
        ensures { result ≡ (eqb highest last or waits_for highest (entries_of self.now)) }
    {
        highest == last || self.held().iter().any(|e| e.waits() && e.pdcp == highest)
    }

    // Takes over the entries of others without those that are freed: every waiting one from the oldest through the one with this
    // highest; none where it is the one last accepted. A sum of waiting sizes is lowered by each size that goes. It answers how many.
    // The others are a marked copy, so what stays is written once; the library's `retain` is a Vec's, and the loop has its place by hand.
    pub fn free_through(
        &mut self,
        others: &Entries,
        octets: &mut u32,
        last: u32,
        highest: u32,
    ) -> u32
        ensures { (passed_of (entries_of self.new) result ≡ free_while (not (eqb highest last)) highest (entries_of others.now))
            × (self.new.count ≤ length (entries_of others.now))
            × Lowers octets.old (entries_of others.now) (entries_of self.new) octets.new }
    {
        let held = others.held();
        let mut going = highest != last;
        let mut kept: usize = 0;
        for entry in held {
            if going && entry.waits() {
                *octets = octets.saturating_sub(u32::from(entry.size));
                going = entry.pdcp != highest;
            } else {
                self.slots[kept] = *entry;
                kept += 1;
            }
        }
        self.count = kept;
        (held.len() - kept) as u32
    }

    // Where the oldest entry that may be taken stands, if there is one: a lost one, and any once the end is closed.
    pub fn to_take(&self, closed: bool) -> Option<usize>
        ensures { result ≡ place_in (entries_of self.now) (take_at closed (entries_of self.now)) }
    {
        self.held().iter().position(|e| closed || !e.waits())
    }

    // Takes out the entry at a place, if one stands there: those behind it move down by one.
    pub fn remove(&mut self, at: usize)
        ensures { entries_of self.new ≡ take at (entries_of self.old) ++ drop (at + 1) (entries_of self.old) }
    {
        let n = self.held().len();
        if at < n {
            self.slots.copy_within(at + 1..n, at);
            self.count = n - 1;
        }
    }
}

// The place of what stood at a place, when the entry at another left.
pub fn place_without(at: usize, place: usize) -> usize
    ensures { result ≡ «place_without_of» at place }
{
    if at < place { place - 1 } else { place }
}
