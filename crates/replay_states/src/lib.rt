// An end as it stands, in a line that is laid on an output that has room for any line, and else not at all. A line ends within the
// output: none is cut. No line is longer than the secondary's, so what room any takes is said here.
#![tactic(auto)]

ghost use Rattle.std.specs.Prelude.{◌≡◌, ℕ, List, ◌∷◌, map, ◌+◌, ◌*◌, leb, length};
ghost use Rattle.std.specs.Iterator.{IsFinite};
ghost use Rattle.std.proofs.lemmas.Iterator.{YieldsList};
ghost use Rattle.lister_text.specs.Texts.{tab, parted, range_text, ranges_text, joined};
ghost use Rattle.frame_layout.specs.Frames.{ranges_of};
ghost use Rattle.frame_layout.specs.Types.{range_of};
ghost use Rattle.keeper_state.specs.State.{records_of};
ghost use Rattle.ledger_entries.specs.View.{entry_in};
ghost use Rattle.ledger.specs.View.{ledger_in};
ghost use Rattle.replay_parts.specs.Parts.{Puts};
ghost use Rattle.replay_states.specs.Lines.{line_with, most_text, most_fields, Said};
ghost use Rattle.replay_states.specs.States.{packet_text, record_text, held_text, entry_text, keeper_listed, keeper_fields, ledger_fields};

use frame_layout::Range;
use keeper_state::{Held, MOST_RECORDS, MOST_RUNS};
use ledger::Ledger;
use ledger_entries::{Entry, Fate};
use lister_text::{COMMA, DASH, Output, TAB};

const COLON: u8 = b':';

pub const MOST_TEXT: usize = 18432; // no line is longer

// ---- runs, records, entries

// What is listed in a field: each with a mark before it.
trait Listed {
    ghost text: { Self → List ℕ };

    ghost most: { ℕ };

    fn put(self, mark: u8, out: &mut Output<'_>)
        ensures { Puts out.old (mark ∷ text self) out.new most };
}

// A listed run is start-end.
impl Listed for Range {
    ghost text = { λ r. range_text (range_of r) };

    ghost most = { 22 };

    fn put(self, mark: u8, out: &mut Output<'_>) {
        replay_parts::put_behind(mark, self.start, out);
        replay_parts::put_behind(DASH, self.end, out);
    }
}

// A packet: number:pdcp:kind, with a mark before it.
fn put_packet(mark: u8, number: u32, pdcp: u32, kind: u8, out: &mut Output<'_>)
    ensures { Puts out.old (mark ∷ packet_text number pdcp kind) out.new 24 }
{
    replay_parts::put_behind(mark, number, out);
    replay_parts::put_behind(COLON, pdcp, out);
    out.octet(COLON);
    out.octet(kind);
}

// A held record, with its mark of confirmation.
#[derive(Clone, Copy)]
struct Record {
    number: u32,
    pdcp: u32,
    mark: u32,
}

// It is a packet, whose kind says whether it is confirmed.
impl Listed for Record {
    ghost text = { held_text };

    ghost most = { 24 };

    fn put(self, mark: u8, out: &mut Output<'_>) {
        let kind = if basics::is_set(self.mark) {
            b'1'
        } else {
            b'0'
        };
        put_packet(mark, self.number, self.pdcp, kind, out);
    }
}

// An entry is a packet, whose kind says whether it waits, and its size.
impl Listed for Entry {
    ghost text = { λ e. entry_text (entry_in e) };

    ghost most = { 35 };

    fn put(self, mark: u8, out: &mut Output<'_>) {
        let kind = match self.fate {
            Fate::Waiting => b'w',
            Fate::Lost => b'l',
        };
        put_packet(mark, self.number, self.pdcp, kind, out);
        replay_parts::put_behind(COLON, u32::from(self.size), out);
    }
}

// The field of what is listed, with a tab before it: joined by commas, or `none`.
fn put_listed<T: Listed, I: Iterator<Item = T>>(items: I, out: &mut Output<'_>)
    requires can { I.can_next items }
    requires finite { IsFinite (I.remaining items) }
    ensures loan { out.new.octets.ghost_name ≡ out.old.octets.ghost_name }
    ensures puts { (xs : List T) → YieldsList I.next_gives (λ x. x) items xs → Puts out.old (tab ∷ joined (map T.text xs)) out.new (5 + length xs * T.most) }
{
    // The mark also says whether nothing was listed: a first item taken out ahead would be put at a place of its own, no plainer.
    let mut mark = TAB;
    for item in items {
        item.put(mark, out);
        mark = COMMA;
    }
    if mark == TAB {
        out.text(b"\tnone");
    }
}

// ---- the fields of an end

// The field of the listed runs.
fn put_runs(starts: &[u32], ends: &[u32], out: &mut Output<'_>)
    ensures { Puts out.old (tab ∷ ranges_text (ranges_of starts.now ends.now)) out.new (5 + length starts.now * 22) }
{
    let runs = starts.iter().zip(ends);
    put_listed(
        runs.map(|(start, end)| Range {
            start: *start,
            end: *end,
        }),
        out,
    );
}

// The field of the held records.
fn put_records(numbers: &[u32], pdcps: &[u32], marks: &[u32], out: &mut Output<'_>)
    ensures { Puts out.old (tab ∷ joined (map record_text (records_of numbers.now pdcps.now marks.now))) out.new (5 + length numbers.now * 24) }
{
    let records = numbers.iter().zip(pdcps).zip(marks);
    put_listed(
        records.map(|((number, pdcp), mark)| Record {
            number: *number,
            pdcp: *pdcp,
            mark: *mark,
        }),
        out,
    );
}

// The fields of the secondary.
fn put_keeper(held: &Held<'_>, out: &mut Output<'_>)
    ensures { Puts out.old (parted tab (keeper_fields (keeper_listed held.now))) out.new most_fields }
{
    // As keeper::show reads them: that takes their array, which a Held doesn't have.
    let words = held.words;
    let closed = u32::from(!words.is_open());
    replay_parts::put_named(b"keeper", &[words.base, words.reported, closed], out);
    put_runs(basics::front(held.starts, MOST_RUNS), held.ends, out);
    let numbers = basics::front(held.numbers, MOST_RECORDS);
    put_records(numbers, held.pdcps, held.marks, out);
}

// The fields of the master.
fn put_ledger(ledger: &Ledger, out: &mut Output<'_>)
    ensures { Puts out.old (parted tab (ledger_fields (ledger_in ledger.now))) out.new most_fields }
{
    let numbers = [
        ledger.next,
        ledger.highest,
        ledger.sent,
        u32::from(ledger.closed),
        ledger.desired,
        ledger.minimum,
        ledger.octets,
    ];
    replay_parts::put_named(b"ledger", &numbers, out);
    put_listed(ledger.entries.held().iter().copied(), out);
}

// ---- lines

// Whether an output has room for any line.
pub fn has_room(out: &Output<'_>) -> bool
    ensures { result ≡ leb (out.now.at + most_text) (length out.now.octets.now) }
{
    out.fits(MOST_TEXT)
}

// The line of the secondary as it stands, of as many runs and records as its arrays have: longer lists count as full.
pub fn lay_keeper(held: &Held<'_>, out: &mut Output<'_>)
    ensures { Said out.old (line_with (keeper_fields (keeper_listed held.now))) out.new }
{
    if has_room(out) {
        put_keeper(held, out);
        replay_parts::put_end(out);
    }
}

// The line of the master as it stands.
pub fn lay_ledger(ledger: &Ledger, out: &mut Output<'_>)
    ensures { Said out.old (line_with (ledger_fields (ledger_in ledger.now))) out.new }
{
    if has_room(out) {
        put_ledger(ledger, out);
        replay_parts::put_end(out);
    }
}
