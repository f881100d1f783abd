// How a state of the secondary's end is held: words by name, and lent arrays of records in sending order (number, PDCP number, mark of
// confirmation) and of listed runs (start, end). specs/State.antt says how they are read.
#![tactic(auto)]

ghost use Rattle.std.specs.Prelude.{◌≡◌, ◌≤◌, length, take};
ghost use Rattle.keeper_state.specs.State.{is_open as «is_open_of», opened_word as «opened_word_of», ◌saying_base◌, ◌saying_reported◌, ◌saying_opened◌, ◌saying_runs◌, ◌saying_records◌, held_in, listed_in, words_in, words_of, HeldSizes, ListedSizes, arrays, keeper_in};

pub const MOST_RUNS: usize = 256;

pub const MOST_RECORDS: usize = 512;

// How many words there are, and where those stand that calls change.
const WORDS: usize = 6;

const BASE: usize = 1;

const REPORTED: usize = 2;

const OPENED: usize = 3;

const RUNS: usize = 4;

const RECORDS: usize = 5;

// The lent arrays: a number of each record, one of each listed run, and the words.
pub type RecordArray = [u32; MOST_RECORDS];

pub type RunArray = [u32; MOST_RUNS];

pub type WordArray = [u32; WORDS];

// The word by which an end is open: the letters "open".
const OPEN: u32 = 0x6f70656e;

// The words: L, base, the reported highest, whether the end is open, how many runs are listed and how many records held.
#[derive(Clone, Copy, Debug, PartialEq, Eq)]
pub struct Words {
    pub bits: u32,
    pub base: u32,
    pub reported: u32,
    pub opened: u32,
    pub runs: u32,
    pub records: u32,
}

impl Words {
    // Whether they say that the end is open: by any word but one it is closed, by 0 among them.
    pub fn is_open(self) -> bool
        ensures { result ≡ «is_open_of» self.opened }
    {
        self.opened == OPEN
    }

    // How many records are held: a count past the end counts as full.
    pub fn held(self) -> usize
        ensures { result ≡ held_in self }
    {
        MOST_RECORDS.min(self.records as usize)
    }

    // How many runs are listed: a count past the end counts as full.
    pub fn listed(self) -> usize
        ensures { result ≡ listed_in self }
    {
        MOST_RUNS.min(self.runs as usize)
    }
}

// The words as they stand in their array.
impl From<WordArray> for Words {
    ghost from_gives = { λ array words. words ≡ words_in array };

    fn from(array: WordArray) -> Words {
        let [bits, base, reported, opened, runs, records] = array;
        Words {
            bits,
            base,
            reported,
            opened,
            runs,
            records,
        }
    }
}

// And in their places.
impl From<Words> for WordArray {
    ghost from_gives = { λ words array. array ≡ words_of words };

    fn from(w: Words) -> WordArray {
        [w.bits, w.base, w.reported, w.opened, w.runs, w.records]
    }
}

// The word of an end that is closed or open.
pub fn opened_word(closed: bool) -> u32
    ensures { result ≡ «opened_word_of» closed }
{
    if closed { 0 } else { OPEN }
}

// ---- the words that calls change: each is stored alone

// Base.
pub fn store_base(words: &mut WordArray, base: u32)
    ensures { words.new ≡ words_of (words_in words.old saying_base base) }
{
    words[BASE] = base;
}

// How many runs are listed.
pub fn store_runs(words: &mut WordArray, runs: u32)
    ensures { words.new ≡ words_of (words_in words.old saying_runs runs) }
{
    words[RUNS] = runs;
}

// How many records are held.
pub fn store_records(words: &mut WordArray, records: u32)
    ensures { words.new ≡ words_of (words_in words.old saying_records records) }
{
    words[RECORDS] = records;
}

// The reported highest, and whether the end is closed.
pub fn store_reported(words: &mut WordArray, reported: u32, closed: bool)
    ensures { words.new ≡ words_of (words_in words.old saying_reported reported saying_opened «opened_word_of» closed) }
{
    words[REPORTED] = reported;
    words[OPENED] = opened_word(closed);
}

// ---- the arrays

// The lent arrays of an end, changed in place. C lends six arrays, with the counts among the words (include/x2u.h), so they stay arrays side by side.
#[derive(Drop)]
pub struct State<'a> {
    pub numbers: &'a mut RecordArray,
    pub pdcps: &'a mut RecordArray,
    pub marks: &'a mut RecordArray,
    pub starts: &'a mut RunArray,
    pub ends: &'a mut RunArray,
    pub words: &'a mut WordArray,
}

// What they hold, lent to be read: the words, and what is held and listed, without the slots past the counts. As in State, each array by itself.
#[derive(Clone, Copy)]
pub struct Held<'a> {
    pub words: Words,
    pub numbers: &'a [u32],
    pub pdcps: &'a [u32],
    pub marks: &'a [u32],
    pub starts: &'a [u32],
    pub ends: &'a [u32],
    ghost pdcps_match: { length pdcps.now ≡ length numbers.now },
    ghost marks_match: { length marks.now ≡ length numbers.now },
    ghost ends_match: { length ends.now ≡ length starts.now },
}

impl<'a> Held<'a> {
    ghost use Rattle.keeper_state.specs.Lent.{Shows, state_shown};

    // What is held and listed in arrays that are lent to be read: a count past the end counts as full.
    pub fn of(
        numbers: &'a RecordArray,
        pdcps: &'a RecordArray,
        marks: &'a RecordArray,
        starts: &'a RunArray,
        ends: &'a RunArray,
        words: &WordArray,
    ) -> Held<'a>
        ensures shows { Shows result (arrays numbers.now pdcps.now marks.now starts.now ends.now words.now) }
        ensures sized { HeldSizes numbers.now pdcps.now marks.now × ListedSizes starts.now ends.now }
        ensures state { state_shown result ≡ keeper_in numbers.now pdcps.now marks.now starts.now ends.now words.now }
    {
        let words = Words::from(*words);
        let held = words.held();
        let listed = words.listed();
        Held {
            words,
            numbers: first(numbers, held),
            pdcps: first(pdcps, held),
            marks: first(marks, held),
            starts: first(starts, listed),
            ends: first(ends, listed),
        }
    }
}

impl State<'_> {
    ghost use Rattle.keeper_state.specs.Lent.{arrays_of, keeper_of, Shows, state_shown};

    // What they hold, lent to be read.
    pub fn held(&self) -> Held<'_>
        ensures shows { Shows result (arrays_of self.now) }
        ensures sized { HeldSizes self.now.numbers.now self.now.pdcps.now self.now.marks.now × ListedSizes self.now.starts.now self.now.ends.now }
        ensures state { state_shown result ≡ keeper_of self.now }
    {
        Held::of(
            self.numbers,
            self.pdcps,
            self.marks,
            self.starts,
            self.ends,
            self.words,
        )
    }
}

// The first numbers of an array, no more than there are.
fn first<const N: usize>(numbers: &[u32; N], n: usize) -> &[u32]
    requires { n ≤ N }
    ensures sized { length numbers.now ≡ N }
    ensures front { result.now ≡ take n numbers.now }
{
    &numbers[..n]
}
