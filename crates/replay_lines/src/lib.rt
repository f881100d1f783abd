// A script played line by line, both ends kept between them: one of the programs that answer lines, whose blocks and unfinished lines are the
// crate program_lines's.
#![tactic(auto)]

ghost use Rattle.std.specs.Prelude.{◌≡◌, true, false};
ghost use Rattle.bearer.specs.Ledger.{fresh};
ghost use Rattle.keeper_state.specs.Lent.{keeper_of, SameLoans};
ghost use Rattle.ledger.specs.View.{ledger_in};
ghost use Rattle.replay_states.specs.Lines.{most_text};
ghost use Rattle.replay_ends.specs.Playing.{Ends, ends_of, PlaysInto};
ghost use Rattle.replay_lines.specs.Scripts.{replaying};
ghost use Rattle.replay_lines.specs.Held.{ends_of_script, script_laws};

use frame_layout::{FrameArray, MOST_OCTETS};
use keeper_state::{MOST_RECORDS, MOST_RUNS, RecordArray, RunArray, State, WordArray};
use ledger::Ledger;
use lister_text::Output;
use program_lines::AnswersLines;
use replay_calls::Call;
use replay_ends::{play_open, play_unreadable};

pub const MOST_HELD: usize = 2044; // of a line: one octet more than the longest call has, which shows that it is none

// Both ends between two lines: the secondary's arrays, the master's ledger, and whether an open of them was accepted; and room for a frame. There
// is no heap: the arrays are the script's own, side by side as a State borrows them.
#[derive(Drop)]
pub struct Script {
    pub numbers: RecordArray,
    pub pdcps: RecordArray,
    pub marks: RecordArray,
    pub starts: RunArray,
    pub ends: RunArray,
    pub words: WordArray,
    pub opened: bool,
    pub ledger: Ledger,
    pub frame: FrameArray,
}

impl Script {
    // Before the first line neither end is open, and the master's is closed and empty.
    pub fn new() -> Script
        ensures unopened { (ends_of_script result).opened ≡ false }
        ensures empty { (ends_of_script result).ledger ≡ fresh 18 0 0 true }
    {
        Script {
            numbers: [0; MOST_RECORDS],
            pdcps: [0; MOST_RECORDS],
            marks: [0; MOST_RECORDS],
            starts: [0; MOST_RUNS],
            ends: [0; MOST_RUNS],
            words: [0; 6],
            opened: false,
            ledger: Ledger::closed(),
            frame: [0; MOST_OCTETS],
        }
    }
}

// What a line says, played on the ends, and the line of its answer. Without room for any line nothing changes.
fn play(
    call: Option<Call>,
    frame: &FrameArray,
    state: &mut State<'_>,
    opened: &mut bool,
    ledger: &mut Ledger,
    out: &mut Output<'_>,
)
    ensures loans { SameLoans state.old state.new }
    ensures plays { PlaysInto (ends_of opened.old (keeper_of state.old) (ledger_in ledger.old)) call frame.now out.old (ends_of opened.new (keeper_of state.new) (ledger_in ledger.new)) out.new }
{
    match call {
        None => play_unreadable(out),
        Some(Call::Open(o)) => play_open(o, state, opened, ledger, out),
        Some(Call::Keeper(c)) => replay_keeper::play_keeper(c, state, *opened, out),
        Some(Call::Ledger(c)) => replay_ledger::play_ledger(c, frame, *opened, ledger, out),
    }
}

impl AnswersLines<MOST_HELD> for Script {
    ghost State = { Ends };

    ghost program = { replaying };

    ghost state = { ends_of_script };

    const MOST_TEXT: usize = replay_states::MOST_TEXT;

    ghost MOST_TEXT = { most_text };

    fn answer(&mut self, line: &[u8], out: &mut Output<'_>) {
        let call = replay_calls::read_call(line, &mut self.frame);
        let mut state = State {
            numbers: &mut self.numbers,
            pdcps: &mut self.pdcps,
            marks: &mut self.marks,
            starts: &mut self.starts,
            ends: &mut self.ends,
            words: &mut self.words,
        };
        play(
            call,
            &self.frame,
            &mut state,
            &mut self.opened,
            &mut self.ledger,
            out,
        );
    }

    ghost laws = { script_laws };
}
