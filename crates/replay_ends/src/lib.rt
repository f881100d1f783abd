// Both ends of one bearer as calls are played on them: the secondary's is the keeper's lent arrays, the master's a ledger. Beside them is told
// whether an open of them was accepted; ends that are not open hold anything, and keep it until one is.
// Here are an open, which is both ends' alike, and a line that says no call; the crates replay_keeper and replay_ledger have the
// calls on one end.
#![tactic(auto)]

ghost use Rattle.std.specs.Prelude.{◌≡◌, List, ℕ, Some, None};
ghost use Rattle.bearer.specs.Keeper.{open_keeper};
ghost use Rattle.bearer.specs.Ledger.{open_ledger};
ghost use Rattle.keeper_state.specs.Lent.{keeper_of, SameLoans};
ghost use Rattle.ledger.specs.View.{ledger_in};
ghost use Rattle.replay_answers.specs.Answers.{answer_fields, answer_by};
ghost use Rattle.replay_calls.specs.declared.Call.TheVariants.{Open};
ghost use Rattle.replay_ends.specs.Steps.{shown};
ghost use Rattle.replay_ends.specs.Playing.{Ends, ends_of, opening, PlaysInto};

use keeper_state::State;
use ledger::Ledger;
use lister_text::Output;
use refusal::Refusal;
use replay_answers::Answer;
use replay_calls::OpenCall;

// The secondary opened, and the master as it was: the two refuse alike.
fn open_both(
    o: OpenCall,
    state: &mut State<'_>,
    opened: &mut bool,
    ledger: &mut Ledger,
) -> Result<Answer, Refusal>
    ensures loans { SameLoans state.old state.new }
    ensures opens { shown (ends_of opened.new (keeper_of state.new) (ledger_in ledger.new)) (answer_fields (answer_by result))
        ≡ opening (ends_of opened.old (keeper_of state.old) (ledger_in ledger.old)) (open_keeper o.bits o.first o.pdcp) (open_ledger o.bits o.first o.pdcp) }
{
    keeper::open(state, o.bits, o.first, o.pdcp)?;
    *ledger = Ledger::open(o.bits, o.first, o.pdcp)?;
    *opened = true;
    Ok(Answer::Ok)
}

// Both ends opened afresh, or both left as they are, and the line of the answer. Without room for any line nothing changes.
pub fn play_open(
    o: OpenCall,
    state: &mut State<'_>,
    opened: &mut bool,
    ledger: &mut Ledger,
    out: &mut Output<'_>,
)
    ensures loans { SameLoans state.old state.new }
    ensures plays { (frame : List ℕ) → PlaysInto (ends_of opened.old (keeper_of state.old) (ledger_in ledger.old)) (Some (Open o)) frame out.old (ends_of opened.new (keeper_of state.new) (ledger_in ledger.new)) out.new }
{
    if replay_states::has_room(out) {
        let answer = open_both(o, state, opened, ledger);
        replay_answers::lay_answer(Answer::from(answer), out);
    }
}

// A line that says no call. Without room for any line nothing changes.
pub fn play_unreadable(out: &mut Output<'_>)
    ensures { (e : Ends) (frame : List ℕ) → PlaysInto e None frame out.old e out.new }
{
    replay_answers::lay_answer(Answer::Unreadable, out);
}
