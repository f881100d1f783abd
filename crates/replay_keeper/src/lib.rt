// Calls on the secondary, played on the keeper's lent arrays, and the line of each answer laid on an output.
#![tactic(auto)]

ghost use Rattle.std.specs.Prelude.{List, ℕ, Some};
ghost use Rattle.bearer.specs.Ledger.{«Ledger» as «Master»};
ghost use Rattle.keeper_state.specs.Lent.{keeper_of, SameLoans};
ghost use Rattle.replay_calls.specs.declared.Call.TheVariants.{Keeper};
ghost use Rattle.replay_calls.specs.declared.KeeperCall.TheVariants.{Status};
ghost use Rattle.replay_ends.specs.Steps.{play_keeper as «play_keeper_of»};
ghost use Rattle.replay_ends.specs.Playing.{ends_of, Plays, PlaysInto};

use keeper_state::State;
use lister_text::Output;
use replay_answers::{Answer, lay_answer, lay_frame};
use replay_calls::{KeeperCall, MOST_ROOM, StatusCall};

// A status, written into so much room at the front of an empty buffer, and the line of its frame.
fn status(s: StatusCall, state: &mut State<'_>, out: &mut Output<'_>)
    ensures loans { SameLoans state.old state.new }
    ensures plays { Plays («play_keeper_of» (keeper_of state.old) (Status s)) (keeper_of state.new) out.old out.new }
{
    let mut buffer = [0u8; MOST_ROOM];
    let room = s.room.min(MOST_ROOM);
    match keeper::status(state, s.desired, s.minimum, s.last, &mut buffer[..room]) {
        Ok(n) => lay_frame(basics::front(&buffer, n), out),
        Err(refusal) => lay_answer(Answer::Refused(u32::from(refusal)), out),
    }
}

// A call, and the line of its answer.
fn step(call: KeeperCall, state: &mut State<'_>, out: &mut Output<'_>)
    ensures loans { SameLoans state.old state.new }
    ensures plays { Plays («play_keeper_of» (keeper_of state.old) call) (keeper_of state.new) out.old out.new }
{
    match call {
        KeeperCall::Arrive { number, pdcp } => {
            let lost = keeper::arrive(state, number, pdcp);
            lay_answer(Answer::from(lost.map(|n| Answer::Lost(n))), out)
        }
        KeeperCall::Expire(mark) => {
            let lost = keeper::expire(state, mark);
            lay_answer(Answer::from(lost.map(|n| Answer::Lost(n))), out)
        }
        KeeperCall::Confirm(number) => {
            let confirmed = keeper::confirm(state, number);
            lay_answer(Answer::from(confirmed.map(|()| Answer::Ok)), out)
        }
        KeeperCall::Status(s) => status(s, state, out),
        KeeperCall::Show => replay_states::lay_keeper(&state.held(), out),
    }
}

// A call on the secondary, and the line of its answer. Without room for any line nothing changes. Whether the ends are open is told beside the
// state: they are once an open was accepted, and the keeper's own word goes with Final.
pub fn play_keeper(call: KeeperCall, state: &mut State<'_>, opened: bool, out: &mut Output<'_>)
    ensures loans { SameLoans state.old state.new }
    ensures plays { (l : «Master» Unit) (frame : List ℕ) → PlaysInto (ends_of opened (keeper_of state.old) l) (Some (Keeper call)) frame out.old (ends_of opened (keeper_of state.new) l) out.new }
{
    if !opened {
        lay_answer(Answer::Unopened, out);
    } else if replay_states::has_room(out) {
        step(call, state, out);
    }
}
