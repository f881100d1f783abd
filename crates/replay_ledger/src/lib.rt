// Calls on the master, played on its ledger, and the line of each answer laid on an output.
#![tactic(auto)]

ghost use Rattle.std.specs.Prelude.{Some};
ghost use Rattle.bearer.specs.Keeper.{«Keeper» as «Secondary»};
ghost use Rattle.ledger.specs.View.{ledger_in};
ghost use Rattle.replay_calls.specs.declared.Call.TheVariants.{Ledger as «OnLedger»};
ghost use Rattle.replay_ends.specs.Steps.{play_ledger as «play_ledger_of»};
ghost use Rattle.replay_ends.specs.Playing.{ends_of, Plays, PlaysInto};

use frame_layout::FrameArray;
use ledger::Ledger;
use lister_text::Output;
use replay_answers::{Answer, lay_answer};
use replay_calls::LedgerCall;

// A call, and the line of its answer.
fn step(call: LedgerCall, frame: &[u8], ledger: &mut Ledger, out: &mut Output<'_>)
    ensures { Plays («play_ledger_of» (ledger_in ledger.old) call frame.now) (ledger_in ledger.new) out.old out.new }
{
    match call {
        LedgerCall::Send { pdcp, size } => {
            let sent = ledger.send(pdcp, size);
            lay_answer(Answer::from(sent.map(|n| Answer::Sent(n))), out)
        }
        LedgerCall::Accept(n) => {
            let accepted = ledger.accept(basics::front(frame, n));
            lay_answer(
                Answer::from(accepted.map(|a| Answer::Freed {
                    freed: a.freed,
                    lost: a.lost,
                    last: a.last,
                })),
                out,
            )
        }
        LedgerCall::Take => {
            let taken = ledger.take();
            lay_answer(
                Answer::from(taken.map(|t| Answer::Taken {
                    number: t.number,
                    pdcp: t.pdcp,
                    size: t.size,
                })),
                out,
            )
        }
        LedgerCall::Room => lay_answer(Answer::Room(ledger.room()), out),
        LedgerCall::Show => replay_states::lay_ledger(ledger, out),
    }
}

// A call on the master, and the line of its answer. Without room for any line nothing changes. Whether the ends are open is told beside the
// ledger: they are once an open was accepted, and the ledger's own word goes with Final.
pub fn play_ledger(
    call: LedgerCall,
    frame: &FrameArray,
    opened: bool,
    ledger: &mut Ledger,
    out: &mut Output<'_>,
)
    ensures { (k : «Secondary») → PlaysInto (ends_of opened k (ledger_in ledger.old)) (Some («OnLedger» call)) frame.now out.old (ends_of opened k (ledger_in ledger.new)) out.new }
{
    if !opened {
        lay_answer(Answer::Unopened, out);
    } else if replay_states::has_room(out) {
        step(call, frame, ledger, out);
    }
}
