// Plays the calls of a script, one a line, on the proved secondary and master of one bearer, and prints a line for each: its answer, what came
// with each read before the next one. The lines are played by the crate replay_lines; reading and writing is program_run's. `play_all` says of
// any input and output whose octets are known that the output grows by what the script that was read prints, or by a front of it where something
// failed.
#![tactic(auto)]

ghost use Rattle.std.specs.Prelude.{◌≡◌, false};
ghost use Rattle.program_run.specs.Running.{Ran};
ghost use Rattle.replay_ends.specs.Playing.{Ends};
ghost use Rattle.replay_lines.specs.Scripts.{replaying};

use program_lines::Line;
use program_run::{Reading, run};
use replay_lines::Script;
use std::io::{Read, Write};

// Plays a script to its end, and says whether all of it could be read and answered.
fn play_all<R: Read, W: Write, E: Write>(input: &mut R, output: &mut W, errors: &mut E) -> bool
    ensures { (e : Ends) → e.opened ≡ false → Ran replaying e (R.remaining input.old) (R.remaining input.new) (W.contents output.old) (W.contents output.new) result }
{
    let mut reading = Reading {
        program: Script::new(),
        line: Line::new(),
    };
    run(&mut reading, b"replay", input, output, errors)
}

fn main(rt: HostRuntime) {
    let mut errors = rt.stderr();
    if program_io::has_arguments(&rt, &mut errors, b"replay") {
        return;
    }
    let mut input = rt.stdin();
    let mut output = rt.stdout();
    play_all(&mut input, &mut output, &mut errors);
}
