// Lists the frames of standard input on standard output (document 01, its last section), what came with each read before the next one. All
// but reading and writing is the crate lister_lines's. `list_all` says of any input and output whose octets are known that the output grows by
// the listing of what was read, or by a front of it where something failed.
#![tactic(auto)]

ghost use Rattle.std.specs.Prelude.{◌≡◌};
ghost use Rattle.program_run.specs.Running.{Ran};
ghost use Rattle.lister_lines.specs.Listing.{lister};

use lister_lines::Lister;
use program_lines::Line;
use program_run::{Reading, run};
use std::io::{Read, Write};

// Lists an input to its end, and says whether all of it could be read and answered.
fn list_all<R: Read, W: Write, E: Write>(input: &mut R, output: &mut W, errors: &mut E) -> bool
    ensures { Ran lister tt (R.remaining input.old) (R.remaining input.new) (W.contents output.old) (W.contents output.new) result }
{
    let mut reading = Reading {
        program: Lister::new(),
        line: Line::new(),
    };
    run(&mut reading, b"lister", input, output, errors)
}

fn main(rt: HostRuntime) {
    let mut errors = rt.stderr();
    if program_io::has_arguments(&rt, &mut errors, b"lister") {
        return;
    }
    let mut input = rt.stdin();
    let mut output = rt.stdout();
    list_all(&mut input, &mut output, &mut errors);
}
