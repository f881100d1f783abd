// A program that answers its input line by line, run from the input's first octet to its last: what came with each read is answered and written
// before the next one. What it answers is its own, by the trait `AnswersLines`; specs/Running.antt says what a run reads and writes.
#![tactic(auto)]

ghost use Rattle.std.specs.Prelude.{◌≡◌, true, [], ℕ, ◌-◌, ◌^◌, ◌<◌, ◌≤◌, ◌⊎◌, length, is_ok};
ghost use Rattle.std.specs.Io.KnownBytes.{IsAtEnd};
ghost use Rattle.program_run.specs.Running.{told_by, Answered, Going, Says};

use lister_text::Output;
use program_io::{large_buffer, read_block, say_failed, write_answers};
use program_lines::{AnswersLines, Line, feed, finish};
use std::io::{Read, Write};

// A program, and what is held of the line that the last block left unfinished.
#[derive(Drop)]
pub struct Reading<A: Drop, const N: usize> {
    pub program: A,
    pub line: Line<N>,
}

// A run stopped, since something failed that was said on standard error.
#[derive(Clone, Copy, Debug, PartialEq, Eq)]
struct Stopped;

// Answers a block, and writes the answers, as much at a time as the output holds: how many lines were answered.
fn answer_block<A: AnswersLines<N> + Drop, W: Write, E: Write, const N: usize>(
    reading: &mut Reading<A, N>,
    name: &[u8],
    block: &[u8],
    out: &mut Output<'_>,
    output: &mut W,
    errors: &mut E,
    lines: u64,
) -> Result<u64, Stopped>
    requires { A.program.most_text ≤ length out.old.octets.now }
    ensures answered { Answered (W.contents output.old) (W.contents output.new) (told_by A.program A.state reading.old) block.now (is_ok result) (told_by A.program A.state reading.new) [] }
    ensures loan { (out.new.octets.ghost_name ≡ out.old.octets.ghost_name) × (length out.new.octets.now ≡ length out.old.octets.now) }
{
    let mut lines = lines;
    let mut rest = block;
    // What a turn takes is the program's to say, so no iterator counts the turns.
    while !rest.is_empty() {
        out.at = 0;
        let taken = feed(&mut reading.program, &mut reading.line, rest, out);
        let (_, behind) = rest.split_at(taken);
        rest = behind;
        match write_answers(output, errors, name, out.laid(), lines) {
            Ok(answered) => lines = answered,
            Err(_) => return Err(Stopped),
        }
    }
    Ok(lines)
}

// Reads an input to its end, and answers what came: how many lines were answered. A proved loop has to end, and nothing says that an input
// does: it counts its reads down from a number that no run uses up. By hand, so that must-fail/read_not_counted can plant a read that isn't
// counted: a `for` can't leave one out.
fn answer_all<A: AnswersLines<N> + Drop, R: Read, W: Write, E: Write, const N: usize>(
    reading: &mut Reading<A, N>,
    name: &[u8],
    input: &mut R,
    block: &mut [u8],
    out: &mut Output<'_>,
    output: &mut W,
    errors: &mut E,
) -> Result<u64, Stopped>
    requires { (A.program.most_text ≤ length out.old.octets.now) × (0 < length block.old) }
    ensures going { (least : ℕ) × Going (R.remaining input.old) (R.remaining input.new) (W.contents output.old) (W.contents output.new) (told_by A.program A.state reading.old) least (is_ok result) (told_by A.program A.state reading.new)
        × (is_ok result ≡ true → IsAtEnd (R.remaining input.new) ⊎ (2 ^ 64 - 1 ≤ least)) }
    ensures loan { (out.new.octets.ghost_name ≡ out.old.octets.ghost_name) × (length out.new.octets.now ≡ length out.old.octets.now) }
{
    let mut lines = 0;
    let mut reads = u64::MAX;
    while 0 < reads {
        reads -= 1;
        match read_block(input, block) {
            Ok(0) => return Ok(lines),
            Ok(n) => {
                lines = answer_block(reading, name, &block[..n], out, output, errors, lines)?;
            }
            Err(error) => {
                say_failed(errors, name, b"reading", lines, error);
                return Err(Stopped);
            }
        }
    }
    Ok(lines)
}

// Runs a program of that name over an input, and says whether all of it could be read and answered.
pub fn run<A: AnswersLines<N> + Drop, R: Read, W: Write, E: Write, const N: usize>(
    reading: &mut Reading<A, N>,
    name: &[u8],
    input: &mut R,
    output: &mut W,
    errors: &mut E,
) -> bool
    ensures { Says (told_by A.program A.state reading.old) (R.remaining input.old) (R.remaining input.new) (W.contents output.old) (W.contents output.new) result }
{
    let mut block = large_buffer();
    let mut answers = large_buffer();
    let mut out = Output {
        octets: &mut answers,
        at: 0,
    };
    let Ok(lines) = answer_all(reading, name, input, &mut block, &mut out, output, errors) else {
        return false;
    };
    out.at = 0;
    finish(&mut reading.program, &mut reading.line, &mut out);
    write_answers(output, errors, name, out.laid(), lines).is_ok()
}
