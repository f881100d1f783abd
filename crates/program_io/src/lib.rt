// What the programs do alike with an input and outputs: one read, the answers written and counted, and what they say where one of
// these fails. Which octets an input gives and an output keeps is said where they are known, as of readers and writers in memory; of
// the standard streams no contract can say it.
#![tactic(auto)]

ghost use Rattle.std.specs.Prelude.{◌≡◌, ◌<◌, ◌≤◌, ◌+◌, ◌%◌, ◌^◌, Ok, IfErr, length, take, unwrap_or, pos};
ghost use Rattle.std.specs.IoError.{raw_os_error};
ghost use Rattle.std.specs.Io.KnownBytes.{Appends, Consumes, IsAtEnd};
ghost use Rattle.basics.specs.Laid.{Laid};
ghost use Rattle.lister_text.specs.Texts.{line_feeds as «line_feeds_of»};
ghost use Rattle.lister_text.specs.Outputs.{Puts};
ghost use Rattle.program_io.specs.Reads.{came};
ghost use Rattle.program_io.specs.Failures.{taken, written, Writes, most_word, error_number as «error_number_of», answered, failed, failing, WordsEnd};

use itoa::Buffer;
use lister_text::{LINE_FEED, Output};
use std::env::FillError;
use std::io::{Cursor, Error, Read, Write};
use std::rt::Env;

pub const MOST_WORD: usize = 24; // octets that are said of a name

// Room for what is read at once, and for answers that are written at once.
pub type BlockArray = [u8; 65536];

// Room for what is said of a failure: 62 octets at most of the lines, 51 of what failed.
pub type FailureArray = [u8; 128];

// Room for an error in the system's words, of which the C library has 49 octets at most.
type WordsArray = [u8; 256];

// How many of an output's octets were written before a write took none or failed, and how many line feeds with all that was written before.
#[derive(Drop)]
pub struct Part {
    pub octets: usize,
    pub lines: u64,
}

// How many octets were taken before a write took none or failed, and the error's number where one failed (else 0, as it is printed).
#[derive(Drop)]
struct Short {
    octets: usize,
    error: i32,
}

// An empty block.
pub fn large_buffer() -> BlockArray
    ensures { 65536 ≡ length result }
{
    [0; 65536]
}

// ---- reading

// The number of an error that the system gave; 0 of another one, since it is printed.
fn number_of(error: &Error) -> i32
    ensures { result ≡ unwrap_or (raw_os_error error.now) (pos 0) }
{
    error.raw_os_error().unwrap_or(0)
}

// Reads once: how many octets came, none at the end of the input; or the error's number.
pub fn read_block<R: Read>(input: &mut R, block: &mut [u8]) -> Result<usize, i32>
    ensures prefix_len { (came result ≤ length block.new) × (came result ≡ length (take (came result) block.new)) }
    ensures bytes { Consumes (R.remaining input.old) (R.remaining input.new) (take (came result) block.new) }
    ensures end { result ≡ Ok 0 → 0 < length block.old → IsAtEnd (R.remaining input.new) }
{
    match input.read(block) {
        Ok(n) => Ok(n),
        Err(e) => Err(number_of(&e)),
    }
}

// ---- writing

// How many line feeds there are among octets, of which there are fewer than 256. Counts of 8 bits let a processor take many at once.
fn feeds_in(part: &[u8]) -> u8
    requires { length part.now < 256 }
    ensures { result ≡ «line_feeds_of» part.now }
{
    let mut n = 0;
    for &c in part {
        n += u8::from(c == LINE_FEED);
    }
    n
}

// How many line feeds there are among octets.
pub fn line_feeds(octets: &[u8]) -> usize
    ensures { result ≡ «line_feeds_of» octets.now }
{
    let mut n = 0;
    for part in octets.chunks(224) {
        n += usize::from(feeds_in(part));
    }
    n
}

// How many lines were answered with octets that were written: 64 bits of them.
fn lines_after(lines: u64, octets: &[u8]) -> u64
    ensures { result ≡ (lines + «line_feeds_of» octets.now) % 2 ^ 64 }
{
    lines.wrapping_add(line_feeds(octets) as u64)
}

// Writes octets out, until a write takes none or fails.
fn write_octets<W: Write>(output: &mut W, octets: &[u8]) -> Result<(), Short>
    ensures part { IfErr result (λ short. short.octets < length octets.now) }
    ensures bytes { Appends (W.contents output.old) (W.contents output.new) (take (taken octets.now result) octets.now) }
{
    let mut done = 0;
    // What a turn takes is what the write took, so no iterator counts the turns.
    while done < octets.len() {
        match output.write(&octets[done..]) {
            Ok(0) => {
                return Err(Short {
                    octets: done,
                    error: 0,
                });
            }
            Ok(n) => done += n,
            Err(e) => {
                return Err(Short {
                    octets: done,
                    error: number_of(&e),
                });
            }
        }
    }
    Ok(())
}

// Writes answers out, after so many lines, and says how many lines were answered then. Where that fails it says so. Name, output, errors
// and lines stay apart here and where a program runs: a struct of loans would put each of them into each clause.
pub fn write_answers<W: Write, E: Write>(
    output: &mut W,
    errors: &mut E,
    name: &[u8],
    answers: &[u8],
    lines: u64,
) -> Result<u64, Part>
    ensures counted { Writes answers.now lines result }
    ensures bytes { Appends (W.contents output.old) (W.contents output.new) (take (written answers.now result) answers.now) }
{
    let Err(short) = write_octets(output, answers) else {
        return Ok(lines_after(lines, answers));
    };
    let octets = short.octets;
    let lines = lines_after(lines, &answers[..octets]);
    say_failed(errors, name, b"writing", lines, short.error);
    Err(Part { octets, lines })
}

// ---- what is said on standard error

// The number of an error, as C holds it: none is below 0.
fn error_number(error: i32) -> u32
    ensures { result ≡ «error_number_of» error }
{
    u32::try_from(error).unwrap_or(0)
}

// Lays how many lines a program answered.
fn lay_answered(name: &[u8], lines: u64, out: &mut Output<'_>)
    ensures { Puts out.old (answered (take most_word name.now) lines) out.new }
{
    out.text(basics::front(name, MOST_WORD));
    out.text(b": lines answered: ");
    out.text(Buffer::new().format(lines).as_bytes());
}

// Lays what failed behind it.
fn lay_failed(what: &[u8], error: u32, out: &mut Output<'_>)
    ensures { Puts out.old (failed (take most_word what.now) error) out.new }
{
    out.text(b"; ");
    out.text(basics::front(what, MOST_WORD));
    out.text(b" failed, error ");
    out.decimal(error);
}

// Lays what is said where something failed: the program's name, how many lines it answered, what failed, and the error's number.
pub fn failure_text(
    name: &[u8],
    what: &[u8],
    lines: u64,
    error: i32,
    text: &mut FailureArray,
) -> usize
    ensures { Laid text.old 0 (failing (take most_word name.now) (take most_word what.now) lines («error_number_of» error)) result text.new }
{
    let mut out = Output {
        octets: text,
        at: 0,
    };
    lay_answered(name, lines, &mut out);
    lay_failed(what, error_number(error), &mut out);
    out.at
}

// Where the words end of an error as std says it: the last round bracket and the blank before it belong to its number.
fn words_end(text: &[u8]) -> usize
    ensures within { result ≤ length text.now }
    ensures place { WordsEnd text.now result }
{
    text.iter()
        .rposition(|&c| c == b'(')
        .map_or(text.len(), |end| end.saturating_sub(1))
}

// An error in the system's words, at the front of a buffer, and its number behind them.
fn words_of(error: i32) -> Cursor<WordsArray> {
    let mut words = Cursor::new([0; 256]);
    let _ = write!(words, "{}", Error::from_raw_os_error(error));
    words
}

// Says a part on standard error. Where that fails, there is nowhere left to say it.
fn say<E: Write>(errors: &mut E, part: &[u8]) {
    let _ = errors.write_all(part);
}

// Says on standard error what failed, with the error's number.
pub fn say_failed<E: Write>(errors: &mut E, name: &[u8], what: &[u8], lines: u64, error: i32) {
    let mut text = [0; 128];
    let n = failure_text(name, what, lines, error, &mut text);
    let words = words_of(error);
    let said = basics::front(words.get_ref(), words.position() as usize);
    say(errors, basics::front(&text, n));
    say(errors, b": ");
    say(errors, basics::front(said, words_end(said)));
    say(errors, b"\n");
}

// Whether the program was started with arguments. They are refused: it says so on standard error.
pub fn has_arguments<R: Env, E: Write>(rt: &R, errors: &mut E, name: &[u8]) -> bool {
    let mut argument = [0; 1];
    if let Err(FillError::NotPresent) = rt.arg(1, &mut argument) {
        return false;
    }
    say(errors, basics::front(name, MOST_WORD));
    say(errors, b": takes no arguments; it reads standard input\n");
    true
}
