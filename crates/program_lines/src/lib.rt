// Lines out of blocks, for the programs that answer line by line. The input comes in blocks of any size, and the answers go to an output that
// the caller writes out, so that an input of any length takes the same memory.
#![tactic(auto)]

ghost use Rattle.std.specs.Prelude.{◌≡◌, ◌<◌, ◌≤◌, [], ℕ, length, take};
ghost use Rattle.program_lines.specs.Lines.{Answering};
ghost use Rattle.lister_text.specs.Outputs.{HasRoom};
ghost use Rattle.program_lines.specs.Feeding.{Holds, Laws, Said, Onward, Fed, LastAnswered, Finished};

use lister_text::Output;

// What is held of an unfinished line: so many octets at the front. A count past the end counts as all of them. An array and a count,
// since there is no heap.
#[derive(Drop)]
pub struct Line<const N: usize> {
    pub octets: [u8; N],
    pub held: usize,
}

impl<const N: usize> Line<N> {
    // Nothing is held.
    pub fn new() -> Self
        ensures { take result.held result.octets ≡ [] }
    {
        Line {
            octets: [0; N],
            held: 0,
        }
    }

    // What is held.
    pub fn held(&self) -> &[u8]
        ensures { result.now ≡ take self.now.held self.now.octets }
    {
        basics::front(&self.octets, self.held)
    }

    // Holds more of the line, up to the last octet that there is room for.
    pub fn hold(&mut self, part: &[u8])
        ensures within { self.new.held ≤ length self.new.octets }
        ensures front { Holds N (take self.old.held self.old.octets) part.now (take self.new.held self.new.octets) }
    {
        self.held = hold(part, &mut self.octets, self.held);
    }
}

// Holds more of an unfinished line in a buffer of any length, up to the buffer's end, and answers how much is held.
pub fn hold(part: &[u8], line: &mut [u8], held: usize) -> usize
    ensures within { result ≤ length line.old }
    ensures front { Holds (length line.old) (take held line.old) part.now (take result line.new) }
{
    let at = held.min(line.len());
    let n = part.len().min(line.len() - at);
    line[at..at + n].copy_from_slice(&part[..n]);
    at + n
}

// A program that answers lines, and looks at no more than N octets of each.
pub trait AnswersLines<const N: usize> {
    // what it keeps between lines
    ghost State: { Type 0 };

    // what it answers in a state, and the state that this leaves
    ghost program: { Answering State };

    // the state that it is in
    ghost state: { Self → State };

    // the most octets of an answer
    const MOST_TEXT: usize;

    ghost MOST_TEXT: { ℕ };

    // Answers a line, on an output with room for any answer.
    fn answer(&mut self, line: &[u8], out: &mut Output<'_>)
        ensures { Said program (state self.old) line.now out.old (state self.new) out.new };

    ghost laws: { Laws program N MOST_TEXT };
}

// Feeds the octets of a block through its first line feed, and answers the line that it ends; or holds the whole block.
fn feed_line<A: AnswersLines<N>, const N: usize>(
    program: &mut A,
    line: &mut Line<N>,
    block: &[u8],
    out: &mut Output<'_>,
) -> usize
    requires { (0 < length block.now) × HasRoom out.old A.program.most_text }
    ensures { Onward A.program (A.state program.old) line.old block.now out.old result (A.state program.new) line.new out.new }
{
    let Some(end) = lister_text::line_end(block) else {
        line.hold(block);
        return block.len();
    };
    // A line that lies in the block is answered where it lies, and no more of it is looked at than would be held.
    if line.held == 0 {
        program.answer(basics::front(&block[..end], N), out);
        return end + 1;
    }
    line.hold(&block[..end]);
    program.answer(line.held(), out);
    line.held = 0; // the next line begins
    end + 1
}

// Feeds a block, until it is taken whole or the output has no more room for any answer: how many of its octets were taken.
pub fn feed<A: AnswersLines<N>, const N: usize>(
    program: &mut A,
    line: &mut Line<N>,
    block: &[u8],
    out: &mut Output<'_>,
) -> usize
    ensures { Fed A.program (A.state program.old) line.old block.now out.old result (A.state program.new) line.new out.new }
{
    line.held = line.held.min(N);
    let mut taken = 0;
    // What a turn takes is found in the block, so no iterator counts the turns.
    while taken < block.len() && out.fits(A::MOST_TEXT) {
        taken += feed_line(program, line, &block[taken..], out);
    }
    taken
}

// Behind the last block: the answer to a last line without its line feed, which stays held.
pub fn answer_last<A: AnswersLines<N>, const N: usize>(
    program: &mut A,
    line: &Line<N>,
    out: &mut Output<'_>,
)
    ensures { LastAnswered A.program (A.state program.old) (take line.now.held line.now.octets) out.old (A.state program.new) out.new }
{
    if !line.held().is_empty() && out.fits(A::MOST_TEXT) {
        program.answer(line.held(), out);
    }
}

// The same, and where there was room for any answer nothing stays held.
pub fn finish<A: AnswersLines<N>, const N: usize>(
    program: &mut A,
    line: &mut Line<N>,
    out: &mut Output<'_>,
)
    ensures { Finished A.program (A.state program.old) (take line.old.held line.old.octets) out.old (A.state program.new) (take line.new.held line.new.octets) out.new }
{
    let room = out.fits(A::MOST_TEXT);
    answer_last(program, line, out);
    if room {
        line.held = 0;
    }
}
