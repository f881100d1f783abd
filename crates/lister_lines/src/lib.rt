// The listing of an input (document 01, its last section), an answer to each of its lines: the lister as one of the programs that answer lines,
// whose blocks and unfinished lines are the crate program_lines's.
#![tactic(auto)]

ghost use Rattle.std.specs.Prelude.{◌≡◌, refl, replicate};
ghost use Rattle.frame_layout.specs.Frames.{most_octets};
ghost use Rattle.std.proofs.Common.{ltb-true, leb-true};
ghost use Rattle.lister_answers.specs.Answers.{most_text};
ghost use Rattle.lister_lines.specs.Listing.{lister};
ghost use Rattle.lister_answers.proofs.Kept.{line_kept};

use frame_layout::{FrameArray, MOST_OCTETS};
use lister_text::{MOST_DIGITS, Output};
use program_lines::AnswersLines;

pub const MOST_HELD: usize = MOST_DIGITS + 1; // one more shows that a line is too long

// The lister keeps nothing between lines. It has room for a frame.
#[derive(Drop)]
pub struct Lister {
    pub frame: FrameArray,
}

impl Lister {
    // Before the first line.
    pub fn new() -> Lister
        ensures { result.frame ≡ replicate most_octets 0 }
    {
        Lister {
            frame: [0; MOST_OCTETS],
        }
    }
}

impl AnswersLines<MOST_HELD> for Lister {
    ghost State = { Unit {0} };

    ghost program = { lister };

    ghost state = { λ s. tt };

    const MOST_TEXT: usize = lister_answers::MOST_TEXT;

    ghost MOST_TEXT = { most_text };

    fn answer(&mut self, line: &[u8], out: &mut Output<'_>) {
        lister_answers::answer(line, &mut self.frame, out);
    }

    ghost laws = { record {
      few = refl;
      room = refl;
      some = ltb-true 0 4096 refl;
      fits = leb-true 4096 65536 refl;
      tells = record { next = λ s l. refl; answer = λ s l. line_kept l };
    } };
}
