// The parts of a line: each is laid on an output where it fits, and else left out.
#![tactic(auto)]

ghost use Rattle.std.specs.Prelude.{[], ◌∷◌, ◌+◌, ◌*◌, length};
ghost use Rattle.lister_text.specs.Texts.{line_feed, decimal};
ghost use Rattle.lister_text.specs.Outputs.{fitted, Lays};
ghost use Rattle.replay_parts.specs.Parts.{tabbed, Parts};

use lister_text::{LINE_FEED, Output, TAB};

// The end of a line.
pub fn put_end(out: &mut Output<'_>)
    ensures { Lays out.old (fitted out.old (line_feed ∷ [])) out.new }
{
    out.octet(LINE_FEED);
}

// A number with a mark before it.
pub fn put_behind(mark: u8, n: u32, out: &mut Output<'_>)
    ensures { Parts out.old ((mark ∷ []) ∷ decimal n ∷ []) out.new 11 }
{
    out.octet(mark);
    out.decimal(n);
}

// A word and numbers behind it, each with a tab before it.
pub fn put_named(name: &[u8], numbers: &[u32], out: &mut Output<'_>)
    ensures { Parts out.old (name.now ∷ tabbed numbers.now) out.new (length name.now + length numbers.now * 11) }
{
    out.text(name);
    for n in numbers {
        put_behind(TAB, *n, out);
    }
}
