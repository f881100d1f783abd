// The gaps that numbers leave below a distance from a point, one after another.
ghost use Rattle.std.specs.Prelude.{◌<◌};

use crate::Point;

// The distances from one up to, and without, another, at which no number lies.
#[derive(Clone, Copy, Debug, PartialEq, Eq)]
pub struct Gap {
    pub from: u32,
    pub to: u32,
    ghost holds: { from < to },
}

// The gaps that numbers leave from one distance up to another, as seen from a point.
#[derive(Drop)]
pub struct Gaps<'a> {
    pub point: Point,
    pub numbers: &'a [u32],
    pub from: u32,
    pub limit: u32,
}

impl Iterator for Gaps<'_> {
    ghost use Rattle.std.specs.Iterator.{YieldsFirstBy, item_count};
    ghost use Rattle.keeper_loss.specs.Tally.{gap_of, gaps_left};

    type Item = Gap;

    ghost next_gives = { YieldsFirstBy gap_of gaps_left };

    ghost remaining = { item_count gaps_left };

    // The next gap: in front of a number that lies further on, or behind all of them.
    fn next(&mut self) -> Option<Gap> {
        while let [first, rest @ ..] = self.numbers {
            self.numbers = rest;
            let to = self.point.distance(*first);
            let from = self.from;
            if from <= to && to < self.limit {
                self.from = to + 1;
                if from < to {
                    return Some(Gap { from, to });
                }
            }
        }
        let from = self.from;
        let to = self.limit;
        if to <= from {
            return None;
        }
        self.from = to;
        Some(Gap { from, to })
    }
}
