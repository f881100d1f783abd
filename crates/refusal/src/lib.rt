// Document 01's refusals, and those of document 02's requests: a name for each number, in order. A call that refuses answers one of
// these, so no other place of the code says a number. specs/Numbers.antt has the numbers.
#![tactic(auto)]

ghost use Rattle.std.specs.Prelude.{◌≡◌};
ghost use Rattle.refusal.specs.Numbers.{number_of};

// Why a call is refused.
#[derive(Clone, Copy, Debug, PartialEq, Eq)]
pub enum Refusal {
    // ---- reading and writing frames
    Length = 1, // length below 6, above 1,018, or not 4k - 2
    Reserved = 2, // type 4 to 15
    FixedPart = 3, // the frame ends before the last fixed field
    Highest = 4, // highest PDCP above its type's maximum
    Count = 5, // count 0 or above 162
    List = 6, // the frame ends inside the list

    // ---- opening an end, and every call of one
    PdcpLength = 7, // L is not 12, 15 or 18
    Closed = 9, // this end is closed
    Number = 10, // an X2-U number is M or more, or a PDCP number 2^L or more

    // ---- the secondary
    Late = 11, // forward from base to the number is more than M/2
    Again = 12, // the number already has a record
    Span = 13, // floor to base and base to the arrival are M/2 or more
    Runs = 14, // more than 256 runs would be listed
    Records = 15, // 512 records are held
    NoRecord = 16, // no record of that number, or not before base, or already confirmed
    NoGap = 17, // no open number before the mark
    Opposite = 18, // forward from base to the number is exactly M/2
    Mark = 19, // a mark less than M/2 forward from base and beyond the highest accepted, or so placed when nothing at or past base is accepted
    Room = 20, // buffer shorter than the frame
    FinalRuns = 22, // Final asked while listed runs exceed 162

    // ---- the master
    OtherType = 31, // the frame is not the bearer's status type
    HighestBits = 32, // highest PDCP is 2^L or more
    NotWaiting = 33, // the ranges are not strictly rising numbers of waiting entries
    NoSuchHighest = 34, // highest is neither the last accepted nor a waiting entry's left out of the ranges
    PdcpOrder = 35, // the PDCP number is H, or with entries waiting isn't past the last sent, or is half the space past the oldest waiting one's
    Entries = 36, // 512 entries are held
    Nothing = 38, // nothing to take
    Size = 39, // a PDU's size is outside 1 to 16,384 octets
}

// Its number.
impl From<Refusal> for u32 {
    ghost from_gives = { λ refusal n. n ≡ number_of refusal };

    fn from(refusal: Refusal) -> u32 {
        refusal as u32
    }
}
