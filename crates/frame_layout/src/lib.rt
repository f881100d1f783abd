// The frames of TS 36.425 V15.0.0, 5.5: the figures of the layout and what the two forms differ in, for reader and writer. The
// layout itself stands in specs/Frames.antt, on lists of octets.
#![tactic(auto)]

ghost use Rattle.std.specs.Prelude.{◌≡◌, ◌+◌, ◌*◌, ◌≤◌, ◌<◌};
ghost use Rattle.frame_layout.specs.Frames.{width as «width_of», most_highest as «most_highest_of», data_type as «data_type_of», status_type as «status_type_of», count_at as «count_at_of», list_at as «list_at_of», padding as «padding_of»};
ghost use Rattle.frame_layout.specs.Types.{number_of};

// The least length of a frame.
pub const LEAST_OCTETS: usize = 6;

// The greatest length of a frame.
pub const MOST_OCTETS: usize = 1018;

// The most ranges that a status carries.
pub const MOST_RANGES: usize = 162;

// Room for any frame.
pub type FrameArray = [u8; MOST_OCTETS];

// Room for one number of each range of a status.
pub type RangeArray = [u32; MOST_RANGES];

// A range runs forward from start through end.
#[derive(Clone, Copy, Debug, PartialEq, Eq)]
pub struct Range {
    pub start: u32,
    pub end: u32,
}

// ---- what the two forms differ in: a figure each, so that no function of them all would be plainer than these

// The form stays one bool, as the definitions have it: an enum would put a map between each contract and them.

// How many octets an X2-U number or the highest PDCP number takes.
pub fn width(long: bool) -> usize
    ensures { (result ≡ «width_of» long) × (2 ≤ result) × (result ≤ 3) }
{
    if long { 3 } else { 2 }
}

// Where the count of a status stands, if it has a list.
pub fn count_at(long: bool) -> usize
    ensures { (result ≡ «count_at_of» («width_of» long)) × (result ≤ 12) }
{
    9 + width(long)
}

// Where the first range of its list stands.
pub fn list_at(long: bool) -> usize
    ensures { (result ≡ «list_at_of» («width_of» long)) × (result ≤ 13) }
{
    10 + width(long)
}

// Where a list of so many ranges ends.
pub fn list_end(long: bool, count: u32) -> usize
    ensures { result ≡ «list_at_of» («width_of» long) + count * (2 * «width_of» long) }
{
    list_at(long) + count as usize * (2 * width(long))
}

// The fewest zero octets that make a length 4k - 2: the remainder of (2 - length) modulo 4, with 4 more so as not to go below zero.
pub fn padding(length: usize) -> usize
    ensures { result ≡ «padding_of» length }
{
    (4 + 2 - length % 4) % 4
}

// The greatest highest PDCP number that a status may bear.
pub fn most_highest(long: bool) -> u32
    ensures { result ≡ «most_highest_of» long }
{
    if long { 262143 } else { 32767 }
}

// The types of the frames that are read and written, each with its number.
#[derive(Clone, Copy, Debug, PartialEq, Eq)]
pub enum FrameType {
    Data = 0,
    Status = 1,
    LongStatus = 2,
    LongData = 3,
}

// Its number.
impl From<FrameType> for u8 {
    ghost from_gives = { λ kind n. n ≡ number_of kind };

    fn from(kind: FrameType) -> u8 {
        kind as u8
    }
}

// The type of a data frame.
pub fn data_type(long: bool) -> FrameType
    ensures { number_of result ≡ «data_type_of» long }
{
    if long {
        FrameType::LongData
    } else {
        FrameType::Data
    }
}

// The type of a status frame.
pub fn status_type(long: bool) -> FrameType
    ensures { number_of result ≡ «status_type_of» long }
{
    if long {
        FrameType::LongStatus
    } else {
        FrameType::Status
    }
}
