// Numbers on a circle: how far it is forward from one number to another, how one lies to another, and the two circles of a bearer. `long` is the form, whose
// X2-U numbers are below its modulus; `bits` is L, the length of its PDCP numbers, and one that is none of document 01's counts as 18.
#![tactic(auto)]

ghost use Rattle.std.specs.Prelude.{◌≡◌, ◌+◌, ◌/◌, ◌%◌, ◌^◌, ◌<◌, min};
ghost use Rattle.circle.specs.Circle.{forward as «forward_of»};
ghost use Rattle.circle.specs.Sides.{lies as «lies_of»};
ghost use Rattle.circle.specs.Answers.{side_in};
ghost use Rattle.circle.specs.Lengths.{modulus as «modulus_of», is_length as «is_length_of», is_long as «is_long_of», length_in as «length_in_of», pdcps as «pdcps_of»};

// Forward from a to b, modulo 2^bits: the wrapping difference, reduced to that many bits. From 32 bits on
// there is nothing to reduce.
pub fn forward(a: u32, b: u32, bits: u32) -> u32
    ensures { result ≡ «forward_of» (2 ^ min bits 32) a b }
{
    let d = b.wrapping_sub(a);
    if bits < 32 {
        d & ((1u32 << bits) - 1)
    } else {
        d
    }
}

// ---- X2-U numbers, by the form

// The form stays one bool and L a number, as the definitions have them: an enum would put a map between each contract and them, and any word is an L.

// M: X2-U numbers are below it.
pub fn modulus(long: bool) -> u32
    ensures { result ≡ «modulus_of» long }
{
    if long { 16777216 } else { 65536 }
}

// Half of the X2-U numbers.
pub fn half(long: bool) -> u32
    ensures { result ≡ «modulus_of» long / 2 }
{
    modulus(long) / 2
}

// How far it is forward from one X2-U number to another.
pub fn distance(a: u32, b: u32, long: bool) -> u32
    ensures { result ≡ «forward_of» («modulus_of» long) a b }
{
    if long {
        return forward(a, b, 24);
    }
    forward(a, b, 16)
}

// The X2-U number so far forward from another. A sum that wraps at 2^32 is the same number.
pub fn onward(number: u32, distance: u32, long: bool) -> u32
    ensures { result ≡ (number + distance) % «modulus_of» long }
{
    number.wrapping_add(distance) & (modulus(long) - 1)
}

// How one X2-U number lies to another.
#[derive(Clone, Copy, Debug, PartialEq, Eq)]
pub enum Side {
    Same,
    Ahead,
    Behind,
    Opposite, // exactly half the circle away
}

// How a number lies as seen from another.
pub fn lies(from: u32, number: u32, long: bool) -> Side
    ensures { side_in result ≡ «lies_of» («modulus_of» long) from number }
{
    let way = distance(from, number, long);
    let halfway = half(long);
    if way < halfway {
        if way == 0 {
            return Side::Same;
        }
        return Side::Ahead;
    }
    if way == halfway {
        return Side::Opposite;
    }
    Side::Behind
}

// ---- L, and what follows from it

// Whether L is one of document 01's.
pub fn is_length(bits: u32) -> bool
    ensures { result ≡ «is_length_of» bits }
{
    matches!(bits, 12 | 15 | 18)
}

// L, as a word of any content says it.
pub fn length_in(bits: u32) -> u32
    ensures { (result ≡ «length_in_of» bits) × (result < 32) }
{
    match bits {
        12 | 15 => bits,
        _ => 18,
    }
}

// Whether the form is long.
pub fn is_long(bits: u32) -> bool
    ensures { result ≡ «is_long_of» («length_in_of» bits) }
{
    !matches!(bits, 12 | 15)
}

// 2^L: PDCP numbers are below it.
pub fn pdcps(bits: u32) -> u32
    ensures { result ≡ «pdcps_of» («length_in_of» bits) }
{
    1 << length_in(bits)
}
