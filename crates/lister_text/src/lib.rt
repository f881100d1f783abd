// Texts on an output and lines of an input, for the lister and for others: octets read from hexadecimal, texts and decimals laid
// where there is room for them, and the place where a line ends.
#![tactic(auto)]

ghost use Rattle.std.specs.Prelude.{◌≡◌, ◌+◌, ◌<◌, ◌≤◌, ◌∷◌, [], length, nat_le, slice_index, take};
ghost use Rattle.basics.specs.Laid.{Room, Laid};
ghost use Rattle.lister_text.specs.Texts.{decimal as «decimal_of», LineEnd};
ghost use Rattle.lister_text.specs.Outputs.{fitted, Lays};
ghost use Rattle.lister_text.specs.Hexadecimal.{among, digit_of, octet_said, decoded_of, decoded_into};

pub const LINE_FEED: u8 = b'\n';

pub const TAB: u8 = b'\t';

pub const COMMA: u8 = b',';

pub const DASH: u8 = b'-';

pub const MOST_DIGITS: usize = 2 * frame_layout::MOST_OCTETS; // the digits of the longest frame

// ---- hexadecimal

// The value of c among count characters from first on, the first of which has the value given; other if it is none of
// them. Nothing but the choice of a value hangs on the test, so that mixed digits cost no jumps: by the library's `to_digit` and its
// Option the lister takes 2.1 times the time of Rust's, and by this 1.4; its goal is 2.
fn value_among(first: u8, count: u32, value: u32, c: u8, other: u32) -> u32
    requires { (first + count ≤ 256) × (value ≤ 16) }
    ensures { result ≡ among first count value c other }
{
    let place = u32::from(c.wrapping_sub(first));
    if place < count { value + place } else { other }
}

// The value of a digit of either letter case; 256, more than any octet, for another character.
fn digit(c: u8) -> u32
    ensures { result ≡ digit_of c }
{
    let lower = value_among(b'a', 6, 10, c, 256);
    let upper = value_among(b'A', 6, 10, c, lower);
    value_among(b'0', 10, 0, c, upper)
}

// The octet that two digits from place i on say.
fn octet_at(line: &[u8], i: usize) -> Option<u8>
    requires { i + 1 < length line.now }
    ensures { result ≡ octet_said (slice_index line.now i) (slice_index line.now (i + 1)) }
{
    u8::try_from(digit(line[i]) * 16 + digit(line[i + 1])).ok()
}

// Decodes a line into the front of a frame's buffer, and answers how many octets it says; none where it can't be read.
pub fn decode(line: &[u8], frame: &mut frame_layout::FrameArray) -> Option<usize>
    ensures { (result ≡ decoded_of line.now) × (frame.new ≡ decoded_into line.now frame.old) }
{
    let n = line.len();
    if MOST_DIGITS < n || n % 2 != 0 {
        return None;
    }
    for k in 0..n / 2 {
        frame[k] = octet_at(line, 2 * k)?;
    }
    Some(n / 2)
}

// ---- texts, each laid on an output behind what stands there

// Whether n octets from a place on lie within a size.
pub fn fits(size: usize, at: usize, n: usize) -> bool
    ensures { result ≡ nat_le (at + n) size }
{
    at <= size && n <= size - at
}

// An output of octets, and the place where the next text is laid.
#[derive(Drop)]
pub struct Output<'a> {
    pub octets: &'a mut [u8],
    pub at: usize,
}

impl Output<'_> {
    // What stands before that place.
    pub fn laid(&self) -> &[u8]
        ensures { result.now ≡ take self.now.at self.now.octets.now }
    {
        basics::front(self.octets, self.at)
    }

    // Whether it has room for so many octets more.
    pub fn fits(&self, n: usize) -> bool
        ensures { result ≡ nat_le (self.now.at + n) (length self.now.octets.now) }
    {
        fits(self.octets.len(), self.at, n)
    }

    // Lays a text where there is room for it. Without the room nothing changes.
    pub fn text(&mut self, text: &[u8])
        ensures { Lays self.old (fitted self.old text.now) self.new }
    {
        if self.fits(text.len()) {
            let end = self.at + text.len();
            self.octets[self.at..end].copy_from_slice(text);
            self.at = end;
        }
    }

    // Lays one character so.
    pub fn octet(&mut self, c: u8)
        ensures { Lays self.old (fitted self.old (c ∷ [])) self.new }
    {
        self.text(&[c]);
    }

    // Lays a number so, in decimal: in place, since the library's digits would have to be copied, and one digit by itself, since 0 has no `ilog10`.
    pub fn decimal(&mut self, n: u32)
        ensures { Lays self.old (fitted self.old («decimal_of» n)) self.new }
    {
        if n < 10 {
            self.octet(b'0' + n as u8);
            return;
        }
        let count = n.ilog10() as usize + 1;
        if self.fits(count) {
            self.at = put_decimal(n, count, self.octets, self.at);
        }
    }
}

// A number of so many digits in decimal, from its last digit to its first. What is left of it says where it ends, so no iterator counts the turns.
fn put_decimal(n: u32, count: usize, out: &mut [u8], at: usize) -> usize
    requires { (count ≡ length («decimal_of» n)) × Room out.old at count }
    ensures { Laid out.old at («decimal_of» n) result out.new }
{
    let end = at + count;
    let mut i = end - 1;
    let mut rest = n;
    while 10 <= rest {
        out[i] = b'0' + (rest % 10) as u8;
        rest /= 10;
        i -= 1;
    }
    out[i] = b'0' + rest as u8;
    end
}

// ---- lines

// The place of the first line feed of a block, if it has one.
pub fn line_end(block: &[u8]) -> Option<usize>
    ensures { LineEnd block.now result }
{
    block.iter().position(|&c| c == LINE_FEED)
}
