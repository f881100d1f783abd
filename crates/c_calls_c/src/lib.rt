// What C calls of the crate c_calls, under the same names and with the same contracts: reading a frame range by range, and the
// secondary's loss keeper. include/x2u.h has C's side.
#![tactic(auto)]

ghost use Rattle.std.specs.Prelude.{◌≡◌, ℕ, pos, negsuc};
ghost use Rattle.basics.specs.Basics.{is_set};
ghost use Rattle.frame_layout.specs.Frames.{read_frame};
ghost use Rattle.bearer.specs.Keeper.{open_keeper, arrive, expire, confirm, status, anything};
ghost use Rattle.keeper.specs.View.{keeper_in, opens_into, arrays};
ghost use Rattle.keeper.specs.Plain.{Plain};
ghost use Rattle.c_calls.specs.Boundary.{leaves, counts, settles, reports, tells, reads, cursor_in, begins, step_in, steps};

// Reads a frame: its type, 0 to 3. The fields are the X2-U number of data, and of a status the highest PDCP number, the desired
// size, the minimum size, Final as 0 or 1, and how many ranges, each in a place of its own; a field that the frame hasn't is 0.
#[unsafe(no_mangle)]
pub extern "C" fn x2u_read(frame: &[u8], fields: &mut c_calls::FieldArray) -> i64
    ensures { leaves result fields.new ≡ reads fields.old (read_frame frame.now) }
{
    c_calls::x2u_read(frame, fields)
}

// Puts a cursor before the first range of a frame: how many ranges it has, which for data is none.
#[unsafe(no_mangle)]
pub extern "C" fn x2u_first_range(frame: &[u8], cursor: &mut c_calls::CursorArray) -> i64
    ensures { leaves result cursor.new ≡ begins cursor.old (read_frame frame.now) }
{
    c_calls::x2u_first_range(frame, cursor)
}

// Takes the range at a cursor: 1, or 0 where none is left.
#[unsafe(no_mangle)]
pub extern "C" fn x2u_next_range(
    frame: &[u8],
    cursor: &mut c_calls::CursorArray,
    range: &mut c_calls::EndArray,
) -> i64
    ensures { leaves result (cursor.new, range.new)
        ≡ steps cursor.old range.old (step_in frame.now (cursor_in cursor.old)) }
{
    c_calls::x2u_next_range(frame, cursor, range)
}

// Opens the end: 0.
#[unsafe(no_mangle)]
pub extern "C" fn x2u_keeper_open(
    numbers: &mut keeper::RecordArray,
    pdcps: &mut keeper::RecordArray,
    marks: &mut keeper::RecordArray,
    starts: &mut keeper::RunArray,
    ends: &mut keeper::RunArray,
    words: &mut keeper::WordArray,
    length: u32,
    number: u32,
    pdcp: u32,
) -> i64
    ensures words_after { leaves result (keeper_in numbers.new pdcps.new marks.new starts.new ends.new words.new)
        ≡ settles (opens_into (keeper_in numbers.old pdcps.old marks.old starts.old ends.old words.old) (open_keeper length number pdcp)) }
    ensures unchanged { (n : ℕ) → result ≡ negsuc n → arrays numbers.new pdcps.new marks.new starts.new ends.new words.new
        ≡ arrays numbers.old pdcps.old marks.old starts.old ends.old words.old }
    ensures plain { (n : ℕ) → result ≡ pos n → Plain words.new marks.new }
{
    c_calls::x2u_keeper_open(
        numbers, pdcps, marks, starts, ends, words, length, number, pdcp,
    )
}

// Arrival of a number and a PDCP number: how many numbers became lost.
#[unsafe(no_mangle)]
pub extern "C" fn x2u_keeper_arrive(
    numbers: &mut keeper::RecordArray,
    pdcps: &mut keeper::RecordArray,
    marks: &mut keeper::RecordArray,
    starts: &mut keeper::RunArray,
    ends: &mut keeper::RunArray,
    words: &mut keeper::WordArray,
    number: u32,
    pdcp: u32,
) -> i64
    ensures words_after { leaves result (keeper_in numbers.new pdcps.new marks.new starts.new ends.new words.new)
        ≡ counts (arrive (keeper_in numbers.old pdcps.old marks.old starts.old ends.old words.old) number pdcp) }
    ensures unchanged { (n : ℕ) → result ≡ negsuc n → arrays numbers.new pdcps.new marks.new starts.new ends.new words.new
        ≡ arrays numbers.old pdcps.old marks.old starts.old ends.old words.old }
    ensures plain { Plain words.old marks.old → Plain words.new marks.new }
{
    c_calls::x2u_keeper_arrive(numbers, pdcps, marks, starts, ends, words, number, pdcp)
}

// Expiry of what is open before a mark: how many numbers became lost.
#[unsafe(no_mangle)]
pub extern "C" fn x2u_keeper_expire(
    numbers: &mut keeper::RecordArray,
    pdcps: &mut keeper::RecordArray,
    marks: &mut keeper::RecordArray,
    starts: &mut keeper::RunArray,
    ends: &mut keeper::RunArray,
    words: &mut keeper::WordArray,
    mark: u32,
) -> i64
    ensures words_after { leaves result (keeper_in numbers.new pdcps.new marks.new starts.new ends.new words.new)
        ≡ counts (expire (keeper_in numbers.old pdcps.old marks.old starts.old ends.old words.old) mark) }
    ensures unchanged { (n : ℕ) → result ≡ negsuc n → arrays numbers.new pdcps.new marks.new starts.new ends.new words.new
        ≡ arrays numbers.old pdcps.old marks.old starts.old ends.old words.old }
    ensures plain { Plain words.old marks.old → Plain words.new marks.new }
{
    c_calls::x2u_keeper_expire(numbers, pdcps, marks, starts, ends, words, mark)
}

// A number is confirmed: 0.
#[unsafe(no_mangle)]
pub extern "C" fn x2u_keeper_confirm(
    numbers: &mut keeper::RecordArray,
    pdcps: &mut keeper::RecordArray,
    marks: &mut keeper::RecordArray,
    starts: &mut keeper::RunArray,
    ends: &mut keeper::RunArray,
    words: &mut keeper::WordArray,
    number: u32,
) -> i64
    ensures words_after { leaves result (keeper_in numbers.new pdcps.new marks.new starts.new ends.new words.new)
        ≡ settles (confirm (keeper_in numbers.old pdcps.old marks.old starts.old ends.old words.old) number) }
    ensures unchanged { (n : ℕ) → result ≡ negsuc n → arrays numbers.new pdcps.new marks.new starts.new ends.new words.new
        ≡ arrays numbers.old pdcps.old marks.old starts.old ends.old words.old }
    ensures plain { Plain words.old marks.old → Plain words.new marks.new }
{
    c_calls::x2u_keeper_confirm(numbers, pdcps, marks, starts, ends, words, number)
}

// A status frame at the front of a buffer: how many octets it has.
#[unsafe(no_mangle)]
pub extern "C" fn x2u_keeper_status(
    numbers: &mut keeper::RecordArray,
    pdcps: &mut keeper::RecordArray,
    marks: &mut keeper::RecordArray,
    starts: &mut keeper::RunArray,
    ends: &mut keeper::RunArray,
    words: &mut keeper::WordArray,
    desired: u32,
    minimum: u32,
    last: u32,
    dst: &mut [u8],
) -> i64
    ensures dst_after { leaves result ((keeper_in numbers.new pdcps.new marks.new starts.new ends.new words.new), dst.new)
        ≡ reports (status (keeper_in numbers.old pdcps.old marks.old starts.old ends.old words.old) desired minimum (is_set last) dst.old) }
    ensures unchanged { (n : ℕ) → result ≡ negsuc n → arrays numbers.new pdcps.new marks.new starts.new ends.new words.new
        ≡ arrays numbers.old pdcps.old marks.old starts.old ends.old words.old }
    ensures plain { Plain words.old marks.old → Plain words.new marks.new }
{
    c_calls::x2u_keeper_status(
        numbers, pdcps, marks, starts, ends, words, desired, minimum, last, dst,
    )
}

// Anything to say: 1 for yes, 0 for no.
#[unsafe(no_mangle)]
pub extern "C" fn x2u_keeper_anything(
    numbers: &keeper::RecordArray,
    pdcps: &keeper::RecordArray,
    marks: &keeper::RecordArray,
    starts: &keeper::RunArray,
    ends: &keeper::RunArray,
    words: &keeper::WordArray,
) -> i64
    ensures { result ≡ tells (anything (keeper_in numbers.now pdcps.now marks.now starts.now ends.now words.now)) }
{
    c_calls::x2u_keeper_anything(numbers, pdcps, marks, starts, ends, words)
}
