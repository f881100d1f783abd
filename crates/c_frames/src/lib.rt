// The C boundary of whole frames: reading one with all its ranges in one call, and writing one. Answers, flags and forms are as
// in the crate c_calls, which has the other calls. These have an object of their own, where reader and writer have one caller each.
#![tactic(auto)]

ghost use Rattle.std.specs.Prelude.{◌≡◌};
ghost use Rattle.frame_layout.specs.Frames.{ranges_of, read_frame, write_data, write_status};
ghost use Rattle.basics.specs.Basics.{is_set};
ghost use Rattle.c_calls.specs.Boundary.{leaves, writes, reads_all};

// ---- reading

// Reads a frame with all its ranges in one call: the type and the fields as x2u_read has them, and the ranges at the front of
// starts and ends, whose other places stay as they were.
#[unsafe(no_mangle)]
pub extern "C" fn x2u_read_all(
    frame: &[u8],
    fields: &mut c_calls::FieldArray,
    starts: &mut frame_layout::RangeArray,
    ends: &mut frame_layout::RangeArray,
) -> i64
    ensures { leaves result (fields.new, starts.new, ends.new)
        ≡ reads_all fields.old starts.old ends.old (read_frame frame.now) }
{
    let seen = c_calls::look(frame, fields);
    if let Ok(kind) = seen {
        if let Some(at) = c_calls::before_first(kind, fields[c_calls::RANGES]) {
            frame_reader::put_ranges(frame, at, starts, ends);
        }
    }
    c_calls::answer(seen)
}

// ---- writing

// Writes a data frame at the front of a buffer: how many octets it has.
#[unsafe(no_mangle)]
pub extern "C" fn x2u_write_data(long: u32, number: u32, dst: &mut [u8]) -> i64
    ensures { leaves result dst.new ≡ writes (write_data (is_set long) number dst.old) }
{
    c_calls::answer(frame_writer::write_data(basics::is_set(long), number, dst))
}

// Writes a status frame at the front of a buffer: how many octets it has. Range i is starts[i] to ends[i]. C gives its fields by
// name, to an inline function of the header that calls this one.
#[unsafe(no_mangle)]
pub extern "C" fn x2u_write_status_parts(
    long: u32,
    last: u32,
    highest: u32,
    desired: u32,
    minimum: u32,
    starts: &[u32],
    ends: &[u32],
    dst: &mut [u8],
) -> i64
    ensures { leaves result dst.new
        ≡ writes (write_status (record { long = is_set long; final = is_set last; highest = highest; desired = desired; minimum = minimum; ranges = ranges_of starts.now ends.now }) dst.old) }
{
    let head = frame_writer::Head {
        long: basics::is_set(long),
        last: basics::is_set(last),
        highest,
        desired,
        minimum,
    };
    c_calls::answer(frame_writer::write_status(head, starts, ends, dst))
}
