// The tidy form of items: their numbers sorted by key, and the items written in that order. The numbers and the hints of the keys
// stand in arrays on the stack, small ones for a small segment, so that it does not pay for the largest.
#![tactic(auto)]

ghost use Rattle.std.specs.Prelude.{◌≡◌, ◌≤◌, length};
ghost use Rattle.segment.specs.Format.{record_limit};
ghost use Rattle.segment.specs.Shapes.{Shaped};
ghost use Rattle.put_form.specs.Emit.{Emitted};
ghost use Rattle.put_tidy.specs.ItemsForm.{AllLinesIn, form_in};

use answer::Refusal;
use put_form::Frame;
use put_item::Source;

// As many items as a segment can have.
const MOST: usize = segment::MOST_RECORDS as usize;

// As many items as there are numbers, written in tidy order.
fn arrange(
    frame: Frame,
    source: Source,
    hints: &mut [u32],
    numbers: &mut [u16],
    spare: &mut [u16],
    out: &mut [u8],
) -> Result<u64, Refusal>
    requires shaped { Shaped frame.shape }
    requires all_lines { AllLinesIn source (length numbers.old) }
    requires hints_len { length hints.old ≡ length numbers.old }
    requires numbers_in_bounds { length numbers.old ≤ length spare.old }
    requires numbers_len_bound { length numbers.old ≤ record_limit }
    ensures { Emitted (form_in frame.entry source.entry (length numbers.old)) out.old out.new result }
{
    key_sort::sorted(source.items, hints, numbers, spare);
    put_form::emit(frame, source, numbers, out)
}

// With hints and numbers for N items: arrays on the stack with n beside them, since the library has no heap.
fn arrange_within<const N: usize>(
    frame: Frame,
    source: Source,
    n: usize,
    out: &mut [u8],
) -> Result<u64, Refusal>
    requires N_bound { N ≤ record_limit }
    requires shaped { Shaped frame.shape }
    requires all_lines { AllLinesIn source n }
    requires n_bound { n ≤ N }
    ensures { Emitted (form_in frame.entry source.entry n) out.old out.new result }
{
    let mut hints = [0u32; N];
    let mut numbers = [0u16; N];
    let mut spare = [0u16; N];
    arrange(
        frame,
        source,
        &mut hints[..n],
        &mut numbers[..n],
        &mut spare[..],
        out,
    )
}

// The tidy form of n items, if it keeps to the limit and fits the output; else the output is left alone.
pub fn put_tidy(frame: Frame, source: Source, n: usize, out: &mut [u8]) -> Result<u64, Refusal>
    requires shaped { Shaped frame.shape }
    requires all_lines { AllLinesIn source n }
    requires n_le_record_limit { n ≤ record_limit }
    ensures { Emitted (form_in frame.entry source.entry n) out.old out.new result }
{
    if n <= 256 {
        return arrange_within::<256>(frame, source, n, out);
    }
    arrange_within::<MOST>(frame, source, n, out)
}
