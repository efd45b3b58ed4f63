//! What the inputs of a design hold between the lines of a script, and which vectors may come next.
ghost use Rattle.std.specs.Prelude.{◌≡◌, ◌<◌, ◌==◌, ◌||◌, not, length, replicate, zip, slice_get, All};
ghost use Rattle.std.specs.List.{list_all, list_any};
ghost use Rattle.vod_thin_design.specs.Netlist.{is_clock};
ghost use Rattle.vod_thin_design.specs.declared.thin.Bit.TheVariants.{Z};
ghost use Rattle.vod_thin_design.specs.Bits as bits;
ghost use Rattle.vod_thin_script.specs.Held.{written, leaves, same_class, is_of, change_only, are_unmixed, suits, opens};

use vod_thin_design::{Bit, Class, Input, Move};

fn same_class(wanted: Class, class: Class) -> bool
    ensures { result ≡ same_class wanted class }
{
    class == wanted
}

/// Whether the input with this number, where there is one, is of the class.
fn is_of(class: Class, inputs: &[Input], input: u32) -> bool
    ensures { result ≡ is_of class (slice_get inputs.now input) }
{
    match inputs.get(input as usize) {
        Some(input) => same_class(class, input.class),
        None => true,
    }
}

fn leaves(values: &[Bit], assignment: &Move) -> bool
    ensures { result ≡ leaves values.now assignment.now }
{
    let value = values.get(assignment.input as usize).copied();
    value.unwrap_or(Bit::X) == assignment.value
}

/// Whether what some assignments change is all of one class.
fn change_only(inputs: &[Input], values: &[Bit], class: Class, moves: &[Move]) -> bool
    ensures { result ≡ change_only inputs.now values.now class moves.now }
{
    moves.iter().all(|assignment| leaves(values, assignment)
        || is_of(class, inputs, assignment.input))
}

/// Whether what some assignments change is all of clocks or all of data.
pub fn are_unmixed(inputs: &[Input], values: &[Bit], moves: &[Move]) -> bool
    ensures { result ≡ are_unmixed inputs.now values.now moves.now }
{
    change_only(inputs, values, Class::Clock, moves)
        || change_only(inputs, values, Class::Data, moves)
}

fn suits(input: &Input, assigned: bool) -> bool
    ensures { result ≡ suits input.now assigned }
{
    match input.class {
        Class::Clock => !assigned,
        Class::Data => assigned,
    }
}

fn has_data(inputs: &[Input]) -> bool
    ensures { result ≡ list_any (λ input. not (is_clock input.class)) inputs.now }
{
    inputs
        .iter()
        .any(|input| same_class(Class::Data, input.class))
}

fn is_known(value: Bit) -> bool
    ensures { result ≡ bits.is_known value }
{
    matches!(value, Bit::Zero | Bit::One)
}

/// Whether all values are known.
pub fn are_known(values: &[Bit]) -> bool
    ensures { result ≡ list_all bits.is_known values.now }
{
    values.iter().all(|value| is_known(*value))
}

fn known_suit(inputs: &[Input], values: &[Bit]) -> bool
    ensures { result ≡ list_all (λ e. suits e.0 (bits.is_known e.1)) (zip inputs.now values.now) }
{
    inputs
        .iter()
        .zip(values)
        .all(|(input, value)| suits(input, is_known(*value)))
}

fn opens(inputs: &[Input], values: &[Bit]) -> bool
    ensures { result ≡ opens inputs.now values.now }
{
    !has_data(inputs) || known_suit(inputs, values)
}

/// Whether some assignments may be those of the first vector: of all data and of no clock, where there is data. No input has a
/// value before and after the call.
pub fn may_begin(inputs: &[Input], values: &mut [Bit], moves: &[Move]) -> bool
    requires within { All (λ move. move.input < length values.old) moves.now }
    requires fresh { values.old ≡ replicate (length values.old) Z }
    ensures kept { values.new ≡ values.old }
    ensures begins { result ≡ opens inputs.now (written values.old moves.now) }
{
    write(values, moves);
    let begins = opens(inputs, values);
    values.fill(Bit::Z);
    begins
}

/// Notes the values that some assignments give.
pub fn write(values: &mut [Bit], moves: &[Move])
    requires { All (λ move. move.input < length values.old) moves.now }
    ensures same { length values.new ≡ length values.old }
    ensures values { values.new ≡ written values.old moves.now }
{
    for assignment in moves {
        values[assignment.input as usize] = assignment.value;
    }
}
