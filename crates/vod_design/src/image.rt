//! Images: registers, memory words and inputs at the end of a slot, as known numbers.
ghost use Rattle.std.specs.Prelude.{◌≡◌, ◌&&◌, nat_lt, nat_le, ◌^◌, ◌==◌, true, drop, length, filter, replicate, ◌++◌, ◌∷◌, ◌≤◌, ◌+◌, map, ℕ, List, IfOk};
ghost use Rattle.std.specs.List.{list_all};
ghost use Rattle.vod_design.specs.Image.{register_widths, word_widths, data_widths, edge_inputs, data_inputs, is_data, starts_below, is_empty, are_below, start_below, are_edges, fits, blank};
ghost use Rattle.vod_design.specs.Netlist.{Netlist, width_in, words_in};

use crate::{Class, Design, Input, Memory, Ram, Signal};
use std::alloc::{AllocError, Global};
use std::marker::Model;

/// Numbers of registers, words or inputs, which contracts see as their list.
#[derive(Drop)]
pub struct Words {
    numbers: Vec<u64>,
}

impl Model for Words {
    ghost use Rattle.std.specs.Prelude.{List, ℕ};

    ghost Value = { List ℕ };

    ghost view = { λ w. w.numbers.items };
}

impl Words {
    /// These numbers, in this order; it takes no memory.
    pub fn new(numbers: Vec<u64>) -> Words
        ensures { result ≡ numbers.items }
    {
        Words { numbers }
    }

    /// The numbers.
    pub fn as_slice(&self) -> &[u64]
        ensures { result.now ≡ self.now }
    {
        self.numbers.as_slice()
    }
}

/// For each clock and reset 0 or 1, or 2 where it wasn't given, which contracts see as their list.
#[derive(Drop)]
pub struct Edges {
    values: Vec<u8>,
}

impl Model for Edges {
    ghost use Rattle.std.specs.Prelude.{List, ℕ};

    ghost Value = { List ℕ };

    ghost view = { λ e. e.values.items };
}

impl Edges {
    /// These values, in this order; it takes no memory.
    pub fn new(values: Vec<u8>) -> Edges
        ensures { result ≡ values.items }
    {
        Edges { values }
    }

    /// The values.
    pub fn as_slice(&self) -> &[u8]
        ensures { result.now ≡ self.now }
    {
        self.values.as_slice()
    }
}

/// An image of a design's state: the numbers of registers in the order of the signals, of memory words by memory and rising
/// address, and of data inputs; and for each other input its edge value.
#[derive(Drop)]
pub struct Image {
    pub regs: Words,
    pub words: Words,
    pub given: Words,
    pub edges: Edges,
}

impl Image {
    /// Whether the image fits a design: the lists have the design's lengths, each number is below 2^width of its register, memory
    /// or input, and each edge value is 0, 1 or 2.
    pub fn fit(&self, design: &Design) -> bool
        ensures { result ≡ fits design.now.netlist self.now }
    {
        let signals = design.signals();
        let inputs = design.inputs();
        let state = both(
            registers_fit(self.regs.as_slice(), signals),
            words_fit(self.words.as_slice(), design.memories()),
        );
        let given = both(
            data_fit(self.given.as_slice(), signals, inputs),
            edges_fit(self.edges.as_slice(), edge_count(inputs)),
        );
        both(state, given)
    }

    /// An image in which each number is 0 and no edge value is given. It fits the design.
    pub fn blank(alloc: Global, design: &Design) -> Result<Image, Memory>
        ensures { IfOk result (λ i. i ≡ blank design.now.netlist) }
    {
        design.keeps_rules();
        let regs = zeros(alloc, register_count(design.signals()))?;
        let words = zeros(alloc, word_count(design.memories()))?;
        let given = zeros(alloc, data_count(design.inputs()))?;
        let edges = not_given(alloc, edge_count(design.inputs()))?;
        Ok(Image {
            regs,
            words,
            given,
            edges,
        })
    }
}

// The value of an edge input that wasn't given.
const NOT_GIVEN: u8 = 2;

// So many zeros.
fn zeros(alloc: Global, count: usize) -> Result<Words, AllocError>
    ensures { IfOk result (λ w. w ≡ replicate count 0) }
{
    let numbers = vec![in alloc; 0; count]?;
    Ok(Words::new(numbers))
}

// So many edge values that weren't given.
fn not_given(alloc: Global, count: usize) -> Result<Edges, AllocError>
    ensures { IfOk result (λ e. e ≡ replicate count 2) }
{
    let values = vec![in alloc; NOT_GIVEN; count]?;
    Ok(Edges::new(values))
}

/// A blank image fits its design.
pub fn blank_image_fits()
    ensures { (d : Netlist) → fits d (blank d) ≡ true }
{}

// Numbers that are compared with widths one by one: whether all so far were below, and those that are left.
#[derive(Clone, Copy)]
struct Rest<'n> {
    fit: bool,
    numbers: &'n [u64],
}

// Whether there is a first number, of at most so many bits.
fn starts_below(numbers: &[u64], width: u8) -> bool
    ensures { result ≡ starts_below numbers.now width }
{
    match numbers.first() {
        None => false,
        Some(number) => has_width(*number, width),
    }
}

// Whether a number has at most so many bits.
fn has_width(number: u64, width: u8) -> bool
    ensures { result ≡ nat_lt number (2 ^ width) }
{
    if width < 64 {
        number >> width == 0
    } else {
        true
    }
}

// The numbers behind the first.
fn behind(numbers: &[u64]) -> &[u64]
    ensures { result.now ≡ drop 1 numbers.now }
{
    match numbers.split_first() {
        None => numbers,
        Some((_, rest)) => rest,
    }
}

impl<'n> Rest<'n> {
    // Compares one number more with its width.
    fn past(self, width: u8) -> Rest<'n>
        ensures fit { result.fit ≡ (self.entry.fit && starts_below self.entry.numbers.now width) }
        ensures rest { result.numbers.now ≡ drop 1 self.entry.numbers.now }
    {
        Rest {
            fit: both(self.fit, starts_below(self.numbers, width)),
            numbers: behind(self.numbers),
        }
    }

    // Compares so many numbers more with one width.
    fn past_all(self, count: u32, width: u8) -> Rest<'n>
        ensures fit { result.fit ≡ (self.entry.fit && start_below self.entry.numbers.now count width) }
        ensures rest { result.numbers.now ≡ drop count self.entry.numbers.now }
    {
        let mut rest = self;
        for _ in 0..count {
            rest = rest.past(width);
        }
        rest
    }

    // Whether all were below, and none is left.
    fn has_ended(self) -> bool
        ensures { result ≡ (self.entry.fit && is_empty self.entry.numbers.now) }
    {
        both(self.fit, self.numbers.is_empty())
    }
}

// Whether both hold.
fn both(a: bool, b: bool) -> bool
    ensures { result ≡ (a && b) }
{
    a && b
}

// Whether an input is data.
fn is_data(input: &Input) -> bool
    ensures { result ≡ is_data input.now.class }
{
    match input.class {
        Class::Clock | Class::Reset => false,
        Class::Data => true,
    }
}

// How many bits a signal has, 0 where there is no such signal.
fn width_in(signals: &[Signal], signal: u32) -> u8
    ensures { result ≡ width_in signals.now signal }
{
    match signals.get(signal as usize) {
        None => 0,
        Some(signal) => signal.width,
    }
}

// Whether the numbers are those of registers.
fn registers_fit(numbers: &[u64], signals: &[Signal]) -> bool
    ensures { result ≡ are_below numbers.now (register_widths signals.now) }
{
    let mut rest = Rest { fit: true, numbers };
    for signal in signals {
        if signal.register {
            rest = rest.past(signal.width);
        }
    }
    rest.has_ended()
}

// Whether the numbers are those of memory words.
fn words_fit(numbers: &[u64], memories: &[Ram]) -> bool
    ensures { result ≡ are_below numbers.now (word_widths memories.now) }
{
    let mut rest = Rest { fit: true, numbers };
    for memory in memories {
        rest = rest.past_all(memory.words, memory.width);
    }
    rest.has_ended()
}

// Whether the numbers are those of data inputs.
fn data_fit(numbers: &[u64], signals: &[Signal], inputs: &[Input]) -> bool
    ensures { result ≡ are_below numbers.now (data_widths (width_in signals.now) inputs.now) }
{
    let mut rest = Rest { fit: true, numbers };
    for input in inputs {
        if is_data(input) {
            rest = rest.past(width_in(signals, input.signal));
        }
    }
    rest.has_ended()
}

// Whether there are so many edge values, each 0, 1 or 2.
fn edges_fit(edges: &[u8], count: usize) -> bool
    ensures { result ≡ are_edges edges.now count }
{
    let mut fit = edges.len() == count;
    for edge in edges {
        fit = both(fit, *edge <= NOT_GIVEN);
    }
    fit
}

// How many inputs are clocks or resets.
fn edge_count(inputs: &[Input]) -> usize
    ensures { result ≡ length (edge_inputs inputs.now) }
{
    let mut count = 0;
    for input in inputs {
        if !is_data(input) {
            count += 1;
        }
    }
    count
}

// How many inputs are data.
fn data_count(inputs: &[Input]) -> usize
    ensures { result ≡ length (data_inputs inputs.now) }
{
    let mut count = 0;
    for input in inputs {
        if is_data(input) {
            count += 1;
        }
    }
    count
}

// How many signals are registers.
fn register_count(signals: &[Signal]) -> usize
    ensures { result ≡ length (register_widths signals.now) }
{
    let mut count = 0;
    for signal in signals {
        if signal.register {
            count += 1;
        }
    }
    count
}

// How many words the memories have.
fn word_count(memories: &[Ram]) -> usize
    requires { words_in memories.now ≤ 65536 }
    ensures { result ≡ length (word_widths memories.now) }
{
    let mut count = 0;
    for memory in memories {
        count += memory.words as usize;
    }
    count
}
