//! What a numbering of components is checked for.
ghost use Rattle.std.specs.Prelude.{◌≡◌, ℕ, ◌<◌, ◌^◌, [], length, All, IsTrue, slice_index, slice_index_or};
ghost use Rattle.vod_components.specs.Checks.{Falls, HasEarlier, IsFirst, IsLed, AreLed, AreFirsts};

use vod_fanout::{FanOut, Feed};

/// Whether no node has a lower number than one that an edge of it leads to.
pub fn falls(edges: &[Feed], numbers: &[u32]) -> bool
    requires sources { All (λ f. f.source < length numbers.now) edges.now }
    requires readers { All (λ f. f.reader < length numbers.now) edges.now }
    ensures { IsTrue result → Falls numbers.now edges.now }
{
    for edge in edges {
        if numbers[edge.source as usize] < numbers[edge.reader as usize] {
            return false;
        }
    }
    true
}

/// Whether the node of each component is of it.
pub fn are_firsts(numbers: &[u32], nodes: &[u32]) -> bool
    ensures { IsTrue result → AreFirsts numbers.now nodes.now }
{
    for (number, node) in nodes.iter().enumerate() {
        if !is_of(numbers, *node, number) {
            return false;
        }
    }
    true
}

// Whether a node is of the component of a number.
fn is_of(numbers: &[u32], node: u32, number: usize) -> bool
    ensures within { IsTrue result → node < length numbers.now }
    ensures of { IsTrue result → slice_index numbers.now node ≡ number }
{
    match numbers.get(node as usize) {
        Some(found) => *found as usize == number,
        None => false,
    }
}

/// Whether each node is its component's, or leads to one of its component that was found before it.
pub fn are_led(table: &FanOut, numbers: &[u32], found: &[u32], nodes: &[u32]) -> bool
    requires numbers { length numbers.now ≡ length table.now }
    requires found { length found.now ≡ length table.now }
    requires inside { All (λ ps. All (λ p. p < length table.now) ps) table.now }
    requires few { length table.now < 2 ^ 32 }
    ensures { IsTrue result → AreLed table.now numbers.now found.now nodes.now }
{
    for node in 0..numbers.len() as u32 {
        if !is_led(node, table.of(node), numbers, found, nodes) {
            return false;
        }
    }
    true
}

// Whether a node is its component's, or one of these is of its component and was found before it.
fn is_led(node: u32, next: &[u32], numbers: &[u32], found: &[u32], nodes: &[u32]) -> bool
    requires node { node < length numbers.now }
    requires found { length found.now ≡ length numbers.now }
    requires inside { All (λ p. p < length numbers.now) next.now }
    ensures { IsTrue result → IsLed next.now numbers.now found.now nodes.now node }
{
    is_first(node, numbers, nodes) || has_earlier(node, next, numbers, found)
}

// Whether a node is its component's.
fn is_first(node: u32, numbers: &[u32], nodes: &[u32]) -> bool
    requires { node < length numbers.now }
    ensures { IsTrue result → IsFirst numbers.now nodes.now node }
{
    match nodes.get(numbers[node as usize] as usize) {
        Some(first) => *first == node,
        None => false,
    }
}

// Whether one of these nodes is of a node's component and was found before it.
fn has_earlier(node: u32, next: &[u32], numbers: &[u32], found: &[u32]) -> bool
    requires node { node < length numbers.now }
    requires found { length found.now ≡ length numbers.now }
    requires inside { All (λ p. p < length numbers.now) next.now }
    ensures { IsTrue result → HasEarlier next.now numbers.now found.now node }
{
    for other in next {
        let joined = numbers[*other as usize] == numbers[node as usize];
        if joined && found[*other as usize] < found[node as usize] {
            return true;
        }
    }
    false
}
