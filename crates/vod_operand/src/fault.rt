//! Faults of an expression, and which of several is the first.
ghost use Rattle.std.specs.Prelude.{◌≡◌};
ghost use Rattle.vod_operand.specs.Operands.{place_of, stands_before, sooner, join};
ghost use Rattle.vod_operand.specs.Found.{fault_if, fault_beside};

/// A fault of an expression or of a part of it, at its first token.
#[derive(Clone, Copy, PartialEq, Eq)]
pub enum Fault {
    /// A part that has to be constant isn't, or has a value that it may not have.
    Rule(u32),
    /// A part is wider than `WIDTH` bits.
    Width(u32),
    /// A part hangs on a name whose size, range or value couldn't be formed. That was refused where it stands, so this has no place
    /// and stands behind every fault that has one.
    Open,
}

/// The sooner of two faults.
pub fn sooner(a: Fault, b: Fault) -> Fault
    ensures { result ≡ sooner a b }
{
    if stands_before(order(b), order(a)) {
        b
    } else {
        a
    }
}

// Where a fault stands among others: by its place, and at one place that a rule fails stands first.
fn order(fault: Fault) -> Option<u64>
    ensures { result ≡ place_of fault }
{
    match fault {
        Fault::Rule(place) => Some(u64::from(place) * 2),
        Fault::Width(place) => Some(u64::from(place) * 2 + 1),
        Fault::Open => None,
    }
}

// Whether one stands before another; what has no place stands behind every place.
fn stands_before(a: Option<u64>, b: Option<u64>) -> bool
    ensures { result ≡ stands_before a b }
{
    match a {
        None => false,
        Some(a) => match b {
            None => true,
            Some(b) => a < b,
        },
    }
}

/// The sooner of two faults, where there are some.
pub fn join(a: Option<Fault>, b: Option<Fault>) -> Option<Fault>
    ensures { result ≡ join a b }
{
    match a {
        None => b,
        Some(f) => match b {
            None => Some(f),
            Some(g) => Some(sooner(f, g)),
        },
    }
}

/// That a rule fails at a place, where the test holds.
pub fn fault_if(test: bool, place: u32) -> Option<Fault>
    ensures { result ≡ fault_if test place }
{
    if test { Some(Fault::Rule(place)) } else { None }
}

/// The first fault of an expression with a fault inside it that has to be constant: where it isn't, it is at fault at its own place
/// too.
pub fn fault_beside(fault: Fault, constant: bool, place: u32) -> Fault
    ensures { result ≡ fault_beside fault constant place }
{
    if constant {
        fault
    } else {
        sooner(fault, Fault::Rule(place))
    }
}
