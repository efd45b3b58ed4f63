//! What `order` answers: the order of drivers, or why there is none.
ghost use Rattle.std.specs.Prelude.{◌≡◌};

use std::alloc::AllocError;
use std::fmt;
use std::marker::Model;
use vod_design::Drivers;

/// A driver by its number, and its level: 0 where no driver feeds it, else 1 more than the greatest level of those that feed it.
#[derive(Clone, Copy, PartialEq, Eq)]
pub struct Rank {
    pub driver: u32,
    pub level: u32,
}

/// Drivers by level, and those of one level by number; contracts see the list of their ranks.
#[derive(Drop)]
pub struct Order {
    ranks: Vec<Rank>,
}

impl Model for Order {
    ghost use Rattle.std.specs.Prelude.{List};
    ghost use Rattle.vod_level.specs.declared.types.Rank.{Rank};

    ghost Value = { List Rank };

    ghost view = { λ o. o.ranks.items };
}

impl Order {
    /// The order with this list; it takes no memory.
    pub fn new(ranks: Vec<Rank>) -> Order
        ensures { result ≡ ranks.items }
    {
        Order { ranks }
    }

    /// Each driver once, behind all that feed it.
    pub fn ranks(&self) -> &[Rank]
        ensures { result.now ≡ self.now }
    {
        self.ranks.as_slice()
    }
}

/// Why drivers have no order.
#[derive(Drop)]
pub enum OrderFault {
    /// Drivers feed themselves: the shortest cycle that begins with the least driver on a cycle, each feeding the next, and the
    /// least of these when compared number by number.
    Cycle(Drivers),
    /// Memory ran out.
    Memory,
}

impl fmt::Display for OrderFault {
    fn fmt<W: fmt::Write>(&self, f: &mut fmt::Formatter<W>) -> fmt::Result {
        match self {
            OrderFault::Cycle(_) => f.write_str("drivers feed themselves"),
            OrderFault::Memory => f.write_str("memory ran out"),
        }
    }
}

impl From<AllocError> for OrderFault {
    ghost use Rattle.std.specs.Prelude.{◌≡◌};
    ghost use Rattle.vod_level.specs.declared.types.OrderFault.TheVariants.{Memory};

    ghost from_gives = { λ _ fault. fault ≡ Memory };

    fn from(_: AllocError) -> OrderFault {
        OrderFault::Memory
    }
}
