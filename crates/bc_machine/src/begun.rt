//! What proofs know of the bus that a controller began with; no byte of it is kept at run time.
ghost use Rattle.bc_machine.specs.StartingBus.{bus_in};
ghost use Rattle.std.specs.Prelude.{◌≡◌};

use mil_bus::Bus;
use std::marker::Model;
use std::snapshot::Snapshot;

/// A bus, in proofs alone. It is made to be looked at and let go.
#[cycle(begun)]
#[derive(Drop)]
pub struct Begun {
    link: Link,
}

#[cycle(begun)]
#[derive(Drop)]
enum Link {
    Start(Snapshot<Bus>),
    Same(Snapshot<Snapshot<Begun>>),
}

impl Model for Begun {
    ghost use Rattle.mil_bus.specs.Exchange.{BusState};
    ghost use Rattle.std.specs.Prelude.{ℕ};

    ghost Value = { BusState × ℕ };

    ghost use Rattle.bc_machine.specs.StartingBus.{bus_in};

    ghost view = { λ b. bus_in b.link };

    ghost size = { λ v. v.1 };

    ghost use Rattle.std.proofs.Common.{arith};

    ghost size_decreases = { λ a h. Prim.grind arith };
}

fn begun_of(link: Link) -> Snapshot<Begun>
    ensures { result.value ≡ bus_in link }
{
    let begun = Begun { link };
    Snapshot::of(&begun)
}

/// This bus.
pub fn begun_with(bus: &Bus) -> Snapshot<Begun>
    ensures { result.value.0 ≡ bus.now }
{
    begun_of(Link::Start(Snapshot::of(bus)))
}

/// The same bus as before.
pub fn same(past: &Snapshot<Begun>) -> Snapshot<Begun>
    ensures { result.value.0 ≡ past.now.value.0 }
{
    begun_of(Link::Same(Snapshot::of(past)))
}
