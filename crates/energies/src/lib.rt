// The energies of the hold-up capacitor and of a record's events, in µJ.
#![tactic(auto)]

ghost use Rattle.std.specs.Prelude.{◌≡◌, ℕ, ◌^◌, ◌≤◌};
ghost use Rattle.spec.specs.Rounding.{float_of};
ghost use Rattle.spec.specs.Energy.{Ratings, usable_of, left_of};
ghost use Rattle.hold_up.specs.Floats.{Stands, Holds};
ghost use Rattle.energies.specs.Promises.{Below, NotNegative, GivesDraw, GivesEnergies};

use hold_up::{Capacitor, DRAWS, Draw};
use spec::Energies;

// What one event draws: mW for ms are µJ, and the product is exact.
fn event_draw(d: Draw) -> f64
    ensures { (n : ℕ) → Stands d n → result ≡ float_of n }
{
    match d {
        Draw::Pulse(energy) => energy,
        Draw::Load(power, time) => power * time,
    }
}

// What the events draw, each by its transition, summed in their order: each partial sum is exact.
fn total_draw(draws: &[Draw; DRAWS], events: &[u8]) -> f64
    requires { Below 32 events.now }
    ensures { GivesDraw draws.now events.now result }
{
    let mut sum = 0.0;
    for t in events {
        sum += event_draw(draws[usize::from(*t)]);
    }
    sum
}

// The energy between full and cutoff: all is exact up to the last division, which rounds. Halved after it, the float would be the
// same (the law `either_order` of the crate rounding).
fn usable(c: Capacitor) -> f64
    ensures { (k : Ratings) → Holds c k → result ≡ usable_of k }
{
    let squares = c.full * c.full - c.cutoff * c.cutoff;
    c.capacitance * squares / 2.0 / 1000000.0
}

// What is left: the difference rounds once.
fn left(usable: f64, draw: f64) -> f64
    ensures { (n : ℕ) → n ≤ 2 ^ 53 → draw ≡ float_of n → NotNegative usable → result ≡ left_of usable n }
{
    usable - draw
}

// The three energies, of events that are each given by its transition.
pub fn energies_of(c: Capacitor, draws: &[Draw; DRAWS], events: &[u8]) -> Energies
    requires { Below 32 events.now }
    ensures { GivesEnergies c draws.now events.now result }
{
    let most = usable(c);
    let draw = total_draw(draws, events);
    Energies {
        usable: most,
        draw,
        left: left(most, draw),
    }
}
