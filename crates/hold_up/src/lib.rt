// The hold-up capacitor and what the events of a transition draw, as floats, made of whole numbers in their ranges: each
// float is its number exactly.
#![tactic(auto)]

ghost use Rattle.std.specs.Prelude.{◌≡◌, ◌*◌, ◌^◌, ◌≤◌};
ghost use Rattle.spec.specs.Rounding.{float_of};
ghost use Rattle.hold_up.specs.Floats.{Stands, Holds};

// How many transitions a net has at most: a draw for each.
pub const DRAWS: usize = 32;

// The capacitor's three figures, kept together: µF, mV and mV.
#[derive(Clone, Copy)]
pub struct Capacitor {
    pub capacitance: f64,
    pub full: f64,
    pub cutoff: f64,
}

// What an event of a transition draws: a pulse of µJ, or a load of mW for ms.
#[derive(Clone, Copy)]
pub enum Draw {
    Pulse(f64),
    Load(f64, f64),
}

// A whole number that a float can hold.
fn float_of(n: usize) -> f64
    requires { n ≤ 2 ^ 53 }
    ensures { result ≡ float_of n }
{
    n as f64
}

pub fn capacitor_of(capacitance: usize, full: usize, cutoff: usize) -> Capacitor
    requires { (capacitance ≤ 1000000) × (full ≤ 60000) × (cutoff ≤ full) }
    ensures { Holds result (record { capacitance = capacitance; full = full; cutoff = cutoff }) }
{
    Capacitor {
        capacitance: float_of(capacitance),
        full: float_of(full),
        cutoff: float_of(cutoff),
    }
}

pub fn pulse(energy: usize) -> Draw
    requires { energy ≤ 1000000 }
    ensures { Stands result energy }
{
    Draw::Pulse(float_of(energy))
}

pub fn load(power: usize, time: usize) -> Draw
    requires { (power ≤ 1000000) × (time ≤ 1000000) }
    ensures { Stands result (power * time) }
{
    Draw::Load(float_of(power), float_of(time))
}
