// The energies of a record, from its texts: what the hold-up capacitor gives, what the events draw, and what is left.
#![tactic(auto)]

ghost use Rattle.std.specs.Prelude.{◌≡◌};
ghost use Rattle.spec.specs.Energy.{energy};
ghost use Rattle.energy.specs.Answers.{energy_of};
ghost use Rattle.energy.specs.declared.EnergiesRefusal.TheVariants.{Refused, Text};

use accepting::{Refusal, accept, bench};
use energies::energies_of;
use energy_reader::{EnergyRefusal, read_energy};
use net::{ARCS, TOKENS};
use reach::WORDS;
use record_columns::RECORD;
use spec::Energies;

// Why there are no energies: the net or the record is refused, or the energy text is.
#[derive(Clone, Copy, Debug, PartialEq, Eq)]
pub enum EnergiesRefusal {
    Refused(Refusal),
    Text(EnergyRefusal),
}

impl From<Refusal> for EnergiesRefusal {
    ghost from_gives = { λ e r. r ≡ Refused e };

    fn from(why: Refusal) -> EnergiesRefusal {
        EnergiesRefusal::Refused(why)
    }
}

impl From<EnergyRefusal> for EnergiesRefusal {
    ghost from_gives = { λ e r. r ≡ Text e };

    fn from(why: EnergyRefusal) -> EnergiesRefusal {
        EnergiesRefusal::Text(why)
    }
}

// "after net and record, 52 .., 53 ..": a net and a record are accepted as by the check, and then the energy text is read.
pub fn energy(net: &[u8], text: &[u8], figures: &[u8]) -> Result<Energies, EnergiesRefusal>
    ensures { energy_of result ≡ energy net.now text.now figures.now }
{
    let mut tokens = [0u16; TOKENS];
    let mut arcs = [0u8; ARCS];
    let mut rec = [0u8; RECORD];
    let mut w = [0u64; WORDS];
    let accepted = accept(net, text, bench(), &mut tokens, &mut arcs, &mut rec, &mut w)?;
    let told = read_energy(figures, accepted.transitions)?;
    let events = &rec[..accepted.events];
    Ok(energies_of(told.capacitor, &told.draws, events))
}
