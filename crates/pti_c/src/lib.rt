// The library for C: each function of the crate pti under its own name and by the C calling convention, with its promises.
// A caller that is not Rattle lends what include/pti.h says.
#![tactic(auto)]

ghost use Rattle.std.specs.Prelude.{◌≡◌};
ghost use Rattle.spec.specs.Values.{net_returns, line_returns};
ghost use Rattle.spec.specs.Energy.{energy_returns};
ghost use Rattle.pti.specs.Calls.{BuildCall, CheckCall, ReplayCall, ArrangeCall, ProgramCall};

use pti::PROGRAM_BYTES;
use spec::{EnergyNumbers, Numbers};

// Reads a net. a: places, b: transitions.
#[unsafe(no_mangle)]
pub extern "C" fn pti_read_net(net: &[u8]) -> Numbers
    ensures { result ≡ net_returns net.now }
{
    pti::pti_read_net(net)
}

// Builds the record of a step log. a: bytes written.
#[unsafe(no_mangle)]
pub extern "C" fn pti_build(net: &[u8], log: &[u8], out: &mut [u8]) -> Numbers
    ensures { BuildCall net.now log.now out.old result out.new }
{
    pti::pti_build(net, log, out)
}

// Checks a proposed record and writes its order. a: events, b: conditions, c: independent pairs.
#[unsafe(no_mangle)]
pub extern "C" fn pti_check(net: &[u8], text: &[u8], table: &mut [u8]) -> Numbers
    ensures { CheckCall net.now text.now table.old result table.new }
{
    pti::pti_check(net, text, table)
}

// Replays an arrangement and writes the markings. a: lines played.
#[unsafe(no_mangle)]
pub extern "C" fn pti_replay(
    net: &[u8],
    text: &[u8],
    arrangement: &[u8],
    rows: &mut [u16],
) -> Numbers
    ensures { ReplayCall net.now text.now arrangement.now
        rows.old result rows.new }
{
    pti::pti_replay(net, text, arrangement, rows)
}

// Writes the shortest arrangement. a: bytes written, b: lines.
#[unsafe(no_mangle)]
pub extern "C" fn pti_arrange(net: &[u8], text: &[u8], out: &mut [u8]) -> Numbers
    ensures { ArrangeCall net.now text.now out.old result out.new }
{
    pti::pti_arrange(net, text, out)
}

// What the hold-up capacitor gives, what the events of a record draw from it, and what is left.
#[unsafe(no_mangle)]
pub extern "C" fn pti_energy(net: &[u8], text: &[u8], figures: &[u8]) -> EnergyNumbers
    ensures { result ≡ energy_returns net.now text.now figures.now }
{
    pti::pti_energy(net, text, figures)
}

// Where a line stands, of the net text (choice 0) or the second text (choice 1). a: its start in that text, b: its
// length.
#[unsafe(no_mangle)]
pub extern "C" fn pti_refused_line(net: &[u8], second: &[u8], choice: u8, line: usize) -> Numbers
    ensures { result ≡ line_returns net.now second.now choice line }
{
    pti::pti_refused_line(net, second, choice, line)
}

// What the program prints for an input. a: bytes written, also of an `X` line.
#[unsafe(no_mangle)]
pub extern "C" fn pti_program(input: &[u8], out: &mut [u8; PROGRAM_BYTES]) -> Numbers
    ensures { ProgramCall input.now out.old result out.new }
{
    pti::pti_program(input, out)
}
