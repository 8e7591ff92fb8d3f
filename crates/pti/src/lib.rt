// Run records of PTI-nets: the operations of documents 01 and 02 by slices, and as the functions that the crate pti_c gives to C.
//
// An operation's answer is a Result: its values by name, or an enum with a named case for each refusal. Its contract says,
// by a definition of the crate spec, the number, spot and values of the answer and every byte of the lent buffer; none has a
// `requires`. A refusal writes nothing, and past what an operation writes a buffer keeps its contents.
#![tactic(auto)]

ghost use Rattle.std.specs.Prelude.{◌≡◌};
ghost use Rattle.spec.specs.Values.{net_returns, line_returns};
ghost use Rattle.spec.specs.Energy.{energy_returns};
ghost use Rattle.pti.specs.Calls.{BuildCall, CheckCall, ReplayCall, ArrangeCall, ProgramCall};

pub use accepting::Refusal;
use answer_numbers::{Returns, energies_of, numbers_of};
pub use arrangement_reader::ArrangementRefusal;
pub use arranging::{ArrangeRefusal, Arranged, arrange};
pub use building::{BuildRefusal, build};
pub use checking::{CheckRefusal, Checked, check};
pub use energy::{EnergiesRefusal, energy};
pub use energy_reader::EnergyRefusal;
pub use log_steps::LogRefusal;
pub use net::{Net, NetRefusal, NetSize};
use net_reader::net_answer;
pub use net_reader::{net_or_empty, read_net};
pub use printing::{PROGRAM_BYTES, program};
pub use record_columns::RecordRefusal;
pub use refused_lines::{LinePart, NoSuchLine, refused_line, refused_line_answer};
pub use replaying::{ReplayRefusal, replay};
pub use spec::{Energies, EnergyNumbers, Numbers};
pub use steps::StepRefusal;

// Reads a net. a: places, b: transitions.
pub fn pti_read_net(net: &[u8]) -> Numbers
    ensures { result ≡ net_returns net.now }
{
    numbers_of(net_answer(net))
}

// Builds the record of a step log. a: bytes written.
pub fn pti_build(net: &[u8], log: &[u8], out: &mut [u8]) -> Numbers
    ensures { BuildCall net.now log.now out.old result out.new }
{
    numbers_of(build(net, log, out))
}

// Checks a proposed record and writes its order. a: events, b: conditions, c: independent pairs.
pub fn pti_check(net: &[u8], text: &[u8], table: &mut [u8]) -> Numbers
    ensures { CheckCall net.now text.now table.old result table.new }
{
    numbers_of(check(net, text, table))
}

// Replays an arrangement and writes the markings. a: lines played.
pub fn pti_replay(net: &[u8], text: &[u8], arrangement: &[u8], rows: &mut [u16]) -> Numbers
    ensures { ReplayCall net.now text.now arrangement.now
        rows.old result rows.new }
{
    numbers_of(replay(net, text, arrangement, rows))
}

// Writes the shortest arrangement. a: bytes written, b: lines.
pub fn pti_arrange(net: &[u8], text: &[u8], out: &mut [u8]) -> Numbers
    ensures { ArrangeCall net.now text.now out.old result out.new }
{
    numbers_of(arrange(net, text, out))
}

// What the hold-up capacitor gives, what the events of a record draw from it, and what is left.
pub fn pti_energy(net: &[u8], text: &[u8], figures: &[u8]) -> EnergyNumbers
    ensures { result ≡ energy_returns net.now text.now figures.now }
{
    energies_of(energy(net, text, figures))
}

// Where a line stands, of the net text (choice 0) or the second text (choice 1). a: its start in that text, b: its
// length.
pub fn pti_refused_line(net: &[u8], second: &[u8], choice: u8, line: usize) -> Numbers
    ensures { result ≡ line_returns net.now second.now choice line }
{
    numbers_of(refused_line_answer(net, second, choice, line))
}

// What the program prints for an input. a: bytes written, also of an `X` line.
pub fn pti_program(input: &[u8], out: &mut [u8; PROGRAM_BYTES]) -> Numbers
    ensures { ProgramCall input.now out.old result out.new }
{
    program(input, out).returned()
}
