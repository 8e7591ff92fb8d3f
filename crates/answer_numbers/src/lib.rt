// Each answer as document 01's number and spot, and the values that an operation returns.
#![tactic(auto)]

ghost use Rattle.std.specs.Prelude.{◌≡◌, ℕ, Err};
ghost use Rattle.spec.specs.Answer.{Answer, gives, refuses};
ghost use Rattle.spec.specs.Values.{as_numbers};
ghost use Rattle.spec.specs.Energy.{as_energy};
ghost use Rattle.lines.specs.Agree.{refused_as};
ghost use Rattle.net.specs.NetArrays.{net_refusal};
ghost use Rattle.record_columns.specs.Enters.{record_refusal};
ghost use Rattle.steps.specs.Judged.{step_refused};
ghost use Rattle.log_steps.specs.RunArrays.{log_refused};
ghost use Rattle.building.specs.Answers.{build_refused};
ghost use Rattle.accepting.specs.Accepting.{refused_by};
ghost use Rattle.checking.specs.Checking.{check_of};
ghost use Rattle.arrangement_reader.specs.Arrangement.{arrangement_refusal};
ghost use Rattle.replaying.specs.Replaying.{replay_of};
ghost use Rattle.arranging.specs.Answers.{answer_of as arrange_answer};
ghost use Rattle.energy_reader.specs.Reads.{refusal_of as figures_refusal};
ghost use Rattle.energy.specs.Answers.{energy_of};
ghost use Rattle.refused_lines.specs.Shown.{answer_of as line_answer};
ghost use Rattle.answer_numbers.specs.Answered.{answered};

use accepting::Refusal;
use arrangement_reader::ArrangementRefusal;
use arranging::{ArrangeRefusal, Arranged};
use building::BuildRefusal;
use checking::{CheckRefusal, Checked};
use energy::EnergiesRefusal;
use energy_reader::EnergyRefusal;
use log_steps::LogRefusal;
use net::{NetRefusal, NetSize};
use record_columns::RecordRefusal;
use refused_lines::{LinePart, NoSuchLine};
use replaying::ReplayRefusal;
use spec::{Energies, EnergyNumbers, Numbers};
use steps::StepRefusal;

// ---- what an accepted call returns

pub trait Returns {
    // At most three values.
    ghost values: { Self → ℕ × ℕ × ℕ };

    fn returned(self) -> Numbers
        ensures { result ≡ as_numbers (gives (values self)) };
}

fn accepted(a: usize, b: usize, c: usize) -> Numbers
    ensures { result ≡ as_numbers (gives (a, b, c)) }
{
    Numbers {
        number: 0,
        spot: 0,
        a: a as u64,
        b: b as u64,
        c: c as u64,
    }
}

// Reading a net: places and transitions.
impl Returns for NetSize {
    ghost values = { λ n. (n.places, n.transitions, 0) };

    fn returned(self) -> Numbers {
        accepted(self.places, self.transitions, 0)
    }
}

// Building: bytes written, and so with the program; replaying: lines played.
impl Returns for usize {
    ghost values = { λ n. (n, 0, 0) };

    fn returned(self) -> Numbers {
        accepted(self, 0, 0)
    }
}

// The check: events, conditions and independent pairs.
impl Returns for Checked {
    ghost values = { λ c. (c.events, c.conditions, c.independent) };

    fn returned(self) -> Numbers {
        accepted(self.events, self.conditions, self.independent)
    }
}

// Arranging: bytes written and lines.
impl Returns for Arranged {
    ghost values = { λ a. (a.bytes, a.lines, 0) };

    fn returned(self) -> Numbers {
        accepted(self.bytes, self.lines, 0)
    }
}

// The refused line: where it starts, and its length.
impl Returns for LinePart {
    ghost values = { λ p. (p.start, p.length, 0) };

    fn returned(self) -> Numbers {
        accepted(self.start, self.length, 0)
    }
}

// ---- what a call is refused for

pub trait Refuses {
    // The definitions' refusal, with its number and spot.
    ghost refusal: { Self → Answer (ℕ × ℕ × ℕ) };

    fn refused(self) -> Numbers
        ensures { result ≡ as_numbers (refusal self) };
}

fn refused(number: u64, spot: usize) -> Numbers
    ensures { result ≡ as_numbers (refuses number spot) }
{
    Numbers {
        number,
        spot: spot as u64,
        a: 0,
        b: 0,
        c: 0,
    }
}

// What a net is refused for, by every operation.
impl Refuses for NetRefusal {
    ghost refusal = { λ x. refused_as (net_refusal x) };

    fn refused(self) -> Numbers {
        match self {
            NetRefusal::Malformed(k) => refused(11, k),
            NetRefusal::LimitPassed(k) => refused(12, k),
            NetRefusal::Undeclared(k) => refused(13, k),
            NetRefusal::WeightOutside(k) => refused(54, k),
            NetRefusal::ArcRepeated(k) => refused(14, k),
            NetRefusal::ReadAndConsumed(k) => refused(51, k),
            NetRefusal::Lacking(t) => refused(15, t),
        }
    }
}

// What a line of a log is refused for as a step.
impl Refuses for StepRefusal {
    ghost refusal = { λ x. step_refused x };

    fn refused(self) -> Numbers {
        match self {
            StepRefusal::Malformed(k) => refused(21, k),
            StepRefusal::UnknownTransition(k) => refused(22, k),
            StepRefusal::OverEvents(k) => refused(23, k),
            StepRefusal::TooFewTokens(k) => refused(24, k),
            StepRefusal::Inhibited(k) => refused(25, k),
        }
    }
}

// What a log is refused for.
impl Refuses for LogRefusal {
    ghost refusal = { λ x. log_refused x };

    fn refused(self) -> Numbers {
        match self {
            LogRefusal::Step(y) => y.refused(),
            LogRefusal::OverConditions(k) => refused(26, k),
            LogRefusal::OverMarks(k) => refused(27, k),
        }
    }
}

// What building refuses.
impl Refuses for BuildRefusal {
    ghost refusal = { λ x. build_refused x };

    fn refused(self) -> Numbers {
        match self {
            BuildRefusal::BufferShort => refused(20, 0),
            BuildRefusal::Net(y) => y.refused(),
            BuildRefusal::Log(y) => y.refused(),
        }
    }
}

// What a record is refused for.
impl Refuses for RecordRefusal {
    ghost refusal = { λ x. refused_as (record_refusal x) };

    fn refused(self) -> Numbers {
        match self {
            RecordRefusal::Malformed(k) => refused(31, k),
            RecordRefusal::LimitPassed(k) => refused(32, k),
            RecordRefusal::Undeclared(k) => refused(33, k),
            RecordRefusal::MarkedAlready(k) => refused(34, k),
            RecordRefusal::WrongInitial(p) => refused(35, p),
            RecordRefusal::WrongArcs(e) => refused(36, e),
            RecordRefusal::WrongMarks(e) => refused(37, e),
            RecordRefusal::WrongKind(e) => refused(38, e),
            RecordRefusal::BeforeItself(e) => refused(39, e),
        }
    }
}

// What a net or a record is refused for, by the check, by replaying, by arranging and by the energies.
impl Refuses for Refusal {
    ghost refusal = { λ x. refused_by x };

    fn refused(self) -> Numbers {
        match self {
            Refusal::Net(y) => y.refused(),
            Refusal::Record(y) => y.refused(),
        }
    }
}

// What the check refuses.
impl Refuses for CheckRefusal {
    ghost refusal = { λ x. check_of (Err x) };

    fn refused(self) -> Numbers {
        match self {
            CheckRefusal::BufferShort => refused(30, 0),
            CheckRefusal::Refused(y) => y.refused(),
        }
    }
}

// What an arrangement is refused for.
impl Refuses for ArrangementRefusal {
    ghost refusal = { λ x. refused_as (arrangement_refusal x) };

    fn refused(self) -> Numbers {
        match self {
            ArrangementRefusal::Malformed(k) => refused(41, k),
            ArrangementRefusal::Unknown(k) => refused(42, k),
            ArrangementRefusal::Repeated(k) => refused(43, k),
            ArrangementRefusal::Broken(k) => refused(44, k),
            ArrangementRefusal::Missing(e) => refused(45, e),
        }
    }
}

// What replaying refuses.
impl Refuses for ReplayRefusal {
    ghost refusal = { λ x. replay_of (Err x) };

    fn refused(self) -> Numbers {
        match self {
            ReplayRefusal::BufferShort => refused(40, 0),
            ReplayRefusal::Refused(y) => y.refused(),
            ReplayRefusal::Lines(y) => y.refused(),
        }
    }
}

// What arranging refuses.
impl Refuses for ArrangeRefusal {
    ghost refusal = { λ x. arrange_answer (Err x) };

    fn refused(self) -> Numbers {
        match self {
            ArrangeRefusal::BufferShort => refused(50, 0),
            ArrangeRefusal::Refused(y) => y.refused(),
        }
    }
}

// What an energy text is refused for.
impl Refuses for EnergyRefusal {
    ghost refusal = { λ x. refused_as (figures_refusal x) };

    fn refused(self) -> Numbers {
        match self {
            EnergyRefusal::WrongLine(k) => refused(52, k),
            EnergyRefusal::LineCount => refused(53, 0),
        }
    }
}

// There is no such line.
impl Refuses for NoSuchLine {
    ghost refusal = { λ x. line_answer (Err x) };

    fn refused(self) -> Numbers {
        refused(46, self.0)
    }
}

// ---- answers

// The numbers of an answer: the values of what is returned, or the number and spot of what it is refused for.
pub fn numbers_of<T: Returns, E: Refuses>(answer: Result<T, E>) -> Numbers
    ensures { result ≡ as_numbers (answered T.values E.refusal answer) }
{
    match answer {
        Ok(value) => value.returned(),
        Err(why) => why.refused(),
    }
}

// A refusal has no energies: they are 0.
fn without_energies(n: Numbers) -> EnergyNumbers
    ensures { result ≡ as_energy (refuses n.number n.spot) }
{
    EnergyNumbers {
        number: n.number,
        spot: n.spot,
        usable: 0.0,
        draw: 0.0,
        left: 0.0,
    }
}

// The energies: usable, draw and what is left.
pub fn energies_of(answer: Result<Energies, EnergiesRefusal>) -> EnergyNumbers
    ensures { result ≡ as_energy (energy_of answer) }
{
    match answer {
        Ok(e) => EnergyNumbers {
            number: 0,
            spot: 0,
            usable: e.usable,
            draw: e.draw,
            left: e.left,
        },
        Err(EnergiesRefusal::Refused(y)) => without_energies(y.refused()),
        Err(EnergiesRefusal::Text(y)) => without_energies(y.refused()),
    }
}
