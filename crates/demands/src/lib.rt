// The second and the third demand, that independent means free to swap (02, 2026-04), and that energies are right (02,
// 2026-05), as the promises of functions that make the calls: what each call returned, and what it left in the buffers.
#![tactic(auto)]

ghost use Rattle.demands.specs.Exactly.{ReadsExactly, BuildsExactly, ChecksExactly};
ghost use Rattle.demands.specs.Exactly.{ArrangesExactly, ReplaysExactly};
ghost use Rattle.demands.specs.Demand.{buffers, OrderPromised, RunPromised};
ghost use Rattle.demands.specs.Swaps.{PairsPromised, PrintPromised};
ghost use Rattle.spec.specs.HoldUp.{RightEnergy};

use pti::{
    PROGRAM_BYTES, pti_arrange, pti_build, pti_check, pti_energy, pti_program, pti_read_net,
    pti_replay,
};
use spec::{EnergyNumbers, Numbers};

// Reading a net.
pub fn net_read(net: &[u8]) -> Numbers
    ensures { ReadsExactly net.now result }
{
    pti_read_net(net)
}

// Building the record of a log.
pub fn log_built(net: &[u8], log: &[u8], out: &mut [u8]) -> Numbers
    ensures { BuildsExactly net.now log.now out.old result out.new }
{
    pti_build(net, log, out)
}

// Checking a record.
pub fn record_checked(net: &[u8], text: &[u8], table: &mut [u8]) -> Numbers
    ensures { ChecksExactly net.now text.now
        table.old result table.new }
{
    pti_check(net, text, table)
}

// Arranging a record.
pub fn record_arranged(net: &[u8], text: &[u8], out: &mut [u8]) -> Numbers
    ensures { ArrangesExactly net.now text.now out.old result out.new }
{
    pti_arrange(net, text, out)
}

// Replaying an arrangement.
pub fn arrangement_replayed(
    net: &[u8],
    text: &[u8],
    arrangement: &[u8],
    rows: &mut [u16],
) -> Numbers
    ensures { ReplaysExactly net.now text.now arrangement.now
        rows.old result rows.new }
{
    pti_replay(net, text, arrangement, rows)
}

// What the calls on one net, one record and one arrangement returned.
#[derive(Clone, Copy)]
pub struct Calls {
    pub net: Numbers,
    pub check: Numbers,
    pub arrange: Numbers,
    pub replay: Numbers,
}

// The same, and before them that building the record returned.
#[derive(Clone, Copy)]
pub struct RunCalls {
    pub build: Numbers,
    pub calls: Calls,
}

// Check, arranging and replay of one record, all with the same net.
pub fn order_of_runs(
    net: &[u8],
    text: &[u8],
    arrangement: &[u8],
    table: &mut [u8],
    out: &mut [u8],
    rows: &mut [u16],
) -> Calls
    ensures { OrderPromised net.now text.now arrangement.now
        (buffers table.old out.old rows.old) result
        (buffers table.new out.new rows.new) }
{
    let read = pti_read_net(net);
    let check = pti_check(net, text, table);
    let arrange = pti_arrange(net, text, out);
    let replay = pti_replay(net, text, arrangement, rows);
    Calls {
        net: read,
        check,
        arrange,
        replay,
    }
}

// Building a record, and then the same calls on the bytes that building wrote.
pub fn run_recorded(
    net: &[u8],
    log: &[u8],
    arrangement: &[u8],
    text: &mut [u8],
    table: &mut [u8],
    out: &mut [u8],
    rows: &mut [u16],
) -> RunCalls
    ensures { RunPromised net.now log.now arrangement.now
        text.old (buffers table.old out.old rows.old) result
        text.new (buffers table.new out.new rows.new) }
{
    let build = pti_build(net, log, text);
    let n = build.a as usize;
    let calls = order_of_runs(net, &text[0..n], arrangement, table, out, rows);
    RunCalls { build, calls }
}

// Checking a record, for the pairs that it counts as independent.
pub fn pairs_counted(net: &[u8], run: &[u8], table: &mut [u8]) -> Numbers
    ensures { PairsPromised net.now run.now table.old result }
{
    pti_check(net, run, table)
}

// Printing what the program prints, for the pairs in its last line.
pub fn pairs_printed(input: &[u8], out: &mut [u8; PROGRAM_BYTES]) -> Numbers
    ensures { PrintPromised input.now result out.new }
{
    pti_program(input, out)
}

// The energies of a record.
pub fn energy_right(net: &[u8], run: &[u8], figures: &[u8]) -> EnergyNumbers
    ensures { RightEnergy net.now run.now figures.now result }
{
    pti_energy(net, run, figures)
}
