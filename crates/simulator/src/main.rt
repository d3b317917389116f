// Document 01's simulator. Reads a record of 24 bytes and the flash from standard input, runs with the number
// 4096, and prints each step begun, then BOOT and the version of BOOT's image, or REFUSE and the number.
#![tactic(auto)]

ghost use Rattle.std.specs.Prelude.{IfOk, OnErr};
ghost use Rattle.loader.specs.Answers.{numbered_answer};
ghost use Rattle.loader.specs.Checks.{image_checks};
ghost use Rattle.runner.specs.Runs.{run_for, EndsWith};
ghost use Rattle.simulator.specs.Input.{simulated, IsCutShort, IsSimulationCutShort};

use board_records::{geometry, signed};
use files::read_full;
use flash::Geometry;
use header::version_of;
use loader::{Answer, Signed, next_step};
use refusal::Refusal;
use runner::advance;
use slots::Slot;
use std::io;

const RECORD: usize = 24;

const MOST_FLASH: usize = 65_536;

// A run that prints its steps. Where a step cannot be printed, the run ends behind it.
fn show_run(
    rt: &impl Print,
    flash: &mut [u8],
    g: Geometry,
    signed: Signed,
    number: u32,
) -> io::Result<Result<Answer, Refusal>>
    ensures whole { IfOk result (λ answer.
        EndsWith (run_for image_checks g number signed.boot signed.update flash.old) (numbered_answer answer) flash.new) }
    ensures cut { OnErr result (IsCutShort g signed.boot signed.update number flash.old flash.new) }
{
    let mut signed = signed;
    for _ in 0..number {
        let done = advance(flash, g, signed);
        match done.answer {
            Ok(Answer::Step(step)) => {
                println!(rt; "{step}")?;
                signed = signed.turned(done.turned);
            }
            Ok(Answer::LastStep(step)) => {
                println!(rt; "{step}")?;
                return Ok(Ok(Answer::Boot(None)));
            }
            boot @ Ok(Answer::Boot(_)) => return Ok(boot),
            refused @ Err(_) => return Ok(refused),
        }
    }
    Ok(next_step(flash, g, signed))
}

// The run on the input as it was read; refused where the record is not whole or the flash is too long.
#[tactic(auto, unfolding(crate::specs::Input::simulated))]
fn simulate(rt: &impl Print, record: &[u8], flash: &mut [u8]) -> io::Result<Result<Answer, Refusal>>
    ensures whole { IfOk result (λ answer.
        EndsWith (simulated «record».now flash.old) (numbered_answer answer) flash.new) }
    ensures cut { OnErr result (IsSimulationCutShort «record».now flash.old flash.new) }
{
    if record.len() < RECORD || flash.len() > MOST_FLASH {
        return Ok(Err(Refusal::Input));
    }
    show_run(rt, flash, geometry(record), signed(record), 4096)
}

// A run with the number 4096 never ends with a step due, so nothing is printed for one.
fn show_end(
    rt: &impl Print,
    flash: &[u8],
    g: Geometry,
    end: Result<Answer, Refusal>,
) -> io::Result<()> {
    match end {
        Ok(Answer::Boot(_)) => {
            let version = version_of(slots::image(flash, g, Slot::Boot)).unwrap_or(0);
            println!(rt; "BOOT {version}")
        }
        Ok(Answer::Step(_) | Answer::LastStep(_)) => Ok(()),
        Err(refusal) => println!(rt; "{refusal}"),
    }
}

// One byte more than the most that a flash may have is enough to see that it is too long.
fn main(rt: HostRuntime) -> io::Result<()> {
    let mut record = [0u8; RECORD];
    let mut space = [0u8; MOST_FLASH + 1];
    let mut input = rt.stdin();
    let read = read_full(&mut input, &mut record)?;
    let len = read_full(&mut input, &mut space)?;
    let flash = &mut space[..len];
    let end = simulate(&rt, &record[..read], flash)?;
    show_end(&rt, flash, geometry(&record), end)
}
