//! Writes a plant file: N with the number of junctions, all lines, all trials, the aim.
ghost use Rattle.std.specs.Prelude.{◌≡◌, ◌≤◌, List, length};
ghost use Rattle.plant.specs.Tests.{pass};
ghost use Rattle.plantfile.specs.Writing.{command_bytes, encoded, Laid, test_each, test_trials, written};
ghost use Rattle.plant.specs.declared.line.Trial.{Trial};
ghost use Rattle.std.specs.Iterator.{AlwaysYields, IsFinite};
ghost use Rattle.text.specs.Pieces.{Adds, room};

use super::reader::{COMMAND_LEN, Command, MAX_TRIALS};
use plant::{Aim, Decline, Line, Trial, test_plant, test_trial};
use text::Page;

// One command.
fn put_command(page: &mut Page<'_>, command: &Command)
    requires { length (command_bytes command.now) ≤ room page.old }
    ensures { Adds (command_bytes command.now) page.old page.new }
{
    match command {
        Command::Draw(line) => {
            let [l3, l2, l1, l0] = line.low.to_be_bytes();
            let [h3, h2, h1, h0] = line.high.to_be_bytes();
            page.put(&[b'L', line.from, line.to, l3, l2, l1, l0, h3, h2, h1, h0]);
        }
        Command::Try(trial) => {
            let [n1, n0] = trial.line.to_be_bytes();
            let [l3, l2, l1, l0] = trial.low.to_be_bytes();
            let [h3, h2, h1, h0] = trial.high.to_be_bytes();
            page.put(&[b'T', n1, n0, l3, l2, l1, l0, h3, h2, h1, h0]);
        }
        Command::End(Aim::Greatest) => page.put(b"G"),
        Command::End(Aim::Least) => page.put(b"M"),
    }
}

// The whole file.
fn put_file(page: &mut Page<'_>, n: u8, lines: &[Line], trials: &[Trial], aim: Aim)
    requires { length (encoded (record { junctions = n; lines = lines.now; trials = trials.now; aim = aim })) ≤ room page.old }
    ensures { Adds (encoded (record { junctions = n; lines = lines.now; trials = trials.now; aim = aim })) page.old page.new }
{
    let draws = lines.iter().map(|line| Command::Draw(*line));
    let tries = trials.iter().map(|trial| Command::Try(*trial));
    page.put(&[b'N', n]);
    for command in draws.chain(tries) {
        put_command(page, &command);
    }
    put_command(page, &Command::End(aim));
}

/// The tests of trials on a list of `count` lines: each in order, up to the first that fails.
pub fn test_each<I: Iterator<Item = Trial> + Drop>(count: usize, trials: I) -> Result<(), Decline>
    requires can { I.can_next trials }
    requires ends { IsFinite (I.remaining trials) }
    ensures { (all : List Trial) → AlwaysYields I.next_gives (λ t. t) trials all → result ≡ pass (test_each count all) }
{
    for trial in trials {
        test_trial(count, &trial)?;
    }
    Ok(())
}

// The tests of the trials on a list of `count` lines: how many, then each in order.
fn test_trials(count: usize, trials: &[Trial]) -> Result<(), Decline>
    ensures { result ≡ pass (test_trials count trials.now) }
{
    if trials.len() > MAX_TRIALS {
        return Err(Decline::TrialCount);
    }
    test_each(count, trials.iter().copied())
}

/// Writes the file of a plant that passes the tests, with trials that pass theirs, to the front of `out`, and answers
/// its length. The bytes after it stay, and a decline leaves `out` as it was. A buffer that is too short is declined
/// after all else.
pub fn write_file(
    n: u8,
    lines: &[Line],
    trials: &[Trial],
    aim: u8,
    out: &mut [u8],
) -> Result<usize, Decline>
    ensures { Laid (written n lines.now trials.now aim) out.old result out.new }
{
    let aim = test_plant(n, lines, aim)?;
    test_trials(lines.len(), trials)?;
    let len = 3 + COMMAND_LEN * (lines.len() + trials.len());
    if out.len() < len {
        return Err(Decline::BufferLength);
    }
    let mut page = Page::new(out);
    put_file(&mut page, n, lines, trials, aim);
    Ok(page.len())
}
