//! Reads a plant file: N with the number of junctions, lines and trials in any order, the aim, nothing more.
ghost use Rattle.std.specs.Prelude.{◌≡◌, ◌+◌, ◌-◌, [], ◌∷◌, ◌++◌, length, take, slice_set};
ghost use Rattle.plantfile.specs.Format.{after, first, line_of, operands_of, parse, Told, trial_of};
ghost use Rattle.ring.specs.Held.{items, room};

use plant::{Aim, Decline, Line, Trial};
use ring::Queue;

/// The most trials of a file.
pub const MAX_TRIALS: usize = 64;

// A command L or T with its operands.
pub const COMMAND_LEN: usize = 11;

/// What a file says beside its lines and trials, and how many lines it has.
#[derive(Clone, Copy, PartialEq, Eq, Debug)]
pub struct Heading {
    pub n: u8,
    // Beside the caller's slice: it counts the lines that have no place there, too.
    pub lines: usize,
    pub aim: Aim,
}

// What one command says.
#[derive(Clone, Copy, PartialEq, Eq, Debug)]
pub(crate) enum Command {
    Draw(Line),
    Try(Trial),
    End(Aim),
}

// The operands of L and T: two bytes, then the limits.
fn read_operands(bytes: &[u8]) -> Result<([u8; 2], u32, u32), Decline>
    ensures { result ≡ operands_of bytes.now }
{
    let [a, b, l3, l2, l1, l0, h3, h2, h1, h0, ..] = *bytes else {
        return Err(Decline::FileEnds);
    };
    let low = u32::from_be_bytes([l3, l2, l1, l0]);
    let high = u32::from_be_bytes([h3, h2, h1, h0]);
    Ok(([a, b], low, high))
}

// The operands of L.
fn read_line(bytes: &[u8]) -> Result<Command, Decline>
    ensures { result ≡ line_of bytes.now }
{
    let ([from, to], low, high) = read_operands(bytes)?;
    Ok(Command::Draw(Line {
        from,
        to,
        low,
        high,
    }))
}

// The operands of T.
fn read_trial(bytes: &[u8]) -> Result<Command, Decline>
    ensures { result ≡ trial_of bytes.now }
{
    let (line, low, high) = read_operands(bytes)?;
    let line = u16::from_be_bytes(line);
    Ok(Command::Try(Trial { line, low, high }))
}

// The first command of what follows N and its operand, where so many trials came before.
fn first_command(rest: &[u8], trials: usize) -> Result<Command, Decline>
    ensures { result ≡ first rest.now trials }
{
    let [letter, operands @ ..] = rest else {
        return Err(Decline::FileEnds);
    };
    match *letter {
        b'L' => read_line(operands),
        b'T' if trials >= MAX_TRIALS => Err(Decline::TrialCount),
        b'T' => read_trial(operands),
        b'G' | b'M' if !operands.is_empty() => Err(Decline::FileGoesOn),
        b'G' => Ok(Command::End(Aim::Greatest)),
        b'M' => Ok(Command::End(Aim::Least)),
        _ => Err(Decline::NoCommand),
    }
}

// Keeps a line where there is a place for it.
fn keep_line(lines: &mut [Line], at: usize, line: Line)
    ensures { lines.new ≡ slice_set lines.old at line }
{
    // By `get_mut` the proof does not close: it then knows how many places there are, and not what they hold.
    if at < lines.len() {
        lines[at] = line;
    }
}

// Keeps a trial where there is a place for it.
fn keep_trial(waiting: &mut Queue<Trial>, trial: Trial)
    ensures room { room waiting.new ≡ room waiting.old }
    ensures kept { items waiting.new ≡ items waiting.old ++ take (room waiting.old - length (items waiting.old)) (trial ∷ []) }
{
    let _ = waiting.put(trial);
}

// What follows N and its operand.
fn read_body(
    n: u8,
    body: &[u8],
    lines: &mut [Line],
    waiting: &mut Queue<Trial>,
) -> Result<Heading, Decline>
    ensures room { room waiting.new ≡ room waiting.old }
    ensures told { Told (after (length body.now + 1) n [] [] body.now) result lines.old lines.new (room waiting.old) (items waiting.old) (items waiting.new) }
{
    // Counted by hand: a line or a trial counts whether or not there is a place for it.
    let mut drawn = 0;
    let mut tried = 0;
    let mut rest = body;
    loop {
        match first_command(rest, tried)? {
            Command::Draw(line) => {
                keep_line(lines, drawn, line);
                drawn += 1;
            }
            Command::Try(trial) => {
                keep_trial(waiting, trial);
                tried += 1;
            }
            Command::End(aim) => return Ok(Heading {
                n,
                lines: drawn,
                aim,
            }),
        }
        rest = &rest[COMMAND_LEN..];
    }
}

/// Reads a file from left to right, up to its first fault.
///
/// The lines stand in `lines` from the front on, and the places after them are as they were; lines past the last place
/// are counted and not kept. The trials wait in `waiting` behind what waited there before; those without a place are
/// not kept, so that an empty queue of 64 places holds the trials of every file.
/// After a decline, `lines` and `waiting` may hold what came before the fault.
pub fn read_file(
    file: &[u8],
    lines: &mut [Line],
    waiting: &mut Queue<Trial>,
) -> Result<Heading, Decline>
    ensures room { room waiting.new ≡ room waiting.old }
    ensures told { Told (parse file.now) result lines.old lines.new (room waiting.old) (items waiting.old) (items waiting.new) }
{
    match file {
        [b'N', n, rest @ ..] => read_body(*n, rest, lines, waiting),
        [] | [b'N'] => Err(Decline::FileEnds),
        [_, ..] => Err(Decline::NoCommand),
    }
}
