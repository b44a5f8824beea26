//! Reads a plant file from standard input and prints its sheet.
#![tactic(auto)]

ghost use Rattle.std.specs.Prelude.{◌≤◌, length, IfOk};

use sheet_text::{SHEET_LEN, write_text};
use std::io;
use std::io::{Read, Write};

// No more bytes of the input count.
const FILE_LEN: usize = 65_536;

// Fills the buffer from the front until the input ends or the buffer is full; answers how many bytes came.
// Not by `io::copy`, which asks for less than the buffer holds: an input that keeps messages whole would lose the rest.
fn read_input(rt: &HostRuntime, buffer: &mut [u8]) -> io::Result<usize>
    ensures { IfOk result (λ n. n ≤ length buffer.new) }
{
    let mut input = rt.stdin();
    let mut len = 0;
    while len < buffer.len() {
        let n = input.read(&mut buffer[len..])?;
        if n == 0 {
            break;
        }
        len += n;
    }
    Ok(len)
}

fn main(rt: HostRuntime) -> io::Result<()> {
    let mut file = [0u8; FILE_LEN];
    let len = read_input(&rt, &mut file)?;
    let mut sheet = [0u8; SHEET_LEN];
    match write_text(&file[..len], &mut sheet) {
        Ok(written) => rt.stdout().write_all(&sheet[..written]),
        Err(_) => Ok(()),
    }
}
