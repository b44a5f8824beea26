//! A plant file that is read and tested.
ghost use Rattle.std.specs.Prelude.{◌≡◌, ◌≤◌, [], take, IfOk, Ok, Err, MatchResult};
ghost use Rattle.ring.specs.Held.{items, room};
ghost use Rattle.sheet_text.specs.Sheets.{checked};
ghost use Rattle.sheet_text.specs.Steps.{Ready, content};

use plant::{Decline, Line, MAX_LINES, Trial, test_list};
use plantfile::{Heading, read_file, test_each};
use ring::Queue;

// Reads a file, and tests its list and then its trials.
pub(super) fn read_checked(
    file: &[u8],
    lines: &mut [Line; MAX_LINES],
    waiting: &mut Queue<Trial>,
) -> Result<Heading, Decline>
    requires { (items waiting.old ≡ []) × (room waiting.old ≡ 64) }
    ensures told { MatchResult result (λ h. checked file.now ≡ Ok (content h (take h.lines lines.new) (items waiting.new))) (λ d. checked file.now ≡ Err d) }
    ensures ready { IfOk result (λ h. (h.lines ≤ 1000) × Ready (content h (take h.lines lines.new) (items waiting.new))) }
{
    let heading = read_file(file, lines, waiting)?;
    test_list(heading.n, &[])?;
    let count = heading.lines;
    if count > MAX_LINES {
        return Err(Decline::LineCount);
    }
    test_list(heading.n, &lines[..count])?;
    test_each(count, waiting.iter())?;
    Ok(heading)
}
