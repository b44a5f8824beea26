//! The dry junctions of a list: those but the header that no chain of its lines reaches from it.
ghost use Rattle.std.specs.Prelude.{length};
ghost use Rattle.reach.specs.Drying.{Dried, test_dry};

use super::adjacency::Adjacency;
use super::marks::select;
use super::set::JunctionSet;
use super::walk::mark_reached;
use plant::{Decline, Line, test_list};

/// Puts the dry junctions of a list into the first 32 bytes of `out` and answers their number; `places` is memory for
/// the walk. Declines a list that fails a test, then fewer than `n` places or 32 bytes, and then changes nothing.
pub fn dry_junctions(
    n: u8,
    lines: &[Line],
    places: &mut [u8],
    out: &mut [u8],
) -> Result<u16, Decline>
    ensures { Dried n lines.now (record { places = places.old; bytes = out.old }) (record { places = places.new; bytes = out.new }) result (test_dry n lines.now (length places.old) (length out.old)) }
{
    test_list(n, lines)?;
    if places.len() < n as usize || out.len() < 32 {
        return Err(Decline::BufferLength);
    }
    let mut marks = [false; 256];
    mark_reached(&Adjacency::drawn(lines), n, 0, &mut marks, places)?;
    let dry = JunctionSet::from(&select(n, &marks, |marked| !marked));
    out[0..32].copy_from_slice(&dry.bytes);
    Ok(dry.len())
}
