//! Which junctions a graph reaches, and sets of junctions.
#![tactic(auto)]

mod adjacency;
mod dry;
mod graph;
mod marks;
mod numbers;
mod set;
mod walk;

pub use adjacency::Adjacency;
pub use dry::dry_junctions;
pub use graph::{Graph, Reversed};
pub use marks::select;
pub use numbers::shorter;
pub use set::JunctionSet;
pub use walk::mark_reached;

#[cfg(test)]
mod tests {
    use super::*;
    use plant::{Decline, Line};

    // Three members, each with the value of its byte.
    #[test]
    fn members_in_bytes(rt: HostRuntime) {
        let mut set = JunctionSet::new();
        for (v, value) in [(0u8, 1u8), (9, 2), (255, 128)] {
            set.insert(v);
            assert_eq!(rt; set.bytes[(v / 8) as usize], value);
        }
        assert_eq!(rt; set.contains(8), false);
        assert_eq!(rt; set.contains(9), true);
        let mut out = [7u8; 256];
        assert_eq!(rt; set.members(&mut out), 3);
        assert_eq!(rt; out[1], 9);
        assert_eq!(rt; out[3], 7);
        assert_eq!(rt; set.len(), 3);
        assert_eq!(rt; JunctionSet::from(&set.marks()), set);
    }

    // Two of four junctions are dry, with three and four places, 31 and 32 bytes.
    #[test]
    fn dry_with_buffers(rt: HostRuntime) {
        let lines = [
            Line {
                from: 0,
                to: 2,
                low: 0,
                high: 5,
            },
            Line {
                from: 3,
                to: 1,
                low: 0,
                high: 5,
            },
        ];
        let mut places = [0u8; 4];
        let mut out = [7u8; 33];
        assert_eq!(rt;
            dry_junctions(4, &lines, &mut places[0..3], &mut out[0..32]),
            Err(Decline::BufferLength)
        );
        assert_eq!(rt;
            dry_junctions(4, &lines, &mut places, &mut out[0..31]),
            Err(Decline::BufferLength)
        );
        assert_eq!(rt; out[0], 7);
        assert_eq!(rt; dry_junctions(4, &lines, &mut places, &mut out), Ok(2));
        assert_eq!(rt; out[0], 10);
        assert_eq!(rt; out[31], 0);
        assert_eq!(rt; out[32], 7);
    }
}
