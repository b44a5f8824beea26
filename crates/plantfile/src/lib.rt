//! The plant file: reader and writer.
#![tactic(auto)]

mod laws;
mod reader;
mod writer;

pub use laws::{reads_back, writes_again, writes_in_order, written_reads_back};
pub use plant::Trial;
pub use reader::{Heading, MAX_TRIALS, read_file};
pub use writer::{test_each, write_file};

#[cfg(test)]
mod tests {
    use super::*;
    use plant::{Aim, Decline, Line, Trial};
    use ring::Queue;

    const LINES: [Line; 4] = [
        Line {
            from: 0,
            to: 2,
            low: 2,
            high: 6,
        },
        Line {
            from: 2,
            to: 3,
            low: 0,
            high: 4,
        },
        Line {
            from: 3,
            to: 1,
            low: 1,
            high: 5,
        },
        Line {
            from: 2,
            to: 1,
            low: 0,
            high: 1,
        },
    ];

    const TRIAL: Trial = Trial {
        line: 1,
        low: 0,
        high: 5,
    };

    const FILE: [u8; 58] = *b"N\x04\
        L\x00\x02\x00\x00\x00\x02\x00\x00\x00\x06\
        L\x02\x03\x00\x00\x00\x00\x00\x00\x00\x04\
        L\x03\x01\x00\x00\x00\x01\x00\x00\x00\x05\
        L\x02\x01\x00\x00\x00\x00\x00\x00\x00\x01\
        T\x00\x01\x00\x00\x00\x00\x00\x00\x00\x05\
        G";

    #[test]
    fn writes_the_example(rt: HostRuntime) {
        let mut out = [0; 58];
        assert_eq!(rt; write_file(4, &LINES, &[TRIAL], 1, &mut out), Ok(58));
        assert_eq!(rt; out, FILE);
    }

    #[test]
    fn reads_the_example(rt: HostRuntime) {
        let mut lines = [Line::default(); 4];
        let mut places = [Trial::default(); 64];
        let mut waiting = Queue::new(&mut places);
        let heading = Heading {
            n: 4,
            lines: 4,
            aim: Aim::Greatest,
        };
        assert_eq!(rt; read_file(&FILE, &mut lines, &mut waiting), Ok(heading));
        assert_eq!(rt; waiting.take(), Some(TRIAL));
        assert_eq!(rt; waiting.take(), None);
        assert_eq!(rt; lines, LINES);
    }

    #[test]
    fn one_byte_short(rt: HostRuntime) {
        let mut out = [7; 57];
        assert_eq!(rt;
            write_file(4, &LINES, &[TRIAL], 1, &mut out),
            Err(Decline::BufferLength)
        );
        assert_eq!(rt; out, [7; 57]);
    }
}
