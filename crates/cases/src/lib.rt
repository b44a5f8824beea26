//! Tests over tables: worked plants from file to sheet, and every decline at its edge.
#![tactic(auto)]

#[cfg(test)]
mod tests {
    use chooser::Fifo;
    use planner::Planner;
    use plant::{Decline, Line, Trial};
    use sheet_text::{SHEET_LEN, widgulp_listing, write_listing, write_text};
    use std::alloc::{AllocError, Global};
    use std::process::Abort;
    use std::test::Fail;

    fn line(from: u8, to: u8, low: u32, high: u32) -> Line {
        Line {
            from,
            to,
            low,
            high,
        }
    }

    fn trial(line: u16, low: u32, high: u32) -> Trial {
        Trial { line, low, high }
    }

    fn push_line(file: &mut Vec<u8>, line: &Line) -> Result<(), AllocError> {
        file.extend_from_slice(&[b'L', line.from, line.to])?;
        file.extend_from_slice(&line.low.to_be_bytes())?;
        file.extend_from_slice(&line.high.to_be_bytes())
    }

    fn push_trial(file: &mut Vec<u8>, trial: &Trial) -> Result<(), AllocError> {
        file.push(b'T')?;
        file.extend_from_slice(&trial.line.to_be_bytes())?;
        file.extend_from_slice(&trial.low.to_be_bytes())?;
        file.extend_from_slice(&trial.high.to_be_bytes())
    }

    // A plant file up to its aim.
    fn open_file(
        heap: Global,
        n: u8,
        lines: &[Line],
        trials: &[Trial],
    ) -> Result<Vec<u8>, AllocError> {
        let mut file = vec![in heap; b'N', n]?;
        for line in lines {
            push_line(&mut file, line)?;
        }
        for trial in trials {
            push_trial(&mut file, trial)?;
        }
        Ok(file)
    }

    // The bytes of a file give this text.
    fn check_text(rt: &impl Abort, file: &[u8], text: &[u8]) -> Result<(), Fail> {
        let mut out = [7u8; SHEET_LEN];
        let len = write_text(file, &mut out)?;
        assert!(rt; &out[..len] == text);
        Ok(())
    }

    #[test]
    fn worked_plants(rt: HostRuntime) -> Result<(), Fail> {
        // The single line, the series pair, the four-junction plant and the impossible pair, with their trials.
        let one = [line(0, 1, 4, 9)];
        let ones = [trial(0, 3, 9), trial(0, 4, 10)];
        let pair = [line(0, 2, 0, 3), line(2, 1, 0, 3)];
        let pairs = [trial(0, 0, 4)];
        let four = [
            line(0, 2, 2, 6),
            line(2, 3, 0, 4),
            line(3, 1, 1, 5),
            line(2, 1, 0, 1),
        ];
        let fours = [trial(1, 0, 5), trial(0, 2, 7), trial(0, 1, 6)];
        let bad = [trial(3, 1, 0)];
        let short = [line(0, 2, 0, 2), line(2, 1, 3, 5)];
        let shorts = [trial(0, 0, 3), trial(0, 0, 1)];
        let cases: &[(u8, &[Line], &[Trial], u8, &[u8])] = &[
            (2, &[], &[], b'G', b"GREATEST 0\nNEAR 0\nFAR 0\n"),
            (2, &[], &[], b'M', b"LEAST 0\nNEAR 0\nFAR 0\n"),
            (
                2,
                &one,
                &ones,
                b'G',
                b"GREATEST 9\n0 9\nNEAR 0\nFAR 0\nTRIAL 0 9\nTRIAL 0 10\n",
            ),
            (
                2,
                &one,
                &ones,
                b'M',
                b"LEAST 4\n0 4\nNEAR 0\nFAR 0\nTRIAL 0 3\nTRIAL 0 4\n",
            ),
            (3, &[], &[], b'G', b"GREATEST 0\nNEAR 0\nFAR 0 2\n"),
            (3, &[], &[], b'M', b"LEAST 0\nNEAR 0\nFAR 0 2\n"),
            (
                3,
                &pair,
                &pairs,
                b'G',
                b"GREATEST 3\n0 3\n1 3\nNEAR 0\nFAR 0 2\nTRIAL 0 3\n",
            ),
            (
                3,
                &pair,
                &pairs,
                b'M',
                b"LEAST 0\n0 0\n1 0\nNEAR 0\nFAR 0 2\nTRIAL 0 0\n",
            ),
            (
                4,
                &four,
                &fours,
                b'G',
                b"GREATEST 5\n0 5\n1 4\n2 4\n3 1\nNEAR 0 2\nFAR 0 2\nTRIAL 1 6\nTRIAL 0 5\nTRIAL 0 5\n",
            ),
            (
                4,
                &four,
                &fours,
                b'M',
                b"LEAST 2\n0 2\n1 2\n2 2\n3 0\nNEAR 0\nFAR 0\nTRIAL 1 2\nTRIAL 0 2\nTRIAL 0 1\n",
            ),
            (
                3,
                &short,
                &shorts,
                b'G',
                b"IMPOSSIBLE 1\nHURDLE 0 1\nTRIAL 0 3\nTRIAL 0 NONE\n",
            ),
            (
                3,
                &short,
                &shorts,
                b'M',
                b"IMPOSSIBLE 1\nHURDLE 0 1\nTRIAL 0 3\nTRIAL 0 NONE\n",
            ),
            (4, &four, &bad, b'M', b"DECLINED 6\n"),
        ];
        for &(n, lines, trials, aim, sheet) in cases {
            let mut file = open_file(rt.alloc(), n, lines, trials)?;
            file.push(aim)?;
            check_text(&rt, &file, sheet)?;
        }
        Ok(())
    }

    // Why a file is declined, if it is.
    fn refusal(file: &[u8]) -> Option<Decline> {
        let mut out = [0u8; SHEET_LEN];
        write_listing(file, &mut out).err()
    }

    #[test]
    fn edges_of_a_line(rt: HostRuntime) -> Result<(), Fail> {
        let edges = [
            (0, line(0, 1, 0, 1), Some(Decline::JunctionCount)),
            (1, line(0, 1, 0, 1), Some(Decline::JunctionCount)),
            (2, line(0, 1, 0, 1), None),
            (250, line(0, 249, 0, 1), None),
            (251, line(0, 249, 0, 1), Some(Decline::JunctionCount)),
            (255, line(0, 249, 0, 1), Some(Decline::JunctionCount)),
            (250, line(0, 250, 0, 1), Some(Decline::LineEnds)),
            (250, line(250, 1, 0, 1), Some(Decline::LineEnds)),
            (4, line(2, 2, 0, 1), Some(Decline::LineEnds)),
            (4, line(1, 1, 0, 1), Some(Decline::LineEnds)),
            (4, line(2, 0, 0, 1), Some(Decline::LineDirection)),
            (4, line(1, 2, 0, 1), Some(Decline::LineDirection)),
            (4, line(2, 3, 1, 0), Some(Decline::LineLimits)),
            (4, line(0, 1, 0, 1_000_000), None),
            (4, line(0, 1, 0, 1_000_001), Some(Decline::LineLimits)),
            (4, line(1, 0, 1, 0), Some(Decline::LineDirection)),
        ];
        for &(n, line, by) in &edges {
            let mut file = open_file(rt.alloc(), n, &[line], &[])?;
            file.push(b'G')?;
            assert_eq!(rt; refusal(&file), by);
        }
        Ok(())
    }

    #[test]
    fn edges_of_a_file(rt: HostRuntime) {
        let files: &[(&[u8], Option<Decline>)] = &[
            (b"", Some(Decline::FileEnds)),
            (b"N", Some(Decline::FileEnds)),
            (b"N\x02", Some(Decline::FileEnds)),
            (b"N\x02G", None),
            (b"N\x02M", None),
            (b"N\x02GG", Some(Decline::FileGoesOn)),
            (b"G", Some(Decline::NoCommand)),
            (b"n\x02G", Some(Decline::NoCommand)),
            (b"N\x02N\x02G", Some(Decline::NoCommand)),
            (b"N\x02X", Some(Decline::NoCommand)),
            (
                b"N\x02L\x00\x01\x00\x00\x00\x00\x00\x00\x00",
                Some(Decline::FileEnds),
            ),
            (
                b"N\x02L\x00\x01\x00\x00\x00\x00\x00\x00\x00\x01",
                Some(Decline::FileEnds),
            ),
            (b"N\x02L\x00\x01\x00\x00\x00\x00\x00\x00\x00\x01G", None),
            (
                b"N\x02T\x00\x00\x00\x00\x00\x00\x00\x00\x00\x01G",
                Some(Decline::LineNumber),
            ),
            (b"N\x00GX", Some(Decline::FileGoesOn)),
            (b"N\x00X", Some(Decline::NoCommand)),
        ];
        for &(file, by) in files {
            assert_eq!(rt; refusal(file), by);
        }
    }

    #[test]
    fn edges_of_counts(rt: HostRuntime) -> Result<(), Fail> {
        let heap = rt.alloc();
        // Junctions, lines and trials, and why the file is declined, if it is.
        let crowds = [
            (2, 1000, 0, None),
            (2, 1001, 0, Some(Decline::LineCount)),
            (1, 1001, 0, Some(Decline::JunctionCount)),
            (2, 1, 64, None),
            (2, 1, 65, Some(Decline::TrialCount)),
            (2, 1001, 65, Some(Decline::TrialCount)),
        ];
        for &(n, lines, trials, by) in &crowds {
            let lines = vec![in heap; line(0, 1, 0, 1); lines]?;
            let trials = vec![in heap; trial(0, 0, 2); trials]?;
            let mut file = open_file(heap, n, &lines, &trials)?;
            file.push(b'G')?;
            assert_eq!(rt; refusal(&file), by);
        }
        Ok(())
    }

    // The 65th trial is declined at its first byte, before its operands are missed.
    #[test]
    fn cut_at_the_last_trial(rt: HostRuntime) -> Result<(), Fail> {
        let trials = [trial(0, 0, 2); 64];
        let mut file = open_file(rt.alloc(), 2, &[], &trials)?;
        file.push(b'T')?;
        assert_eq!(rt; refusal(&file), Some(Decline::TrialCount));
        Ok(())
    }

    // One byte too few.
    const SHORT_LEN: usize = 16_383;

    #[test]
    fn edges_of_a_buffer(rt: HostRuntime) {
        let file = b"N\x02G";
        let mut short = [7u8; SHORT_LEN];
        assert_eq!(rt; widgulp_listing(file, &mut short), -9);
        assert_eq!(rt; widgulp_listing(b"N\x02", &mut short), -12);
        assert!(rt; write_text(b"N\x02", &mut short).is_err());
        assert!(rt; short == [7u8; SHORT_LEN]);
        let mut out = [7u8; SHEET_LEN];
        assert_eq!(rt; widgulp_listing(file, &mut out), 24);
        assert!(rt; out[23] == 10 && out[24] == 7);
    }

    #[test]
    fn aims_and_works(rt: HostRuntime) {
        let mut planner = Planner::new(Fifo::new());
        assert_eq!(rt; planner.start(2, &[], 0).err(), Some(Decline::AimNumber));
        assert_eq!(rt; planner.start(0, &[], 3).err(), Some(Decline::AimNumber));
        assert_eq!(rt; planner.work(0).err(), Some(Decline::NothingInWork));
        assert_eq!(rt; planner.start(2, &[], 2).err(), None);
        assert_eq!(rt; planner.work(0).err(), Some(Decline::WorkNumber));
        assert_eq!(rt; planner.work(60_001).err(), Some(Decline::WorkNumber));
        assert_eq!(rt; planner.total().err(), Some(Decline::NothingSettled));
        assert_eq!(rt; planner.work(60_000).err(), None);
        assert_eq!(rt; planner.work(60_000).err(), Some(Decline::NothingInWork));
        assert_eq!(rt; planner.total().err(), None);
        assert_eq!(rt; planner.flow(0).err(), Some(Decline::LineNumber));
        assert_eq!(rt; planner.hurdle(&mut []).err(), Some(Decline::NoHurdle));
    }

    #[test]
    fn numbers_of_declines(rt: HostRuntime) {
        let numbers = [
            (Decline::AimNumber, 1),
            (Decline::JunctionCount, 2),
            (Decline::LineCount, 3),
            (Decline::LineEnds, 4),
            (Decline::LineDirection, 5),
            (Decline::LineLimits, 6),
            (Decline::WorkNumber, 7),
            (Decline::LineNumber, 8),
            (Decline::BufferLength, 9),
            (Decline::TrialCount, 10),
            (Decline::NoCommand, 11),
            (Decline::FileEnds, 12),
            (Decline::FileGoesOn, 13),
            (Decline::NothingInWork, 21),
            (Decline::NothingSettled, 22),
            (Decline::NoFlow, 23),
            (Decline::NoHurdle, 24),
        ];
        for &(decline, number) in &numbers {
            assert_eq!(rt; u8::from(decline), number);
        }
    }
}
