//! Calls and answers in plain words.
use law::{Answer, Call, Given};
use planner::{Outcome, Side, Tally};
use plant::{Aim, Decline, Line, Trial};
use reach::JunctionSet;
use std::fmt;

/// A value, to be told in plain words.
#[derive(Drop)]
pub struct Words<'a, T>(pub &'a T);

// So many of what a noun names.
#[derive(Clone, Copy)]
struct Count<'a>(u32, &'a str);

impl fmt::Display for Count<'_> {
    fn fmt<W: fmt::Write>(&self, f: &mut fmt::Formatter<W>) -> fmt::Result {
        let Count(count, noun) = *self;
        let ending = if count == 1 { "" } else { "s" };
        write!(f, "{count} {noun}{ending}")
    }
}

// An aim by its number.
#[derive(Clone, Copy)]
struct AimWord(u8);

impl fmt::Display for AimWord {
    fn fmt<W: fmt::Write>(&self, f: &mut fmt::Formatter<W>) -> fmt::Result {
        f.write_str(match Aim::try_from(self.0) {
            Ok(Aim::Greatest) => "greatest",
            Ok(Aim::Least) => "least",
            Err(_) => "no aim",
        })
    }
}

// The members of a set of junctions, and how many they are.
#[derive(Clone, Copy)]
struct Members<'a>(&'a [u8; 32], u16);

impl fmt::Display for Members<'_> {
    fn fmt<W: fmt::Write>(&self, f: &mut fmt::Formatter<W>) -> fmt::Result {
        let Members(bytes, junctions) = *self;
        let set = JunctionSet { bytes: *bytes };
        f.write_str("junctions")?;
        for v in (0..=255u8).filter(|&v| set.contains(v)) {
            write!(f, " {v}")?;
        }
        write!(f, " ({junctions} of them)")
    }
}

impl fmt::Display for Words<'_, Side> {
    fn fmt<W: fmt::Write>(&self, f: &mut fmt::Formatter<W>) -> fmt::Result {
        f.write_str(match self.0 {
            Side::Near => "near",
            Side::Far => "far",
        })
    }
}

impl fmt::Display for Words<'_, Outcome> {
    fn fmt<W: fmt::Write>(&self, f: &mut fmt::Formatter<W>) -> fmt::Result {
        f.write_str(match self.0 {
            Outcome::InWork => "still in work",
            Outcome::Flow => "settled with a flow",
            Outcome::Impossible => "settled as impossible",
        })
    }
}

// What the test says that failed.
impl fmt::Display for Words<'_, Decline> {
    fn fmt<W: fmt::Write>(&self, f: &mut fmt::Formatter<W>) -> fmt::Result {
        f.write_str(match self.0 {
            Decline::AimNumber => "the aim is neither 1 nor 2",
            Decline::JunctionCount => "fewer than 2 junctions, or more than 250",
            Decline::LineCount => "more than 1,000 lines",
            Decline::LineEnds => "an end that is no junction, or two equal ends",
            Decline::LineDirection => "a line that ends at the header or leaves the tank",
            Decline::LineLimits => "low above high, or high above 1,000,000",
            Decline::WorkNumber => "a work of none, or of more than 60,000",
            Decline::LineNumber => "no line has this number",
            Decline::BufferLength => "the buffer is too short",
            Decline::TrialCount => "more than 64 trials",
            Decline::NoCommand => "a byte that is no command at its place",
            Decline::FileEnds => "the file ends inside a command or before its aim",
            Decline::FileGoesOn => "bytes after the aim",
            Decline::NothingInWork => "nothing is in work",
            Decline::NothingSettled => "nothing is settled",
            Decline::NoFlow => "the plant was found impossible, so there is no flow",
            Decline::NoHurdle => "the plant has a flow, so there is no hurdle",
        })
    }
}

impl fmt::Display for Words<'_, Line> {
    fn fmt<W: fmt::Write>(&self, f: &mut fmt::Formatter<W>) -> fmt::Result {
        let Line {
            from,
            to,
            low,
            high,
        } = *self.0;
        write!(f, "{from} to {to} carries {low}..{high}")
    }
}

// A plant with its aim.
impl fmt::Display for Words<'_, Given> {
    fn fmt<W: fmt::Write>(&self, f: &mut fmt::Formatter<W>) -> fmt::Result {
        let given = self.0;
        let junctions = Count(u32::from(given.n), "junction");
        write!(f, "{}, {junctions}:", AimWord(given.aim))?;
        for (k, line) in given.lines.iter().enumerate() {
            let comma = if k == 0 { "" } else { "," };
            write!(f, "{comma} {}", Words(line))?;
        }
        Ok(())
    }
}

impl fmt::Display for Words<'_, Tally> {
    fn fmt<W: fmt::Write>(&self, f: &mut fmt::Formatter<W>) -> fmt::Result {
        let Tally {
            relabels,
            discharges,
        } = *self.0;
        write!(f, "relabels {relabels}, discharges {discharges}")
    }
}

impl fmt::Display for Words<'_, Call> {
    fn fmt<W: fmt::Write>(&self, f: &mut fmt::Formatter<W>) -> fmt::Result {
        match self.0 {
            Call::Start(given) => write!(f, "start {}", Words(given)),
            Call::Work(number) => write!(f, "work {number}"),
            Call::Trial { given, trial } => {
                let Trial { line, low, high } = *trial;
                write!(
                    f,
                    "trial {}, but line {line} at {low}..{high}",
                    Words(given)
                )
            }
            Call::Total => f.write_str("total"),
            Call::Flow(line) => write!(f, "flow of line {line}"),
            Call::Cut { side, room } => write!(f, "{} cut, into {room} bytes", Words(side)),
            Call::Crossing { side, room } => {
                write!(
                    f,
                    "lines across the {} cut, into {room} numbers",
                    Words(side)
                )
            }
            Call::Hurdle { room } => write!(f, "hurdle, into {room} bytes"),
            Call::Tallies => f.write_str("tallies"),
        }
    }
}

impl fmt::Display for Words<'_, Answer> {
    fn fmt<W: fmt::Write>(&self, f: &mut fmt::Formatter<W>) -> fmt::Result {
        match self.0 {
            Answer::Started => f.write_str("started"),
            Answer::Worked { outcome, made } => {
                write!(f, "{}, {} made", Words(outcome), Count(*made, "discharge"))
            }
            Answer::Tried(outcome) => write!(f, "{}", Words(outcome)),
            Answer::Total(total) => write!(f, "{total}"),
            Answer::Flow(flow) => write!(f, "{flow}"),
            Answer::Cut {
                set,
                junctions,
                bound,
            } => write!(f, "{}, bound {bound}", Members(set, *junctions)),
            Answer::Crossing(numbers) => {
                f.write_str("lines")?;
                for number in numbers.iter() {
                    write!(f, " {number}")?;
                }
                Ok(())
            }
            Answer::Hurdle {
                set,
                junctions,
                shortfall,
            } => write!(f, "{}, shortfall {shortfall}", Members(set, *junctions)),
            Answer::Tallies { one, two } => {
                write!(f, "stage one: {}; stage two: {}", Words(one), Words(two))
            }
            Answer::Declined(decline) => {
                write!(f, "declined {}: {}", u8::from(*decline), Words(decline))
            }
        }
    }
}
