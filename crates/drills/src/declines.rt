//! Every decline in every state.
ghost use Rattle.planner.specs.Standing.{Sound};

use super::plants::{FOUR, FREE, Question, SHORT, a_line};
use super::runs::settle;
use super::seen::Seen;
use chooser::{Chooser, Fifo, HighestLabel};
use planner::{Planner, Side, State};
use plant::{Decline, Line, Trial};
use std::process::Abort;

// One line too many.
const CROWDED: usize = 1001;

// Ends at a junction that no plant has.
const OUTSIDE: Line = a_line!(0, 251, 0, 1);

const CROWD: [Line; CROWDED] = [OUTSIDE; CROWDED];

// Questions that are declined, and why: junctions, lines and aim. Each in turn also fails tests that come later.
const BADS: &[(u8, &[Line], u8, Decline)] = &[
    (4, FOUR, 0, Decline::AimNumber),
    (4, FOUR, 3, Decline::AimNumber),
    (1, &CROWD, 0, Decline::AimNumber),
    (0, &[], 1, Decline::JunctionCount),
    (1, &CROWD, 1, Decline::JunctionCount),
    (251, FOUR, 2, Decline::JunctionCount),
    (4, &CROWD, 1, Decline::LineCount),
    (250, &[OUTSIDE], 1, Decline::LineEnds),
    (4, &[a_line!(4, 0, 2, 1)], 2, Decline::LineEnds),
    (4, &[a_line!(1, 1, 2, 1)], 2, Decline::LineEnds),
    (4, &[a_line!(2, 0, 2, 1)], 1, Decline::LineDirection),
    (4, &[a_line!(1, 2, 2, 1)], 2, Decline::LineDirection),
    (4, &[a_line!(0, 1, 2, 1), OUTSIDE], 2, Decline::LineLimits),
    (4, &[a_line!(0, 1, 0, 1_000_001)], 1, Decline::LineLimits),
];

// Those that a trial declines, and why.
const LIMITS: &[(u16, u32, u32, Decline)] = &[
    (4, 0, 1, Decline::LineNumber),
    (65_535, 2, 1, Decline::LineNumber),
    (3, 2, 1, Decline::LineLimits),
    (0, 0, 1_000_001, Decline::LineLimits),
];

// Limits of no line, and wrong ones.
const WRONG: Trial = Trial {
    line: 65_535,
    low: 1,
    high: 0,
};

const GOOD: Question<'static> = Question {
    n: 4,
    lines: FOUR,
    aim: 1,
};

// Declined starts leave the planner as it was.
fn bad_starts<C: Chooser>(planner: &mut Planner<C>, seen: &Seen) -> bool
    requires { Sound C.Chooser.has planner.old }
    ensures { Sound C.Chooser.has planner.new }
{
    // A loop: `all` promises nothing of the planner that its closure changes, and it has to stay sound.
    for &(n, lines, aim, by) in BADS {
        if planner.start(n, lines, aim) != Err(by) || Seen::of(planner) != *seen {
            return false;
        }
    }
    true
}

// A declined trial leaves the planner and the list as they were.
fn bad_trial<C: Chooser>(
    planner: &mut Planner<C>,
    seen: &Seen,
    asked: Question<'_>,
    limits: Trial,
    by: Decline,
) -> bool
    requires { Sound C.Chooser.has planner.old }
    ensures { Sound C.Chooser.has planner.new }
{
    let mut places = CROWD;
    let Some(list) = places.get_mut(..asked.lines.len()) else {
        return false;
    };
    list.copy_from_slice(asked.lines);
    let answer = planner.trial(asked.n, list, asked.aim, limits);
    answer == Err(by) && &*list == asked.lines && Seen::of(planner) == *seen
}

// Trials of such lists are declined by the list's tests, before those of the line's number and the limits.
fn bad_lists<C: Chooser>(planner: &mut Planner<C>, seen: &Seen) -> bool
    requires { Sound C.Chooser.has planner.old }
    ensures { Sound C.Chooser.has planner.new }
{
    // A loop: `all` promises nothing of the planner that its closure changes, and it has to stay sound.
    for &(n, lines, aim, by) in BADS {
        if !bad_trial(planner, seen, Question { n, lines, aim }, WRONG, by) {
            return false;
        }
    }
    true
}

// Trials of a good list are declined by the line's number, and then by the limits.
fn bad_trials<C: Chooser>(planner: &mut Planner<C>, seen: &Seen) -> bool
    requires { Sound C.Chooser.has planner.old }
    ensures { Sound C.Chooser.has planner.new }
{
    // A loop: `all` promises nothing of the planner that its closure changes, and it has to stay sound.
    for &(line, low, high, by) in LIMITS {
        if !bad_trial(planner, seen, GOOD, Trial { line, low, high }, by) {
            return false;
        }
    }
    true
}

// Readings of one cut into buffers that are too short, in a state that declines flows by `by`, or by nothing.
fn bad_cuts<C: Chooser>(planner: &Planner<C>, side: Side, by: Option<Decline>) -> bool {
    let mut short = [7u8; 31];
    let mut one = [7u16; 1];
    let cut = planner.cut(side, &mut short).err();
    let crossing = planner.crossing(side, &mut one).err();
    let first = by.or(Some(Decline::BufferLength));
    cut == first && crossing == first && short == [7u8; 31] && one == [7u16; 1]
}

// Readings of the hurdle into a buffer that is too short.
fn bad_hurdle<C: Chooser>(planner: &Planner<C>, by: Option<Decline>) -> bool {
    let mut short = [7u8; 31];
    let hurdle = planner.hurdle(&mut short).err();
    hurdle == by.or(Some(Decline::BufferLength)) && short == [7u8; 31]
}

// Readings of the total, and of the flows of the last line and of those that no list here has.
fn bad_flows<C: Chooser>(planner: &Planner<C>, by: Option<Decline>) -> bool {
    let first = by.or(Some(Decline::LineNumber));
    planner.total().err() == by
        && planner.flow(3).err() == by
        && planner.flow(4).err() == first
        && planner.flow(65_535).err() == first
}

// A state, the lines of the question, if any, and the number of discharges that lead to it, and by what it declines.
#[derive(Clone, Copy)]
struct Way {
    lines: Option<&'static [Line]>,
    work: u32,
    state: State,
    work_by: Decline,
    flow_by: Option<Decline>,
    hurdle_by: Option<Decline>,
}

const WAYS: &[Way] = &[
    Way {
        lines: None,
        work: 0,
        state: State::Idle,
        work_by: Decline::NothingInWork,
        flow_by: Some(Decline::NothingSettled),
        hurdle_by: Some(Decline::NothingSettled),
    },
    Way {
        lines: Some(FOUR),
        work: 0,
        state: State::StageOne,
        work_by: Decline::WorkNumber,
        flow_by: Some(Decline::NothingSettled),
        hurdle_by: Some(Decline::NothingSettled),
    },
    Way {
        lines: Some(FREE),
        work: 1,
        state: State::StageTwo,
        work_by: Decline::WorkNumber,
        flow_by: Some(Decline::NothingSettled),
        hurdle_by: Some(Decline::NothingSettled),
    },
    Way {
        lines: Some(FOUR),
        work: 60_000,
        state: State::SettledFlow,
        work_by: Decline::NothingInWork,
        flow_by: None,
        hurdle_by: Some(Decline::NoHurdle),
    },
    Way {
        lines: Some(SHORT),
        work: 60_000,
        state: State::SettledImpossible,
        work_by: Decline::NothingInWork,
        flow_by: Some(Decline::NoFlow),
        hurdle_by: None,
    },
];

impl Way {
    // Leads a planner into the state.
    fn lead<C: Chooser>(&self, planner: &mut Planner<C>) -> bool
        requires { Sound C.Chooser.has planner.old }
        ensures { Sound C.Chooser.has planner.new }
    {
        if let Some(lines) = self.lines {
            let _ = planner.start(4, lines, 1);
        }
        let _ = planner.work(self.work);
        planner.state() == self.state
    }

    // A stage is open, so that a work of 1 would be done.
    fn is_in_work(&self) -> bool {
        matches!(self.state, State::StageOne | State::StageTwo)
    }

    // Declined works leave the planner as it was; where nothing is in work, so does a work of 1.
    fn bad_works<C: Chooser>(&self, planner: &mut Planner<C>, seen: &Seen) -> bool
        requires { Sound C.Chooser.has planner.old }
        ensures { Sound C.Chooser.has planner.new }
    {
        let by = Some(self.work_by);
        let none = planner.work(0).err();
        let many = planner.work(60_001).err();
        let one = if self.is_in_work() {
            by
        } else {
            planner.work(1).err()
        };
        [none, many, one] == [by; 3] && Seen::of(planner) == *seen
    }

    // All declines of the state.
    fn decline_all<C: Chooser>(&self, planner: &mut Planner<C>) -> bool
        requires { Sound C.Chooser.has planner.old }
        ensures { Sound C.Chooser.has planner.new }
    {
        let seen = Seen::of(planner);
        let starts = bad_starts(planner, &seen);
        let lists = bad_lists(planner, &seen);
        let trials = bad_trials(planner, &seen);
        let works = self.bad_works(planner, &seen);
        starts && lists && trials && works
    }

    // All declined readings of the state.
    fn read_all<C: Chooser>(&self, planner: &Planner<C>) -> bool {
        bad_flows(planner, self.flow_by)
            && bad_cuts(planner, Side::Near, self.flow_by)
            && bad_cuts(planner, Side::Far, self.flow_by)
            && bad_hurdle(planner, self.hurdle_by)
    }

    // Goes on after the declines: works to the end, or asks anew.
    fn go_on<C: Chooser>(&self, planner: &mut Planner<C>) -> Seen
        requires { Sound C.Chooser.has planner.old }
    {
        if !self.is_in_work() {
            let _ = planner.start(4, FOUR, 2);
        }
        let _ = settle(planner, 1);
        Seen::of(planner)
    }

    // A planner that declined goes on as its twin that was never asked.
    fn drill<C: Chooser>(&self, planner: &mut Planner<C>, twin: &mut Planner<C>) -> bool
        requires planner { Sound C.Chooser.has planner.old }
        requires twin { Sound C.Chooser.has twin.old }
    {
        let first = self.lead(planner);
        let second = self.lead(twin);
        let calls = self.decline_all(planner);
        let readings = self.read_all(planner);
        let same = self.go_on(planner) == self.go_on(twin);
        first && second && calls && readings && same
    }
}

// Drills a new planner in each state.
fn drill_all<C: Chooser + Drop, F: Fn() -> C>(rt: &impl Abort, chooser: F)
    requires { F.IsAlwaysCallable chooser }
{
    for way in WAYS {
        let mut planner = Planner::new(chooser());
        let mut twin = Planner::new(chooser());
        assert!(rt; way.drill(&mut planner, &mut twin));
    }
}

#[test]
fn by_order_of_arrival(rt: HostRuntime) {
    drill_all(&rt, Fifo::new);
}

#[test]
fn by_highest_label(rt: HostRuntime) {
    drill_all(&rt, HighestLabel::new);
}

// The crossing lines fit a buffer with a place for each, and leave what is behind them.
#[test]
fn a_place_for_each(rt: HostRuntime) {
    let mut planner = Planner::new(Fifo::new());
    let _ = planner.start(4, FOUR, 1);
    let _ = planner.work(60_000);
    let mut places = [7u16; 3];
    assert!(rt; planner.crossing(Side::Near, &mut places[..2]).is_ok());
    assert_eq!(rt; places, [1, 3, 7]);
}

// No crossing line fits the empty buffer.
#[test]
fn no_place_for_none(rt: HostRuntime) {
    let mut planner = Planner::new(Fifo::new());
    let _ = planner.start(2, &[], 1);
    let _ = planner.work(1);
    assert!(rt; planner.crossing(Side::Near, &mut []).is_ok());
    assert!(rt; planner.crossing(Side::Far, &mut []).is_ok());
}
