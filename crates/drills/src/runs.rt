//! Work in portions, both choosers, and trials.
ghost use Rattle.planner.specs.Standing.{Sound};

use super::plants::{DRAWN_JUNCTIONS, PLANS, Question, drawn};
use super::seen::{Answers, Seen};
use chooser::{Chooser, Fifo, HighestLabel};
use planner::{Outcome, Planner};
use plant::Trial;
use std::process::Abort;

// The most works that a test waits for.
const WORKS: u32 = 100_000;

/// Works in portions until the question is settled, and tells the discharges; none where a work is declined, or where
/// the most works settle nothing.
pub fn settle<C: Chooser>(planner: &mut Planner<C>, portion: u32) -> Option<u64>
    requires { Sound C.Chooser.has planner.old }
    ensures { Sound C.Chooser.has planner.new }
{
    let mut told: u64 = 0;
    for _ in 0..WORKS {
        let (outcome, made) = planner.work(portion).ok()?;
        told = told.wrapping_add(u64::from(made));
        if outcome != Outcome::InWork {
            return Some(told);
        }
    }
    None
}

// Asks a question and works in portions; answers what is seen, if the tallies are what was told.
fn ask<C: Chooser>(
    rt: &impl Abort,
    planner: &mut Planner<C>,
    asked: Question<'_>,
    portion: u32,
) -> Seen
    requires { Sound C.Chooser.has planner.old }
    ensures { Sound C.Chooser.has planner.new }
{
    let _ = planner.start(asked.n, asked.lines, asked.aim);
    let told = settle(planner, portion);
    let seen = Seen::of(planner);
    assert!(rt; told == Some(seen.discharges()));
    seen
}

// Portions of 1, 7 and 60,000 give the same; answers what is seen.
fn ask_in_portions<C: Chooser>(
    rt: &impl Abort,
    planner: &mut Planner<C>,
    asked: Question<'_>,
) -> Seen
    requires { Sound C.Chooser.has planner.old }
{
    let by_one = ask(rt, planner, asked, 1);
    let by_seven = ask(rt, planner, asked, 7);
    let by_most = ask(rt, planner, asked, 60_000);
    assert!(rt; by_one == by_most && by_seven == by_most);
    by_most
}

// Both choosers give the same answers to a question, in any portions.
fn compare(rt: &impl Abort, asked: Question<'_>) {
    let mut first = Planner::new(Fifo::new());
    let mut second = Planner::new(HighestLabel::new());
    let one = ask_in_portions(rt, &mut first, asked);
    let two = ask_in_portions(rt, &mut second, asked);
    assert!(rt; one.answers == two.answers);
}

#[test]
fn plants_by_table(rt: HostRuntime) {
    for &(n, lines) in PLANS {
        for aim in [1, 2] {
            compare(&rt, Question { n, lines, aim });
        }
    }
}

#[test]
fn drawn_plants(rt: HostRuntime) {
    for seed in 0..200 {
        let lines = drawn(seed);
        for aim in [1, 2] {
            compare(
                &rt,
                Question {
                    n: DRAWN_JUNCTIONS,
                    lines: &lines,
                    aim,
                },
            );
        }
    }
}

// A trial gives the same with both choosers, and leaves the list as it was.
fn compare_trial(rt: &impl Abort, seed: u32, aim: u8, low: u32, high: u32) {
    let mut first = Planner::new(Fifo::new());
    let mut second = Planner::new(HighestLabel::new());
    let mut list = drawn(seed);
    let line = (seed % 24) as u16;
    let trial = Trial { line, low, high };
    let one = first.trial(DRAWN_JUNCTIONS, &mut list, aim, trial);
    let two = second.trial(DRAWN_JUNCTIONS, &mut list, aim, trial);
    assert!(rt; one.is_ok() && two.is_ok());
    assert!(rt; Answers::of(&first) == Answers::of(&second) && list == drawn(seed));
}

#[test]
fn trials_of_drawn_plants(rt: HostRuntime) {
    for seed in 0..100 {
        compare_trial(&rt, seed, 1, 0, 1_000_000);
        compare_trial(&rt, seed, 2, 3, 3);
    }
}
