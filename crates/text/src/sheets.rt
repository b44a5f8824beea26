//! The text of a sheet, in the caller's buffer.
ghost use Rattle.std.specs.Prelude.{◌+◌, ◌^◌, ◌<◌, ◌≤◌, length};
ghost use Rattle.plant.specs.Numbers.{number_of};
ghost use Rattle.text.specs.Pieces.{Adds, Puts, room};
ghost use Rattle.text.specs.Text.{aim_name, cut_row, declined_text, flow_row, flow_text, head_row, hurdle_text, marked, SmallFlows, SmallTrials, total_text, trial_row};

use super::page::Page;
use super::page::calls::Row;
use plant::{Aim, Decline};

/// A trial that was made: its line, and the total if there was a feasible flow.
#[derive(Clone, Copy, Default, PartialEq, Eq, Debug)]
pub struct Tried {
    pub line: u16,
    pub total: Option<u64>,
}

/// What is shown of a plant with a flow, the cuts as marks below n.
#[derive(Clone, Copy)]
pub struct FlowSheet<'a> {
    pub aim: Aim,
    pub total: u64,
    pub flows: &'a [u32],
    pub near: &'a [bool],
    pub far: &'a [bool],
    pub trials: &'a [Tried],
}

/// What is shown of an impossible plant, the hurdle as marks below n.
#[derive(Clone, Copy)]
pub struct HurdleSheet<'a> {
    pub shortfall: u64,
    pub hurdle: &'a [bool],
    pub trials: &'a [Tried],
}

impl Page<'_> {
    fn put_total(&mut self, total: Option<u64>)
        requires { length (total_text total) ≤ room self.old }
        ensures { Adds (total_text total) self.old self.new }
    {
        match total {
            Some(total) => self.put_number(total),
            None => self.put(b"NONE"),
        }
    }

    fn put_cut(&mut self, name: &[u8], set: &[bool])
        requires { length (cut_row name.now set.now) ≤ room self.old }
        ensures { Adds (cut_row name.now set.now) self.old self.new }
    {
        self.put(name);
        self.put_rows(set);
        self.put(b"\n");
    }

    fn put_aim(&mut self, aim: Aim)
        requires { length (aim_name aim) ≤ room self.old }
        ensures { Adds (aim_name aim) self.old self.new }
    {
        match aim {
            Aim::Greatest => self.put(b"GREATEST "),
            Aim::Least => self.put(b"LEAST "),
        }
    }

    fn put_head(&mut self, aim: Aim, total: u64)
        requires { length (head_row aim total) ≤ room self.old }
        ensures { Adds (head_row aim total) self.old self.new }
    {
        self.put_aim(aim);
        self.put_number(total);
        self.put(b"\n");
    }
}

// A flow, beside the number of its line.
impl Row for u32 {
    ghost text = { flow_row };

    fn put(&self, place: usize, page: &mut Page<'_>) {
        page.put_number(place as u64);
        page.put(b" ");
        page.put_number(*self as u64);
        page.put(b"\n");
    }
}

// A junction of a set, and nothing for one that is not in it.
impl Row for bool {
    ghost text = { λ v is_in. marked is_in v };

    fn put(&self, place: usize, page: &mut Page<'_>) {
        if *self {
            page.put(b" ");
            page.put_number(place as u64);
        }
    }
}

impl Row for Tried {
    ghost text = { λ _ t. trial_row t };

    fn put(&self, _place: usize, page: &mut Page<'_>) {
        page.put(b"TRIAL ");
        page.put_number(self.line as u64);
        page.put(b" ");
        page.put_total(self.total);
        page.put(b"\n");
    }
}

impl FlowSheet<'_> {
    fn put_on(&self, page: &mut Page<'_>)
        requires { length (flow_text self.now.aim self.now.total self.now.flows.now self.now.near.now self.now.far.now self.now.trials.now) ≤ room page.old }
        ensures { Adds (flow_text self.now.aim self.now.total self.now.flows.now self.now.near.now self.now.far.now self.now.trials.now) page.old page.new }
    {
        page.put_head(self.aim, self.total);
        page.put_rows(self.flows);
        page.put_cut(b"NEAR", self.near);
        page.put_cut(b"FAR", self.far);
        page.put_rows(self.trials);
    }

    /// The listing into the front of a buffer of at least 16,384 bytes; answers its length.
    pub fn put(&self, out: &mut [u8]) -> usize
        requires total { self.now.total < 2 ^ 32 }
        requires flows { SmallFlows self.now.flows.now }
        requires cuts { (length self.now.near.now ≤ 250) × (length self.now.far.now ≤ 250) }
        requires trials { SmallTrials self.now.trials.now }
        requires room { 16384 ≤ length out.old }
        ensures short { result ≤ 16384 }
        ensures text { Puts (flow_text self.now.aim self.now.total self.now.flows.now self.now.near.now self.now.far.now self.now.trials.now) out.old 0 result out.new }
    {
        let mut page = Page::new(out);
        self.put_on(&mut page);
        page.len()
    }
}

impl HurdleSheet<'_> {
    fn put_on(&self, page: &mut Page<'_>)
        requires { length (hurdle_text self.now.shortfall self.now.hurdle.now self.now.trials.now) ≤ room page.old }
        ensures { Adds (hurdle_text self.now.shortfall self.now.hurdle.now self.now.trials.now) page.old page.new }
    {
        page.put(b"IMPOSSIBLE ");
        page.put_number(self.shortfall);
        page.put(b"\n");
        page.put_cut(b"HURDLE", self.hurdle);
        page.put_rows(self.trials);
    }

    /// The listing into the front of a buffer of at least 16,384 bytes; answers its length.
    pub fn put(&self, out: &mut [u8]) -> usize
        requires shortfall { self.now.shortfall < 2 ^ 32 }
        requires hurdle { length self.now.hurdle.now ≤ 250 }
        requires trials { SmallTrials self.now.trials.now }
        requires room { 16384 ≤ length out.old }
        ensures short { result ≤ 16384 }
        ensures text { Puts (hurdle_text self.now.shortfall self.now.hurdle.now self.now.trials.now) out.old 0 result out.new }
    {
        let mut page = Page::new(out);
        self.put_on(&mut page);
        page.len()
    }
}

/// The line that says by which number a file is declined; answers its length.
pub fn put_declined(decline: Decline, out: &mut [u8]) -> usize
    requires { 16384 ≤ length out.old }
    ensures short { result ≤ 16384 }
    ensures text { Puts (declined_text (number_of decline)) out.old 0 result out.new }
{
    // By pieces and not by `Display`: writing may answer an error there, and here nothing may fail.
    let mut page = Page::new(out);
    page.put(b"DECLINED ");
    page.put_number(u8::from(decline) as u64);
    page.put(b"\n");
    page.len()
}
