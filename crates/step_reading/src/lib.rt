// A plan text read: where each of its actions begins.
// The slice is lent, of any length and content, and read in one pass: the first failing line
// decides. Reading steps and reading a plan call each other, with one level less at each plan.
#![tactic(auto)]

ghost use Rattle.std.specs.Prelude.{◌≡◌, ◌+◌, ◌-◌, ◌≤◌, ◌<◌, set};
ghost use Rattle.lines.specs.Answers.{state_of};
ghost use Rattle.text_rules.specs.Actions.{read_action};
ghost use Rattle.steps.specs.Steps.{text_action_limit};
ghost use Rattle.steps.specs.Nesting.{opened, read_steps, read_plan, plan_of};
ghost use Rattle.step_reading.specs.Finding.{Opens, Finds, TextFound};

use lines::{Cursor, Reading};
use refusals::Refusal;
use steps::TEXT_ACTIONS;

// Where the actions of a plan text begin, in reading order, and where the reading stands.
#[derive(Clone, Copy)]
pub struct Places {
    pub list: [usize; TEXT_ACTIONS],
    pub count: usize,
    pub cursor: Cursor,
}

// The same actions, with the reading at another place.
fn moved(p: Places, cursor: Cursor) -> Places
    ensures { result ≡ record { list = p.list; count = p.count; cursor = cursor } }
{
    Places { cursor, ..p }
}

// The line that opens a step, with so many levels left below and so many actions before it: what the step is, 0 where the reading fails.
fn open_step(s: &[u8], c: Cursor, levels: usize, count: usize) -> Reading<u32>
    ensures { Opens s.now result (opened levels (text_action_limit - count) (state_of s.now c)) }
{
    let step = lines::read_step(s, c);
    if step.value == lines::ACTION_STEP {
        if TEXT_ACTIONS <= count {
            return Reading {
                value: 0,
                cursor: lines::refused(step.cursor, Refusal::TooManyActions),
            };
        }
        return step;
    }
    if step.value == lines::PLAN_STEP && levels == 0 {
        return Reading {
            value: 0,
            cursor: lines::refused(step.cursor, Refusal::TooDeep),
        };
    }
    step
}

// The next action: where it begins is kept behind those before it.
fn take_action(s: &[u8], p: Places, c: Cursor) -> Places
    requires { p.count < text_action_limit }
    ensures list { result.list ≡ set p.list p.count c.at }
    ensures count { result.count ≡ p.count + 1 }
    ensures state { state_of s.now result.cursor ≡ (read_action (state_of s.now c)).state }
{
    let form = action_reading::read_lines(s, c);
    let at = p.count;
    let mut list = p.list;
    list[at] = c.at;
    Places {
        list,
        count: at + 1,
        cursor: form.cursor,
    }
}

// `k` steps, with so many levels left below them.
#[cycle(read_plan_read_steps)]
fn read_steps(s: &[u8], k: u32, levels: usize, p: Places) -> Places
    requires { p.count ≤ text_action_limit }
    ensures { Finds s.now p result (read_steps (read_plan levels) levels k (text_action_limit - p.count) (state_of s.now p.cursor)) }
{
    let mut found = p;
    for i in 0..k {
        let next = open_step(s, found.cursor, levels, found.count);
        if next.value == lines::ACTION_STEP {
            found = take_action(s, found, next.cursor);
        } else if next.value == lines::PLAN_STEP {
            found = read_plan(s, levels, moved(found, next.cursor));
        } else {
            return moved(found, next.cursor);
        }
    }
    found
}

// A plan, with so many levels left, its own among them: the count of its steps, and the steps.
#[cycle(read_plan_read_steps)]
fn read_plan(s: &[u8], levels: usize, p: Places) -> Places
    requires { (0 < levels) × (p.count ≤ text_action_limit) }
    ensures { Finds s.now p result (read_plan levels (text_action_limit - p.count) (state_of s.now p.cursor)) }
{
    let counted = lines::read_count(s, p.cursor, b"plan=", steps::STEPS);
    read_steps(s, counted.value, levels - 1, moved(p, counted.cursor))
}

// Reads a text as a plan; nothing follows it.
pub fn read_text(text: &[u8]) -> Places
    ensures { TextFound text.now result (plan_of text.now) }
{
    let none = Places {
        list: [0; TEXT_ACTIONS],
        count: 0,
        cursor: lines::start(),
    };
    let read = read_plan(text, steps::LEVELS, none);
    moved(read, lines::finish(text, read.cursor))
}
