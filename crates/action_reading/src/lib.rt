// An action read from a lent text of any length and content.
// In one pass: the first failing line decides.
#![tactic(auto)]

ghost use Rattle.std.specs.Prelude.{◌≡◌, ◌++◌, ◌-◌, length, replicate};
ghost use Rattle.actions.specs.Actions.{no_use, use_limit, govern_limit, no_action};
ghost use Rattle.lines.specs.Answers.{state_of};
ghost use Rattle.text_rules.specs.Actions.{read_use, read_uses, read_governs, read_action, action_read, action_ending};
ghost use Rattle.register_reading.specs.Reads.{Reads};

use actions::{Action, FLAGS_LIMIT, Usage};
use lines::Cursor;
use register::ID_LIMIT;
use rights::POLICY_MODIFY;
use text_rules::{ActionRead, LAST_MOMENT};

// What was read of a kind, and where the reading then stands.
#[derive(Clone, Copy)]
struct UseRead {
    usage: Usage,
    cursor: Cursor,
}

#[derive(Clone, Copy)]
struct UsesRead {
    uses: [Usage; Action::USES],
    used: usize,
    cursor: Cursor,
}

#[derive(Clone, Copy)]
struct GovernsRead {
    governs: [u32; Action::GOVERNED],
    governed: usize,
    cursor: Cursor,
}

// The action that lines say, and where the reading then stands.
#[derive(Clone, Copy)]
pub struct ActionForm {
    pub action: Action,
    pub cursor: Cursor,
}

// The lines `use` and `right`.
fn read_use(s: &[u8], c: Cursor) -> UseRead
    ensures { Reads s.now result.usage result.cursor (read_use (state_of s.now c)) }
{
    let resource = lines::read_number(s, c, b"use=", 0, ID_LIMIT);
    let right = lines::read_number(s, resource.cursor, b"right=", 0, POLICY_MODIFY);
    let usage = Usage {
        resource: resource.value,
        right: right.value,
    };
    UseRead {
        usage,
        cursor: right.cursor,
    }
}

// The line `uses` and that many uses.
fn read_uses(s: &[u8], c: Cursor) -> UsesRead
    ensures uses { result.uses ≡ (read_uses (state_of s.now c)).value ++ replicate (use_limit - length (read_uses (state_of s.now c)).value) no_use }
    ensures used { result.used ≡ length (read_uses (state_of s.now c)).value }
    ensures state { state_of s.now result.cursor ≡ (read_uses (state_of s.now c)).state }
{
    let counted = lines::read_count(s, c, b"uses=", Action::USES as u32);
    let used = counted.value as usize;
    let none = Usage {
        resource: 0,
        right: 0,
    };
    let mut uses = [none; Action::USES];
    let mut cursor = counted.cursor;
    for i in 0..used {
        let one = read_use(s, cursor);
        uses[i] = one.usage;
        cursor = one.cursor;
    }
    UsesRead { uses, used, cursor }
}

// The line `governs` and that many entries.
fn read_governs(s: &[u8], c: Cursor) -> GovernsRead
    ensures governs { result.governs ≡ (read_governs (state_of s.now c)).value ++ replicate (govern_limit - length (read_governs (state_of s.now c)).value) 0 }
    ensures governed { result.governed ≡ length (read_governs (state_of s.now c)).value }
    ensures state { state_of s.now result.cursor ≡ (read_governs (state_of s.now c)).state }
{
    let counted = lines::read_count(s, c, b"governs=", Action::GOVERNED as u32);
    let governed = counted.value as usize;
    let mut governs = [0u32; Action::GOVERNED];
    let mut cursor = counted.cursor;
    for i in 0..governed {
        let one = lines::read_number(s, cursor, b"govern=", 0, ID_LIMIT);
        governs[i] = one.value;
        cursor = one.cursor;
    }
    GovernsRead {
        governs,
        governed,
        cursor,
    }
}

// The action of all zeros.
fn no_action() -> Action
    ensures { result ≡ no_action }
{
    let none = Usage {
        resource: 0,
        right: 0,
    };
    Action {
        actor: 0,
        flags: 0,
        now: 0,
        uses: [none; Action::USES],
        used: 0,
        governs: [0; Action::GOVERNED],
        governed: 0,
    }
}

// The answer, by where the reading ended.
fn answer(s: &[u8], c: Cursor, action: Action) -> ActionRead
    ensures { result ≡ action_ending action (state_of s.now c) }
{
    if !lines::goes_on(s, c) {
        return ActionRead {
            action: no_action(),
            outcome: Err(c.refusal),
            line: c.line,
        };
    }
    ActionRead {
        action,
        outcome: Ok(()),
        line: 0,
    }
}

// The lines of an action, from `now` to the last `govern`.
pub fn read_lines(s: &[u8], c: Cursor) -> ActionForm
    ensures { Reads s.now result.action result.cursor (read_action (state_of s.now c)) }
{
    let moment = lines::read_number(s, c, b"now=", 0, LAST_MOMENT);
    let actor = lines::read_number(s, moment.cursor, b"actor=", 0, ID_LIMIT);
    let flags = lines::read_number(s, actor.cursor, b"flags=", 0, FLAGS_LIMIT);
    let first = read_uses(s, flags.cursor);
    let second = read_governs(s, first.cursor);
    let uses = first.uses;
    let governs = second.governs;
    let action = Action {
        actor: actor.value,
        flags: flags.value,
        now: moment.value as u64,
        uses,
        used: first.used,
        governs,
        governed: second.governed,
    };
    ActionForm {
        action,
        cursor: second.cursor,
    }
}

// Reads a text as an action.
pub fn read_action(text: &[u8]) -> ActionRead
    ensures { result ≡ action_read text.now }
{
    let form = read_lines(text, lines::start());
    let end = lines::finish(text, form.cursor);
    answer(text, end, form.action)
}
