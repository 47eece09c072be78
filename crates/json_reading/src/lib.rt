// An action read from a JSON text of the builder's form.
// Any length and content is taken, in one pass: its members, and the action that they make.
#![tactic(auto)]

mod held;
mod marks;
mod members;
mod numbers;
mod places;
mod settings;

ghost use Rattle.std.specs.Prelude.{◌≡◌, ◌&&◌, ◌+◌, ◌≤◌, leb, length, take, drop};
ghost use Rattle.actions.specs.Actions.{use_limit};
ghost use Rattle.json_rules.specs.Members.{id_length};
ghost use Rattle.json_rules.specs.Actions.{held_id, unread, json_read};
ghost use Rattle.json_reading.specs.Answers.{list_room, draft_full, uses_from};

use actions::{Action, Usage};
use json_rules::{ID_BYTES, JsonRead};
use members::read_object;
use places::{ACTOR, DOMAIN, EXECUTES, ID, KEYS, KIND, READS, SETTINGS, WRITES};
use refusals::Refusal;
use register::MOMENT_END;

// How many numbers the three lists have room for, 32 each.
const NUMBERS: usize = 3 * Action::USES;

// Whether the keys that must be there were seen, and the lists have at most 32 numbers together.
fn is_full(seen: [bool; KEYS], reads: usize, writes: usize, executes: usize) -> bool
    requires { (reads ≤ use_limit) × (writes ≤ use_limit) × (executes ≤ use_limit) }
    ensures { result ≡ (draft_full seen && leb (reads + writes + executes) use_limit) }
{
    for there in &seen[..DOMAIN] {
        if !*there {
            return false;
        }
    }
    reads + writes + executes <= Action::USES
}

// The uses of the numbers of the three lists, with zeros behind them.
fn uses_of(numbers: &[u32], reads: usize, writes: usize, executes: usize) -> [Usage; Action::USES]
    requires { (length numbers.now ≡ list_room) × (reads + writes + executes ≤ use_limit) }
    ensures { result ≡ uses_from numbers.now reads writes executes }
{
    let none = Usage {
        resource: 0,
        right: 0,
    };
    let mut uses = [none; Action::USES];
    let used = reads + writes + executes;
    for i in 0..used {
        if i < reads {
            uses[i] = Usage {
                resource: numbers[i],
                right: rights::READ,
            };
        } else if i < reads + writes {
            uses[i] = Usage {
                resource: numbers[Action::USES + i - reads],
                right: rights::WRITE,
            };
        } else {
            uses[i] = Usage {
                resource: numbers[2 * Action::USES + i - reads - writes],
                right: rights::EXECUTE,
            };
        }
    }
    uses
}

// The bytes of an id, with zeros behind them.
fn id_of(s: &[u8], from: usize, len: usize) -> [u8; ID_BYTES]
    requires { (from + len ≤ length s.now) × (len ≤ id_length) }
    ensures { result ≡ held_id (take len (drop from s.now)) }
{
    let mut id = [0u8; ID_BYTES];
    for i in 0..len {
        id[i] = s[from + i];
    }
    id
}

// A refused reading.
fn refused(why: Refusal) -> JsonRead
    ensures { result ≡ unread why }
{
    let none = Usage {
        resource: 0,
        right: 0,
    };
    let uses = [none; Action::USES];
    let governs = [0u32; Action::GOVERNED];
    let action = Action {
        actor: 0,
        flags: 0,
        now: 0,
        uses,
        used: 0,
        governs,
        governed: 0,
    };
    let id = [0u8; ID_BYTES];
    JsonRead {
        action,
        outcome: Err(why),
        kind: 0,
        len: 0,
        id,
    }
}

// Reads a text as an action at the moment, with its id and kind.
pub fn read_json(text: &[u8], moment: u64) -> JsonRead
    ensures { result ≡ json_read text.now moment }
{
    if MOMENT_END <= moment {
        return refused(Refusal::Range);
    }
    let mut numbers = [0u32; NUMBERS];
    let Some(draft) = read_object(text, &mut numbers) else {
        return refused(Refusal::JsonForm);
    };
    let seen = draft.seen;
    let reads = draft.lens[READS];
    let writes = draft.lens[WRITES];
    let executes = draft.lens[EXECUTES];
    if !is_full(seen, reads, writes, executes) {
        return refused(Refusal::JsonForm);
    }
    let uses = uses_of(&numbers, reads, writes, executes);
    let governs = [0u32; Action::GOVERNED];
    let action = Action {
        actor: draft.figures[ACTOR],
        flags: draft.figures[SETTINGS],
        now: moment,
        uses,
        used: reads + writes + executes,
        governs,
        governed: 0,
    };
    let len = draft.lens[ID];
    let id = id_of(text, draft.froms[ID], len);
    JsonRead {
        action,
        outcome: Ok(()),
        kind: draft.figures[KIND],
        len: len as u32,
        id,
    }
}
