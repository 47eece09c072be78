// The members of an action's object, each key once. What was read of them is kept in arrays by the places of their keys: bytes as where they
// stand in the text, numbers of a list in a lent array, 32 places to each list.
ghost use Rattle.std.specs.Prelude.{◌≡◌, length, drop};
ghost use Rattle.json_tokens.specs.Tokens.{closes_object, tokens};
ghost use Rattle.json_rules.specs.Members.{take_member, items, members_of};
ghost use Rattle.json_reading.specs.Answers.{key_of, NamedSays, KeyedSays, KeyedApart, list_room, no_draft, DraftSays, WholeSays};

use crate::held::{Held, read_value};
use crate::marks::{Separator, pass_mark, read_separator};
use crate::places::{KEYS, key_place};
use json_tokens::{CLOSES_OBJECT, COLON, OPENS_OBJECT, TokenAt};

// A member: the place of its key, and what that holds.
#[derive(Clone, Copy)]
struct Keyed {
    key: usize,
    held: Held,
}

// What was read of an object's members, by the places of their keys, and the position behind it.
#[derive(Clone, Copy)]
pub(crate) struct Draft {
    pub(crate) next: usize,
    pub(crate) seen: [bool; KEYS],
    pub(crate) figures: [u32; KEYS],
    pub(crate) froms: [usize; KEYS],
    pub(crate) lens: [usize; KEYS],
}

// The place of the key at `at`, with the position behind its colon.
fn read_key(s: &[u8], at: usize) -> Option<(usize, usize)>
    ensures { NamedSays s.now at result (key_of (tokens (drop at s.now))) }
{
    match json_tokens::next_token(s, at) {
        TokenAt::Text(from, end) => {
            let key = key_place(&s[from..end]);
            let next = pass_mark(s, end + 1, COLON)?;
            Some((key, next))
        }
        TokenAt::Mark(_, _) => None,
        TokenAt::End => None,
        TokenAt::Bad => None,
    }
}

// Reads the member at `at`: a key, its colon, and what that key may hold.
fn read_member(s: &[u8], at: usize, numbers: &mut [u32]) -> Option<Keyed>
    requires { length numbers.old ≡ list_room }
    ensures member { KeyedSays s.now at numbers.new result (take_member (tokens (drop at s.now))) }
    ensures kept { KeyedApart result numbers.old numbers.new }
{
    let (key, value_at) = read_key(s, at)?;
    if KEYS <= key {
        return None;
    }
    let held = read_value(s, value_at, key, numbers)?;
    Some(Keyed { key, held })
}

// No members yet.
fn no_draft() -> Draft
    ensures { result ≡ no_draft }
{
    Draft {
        next: 0,
        seen: [false; KEYS],
        figures: [0; KEYS],
        froms: [0; KEYS],
        lens: [0; KEYS],
    }
}

// Reads members up to the closing brace, each key once.
fn read_members(s: &[u8], begun: usize, numbers: &mut [u32]) -> Option<Draft>
    requires { length numbers.old ≡ list_room }
    ensures { DraftSays s.now numbers.new result (items take_member closes_object (tokens (drop begun s.now))) }
{
    let mut draft = no_draft();
    let mut at = begun;
    loop {
        let member = read_member(s, at, numbers)?;
        let key = member.key;
        if draft.seen[key] {
            return None;
        }
        draft.seen[key] = true;
        draft.figures[key] = member.held.figure;
        draft.froms[key] = member.held.from;
        draft.lens[key] = member.held.len;
        match read_separator(s, member.held.next, CLOSES_OBJECT)? {
            Separator::More(next) => {
                at = next;
            }
            Separator::Done(next) => {
                draft.next = next;
                return Some(draft);
            }
        }
    }
}

// Reads an object with nothing behind it.
pub(crate) fn read_object(s: &[u8], numbers: &mut [u32]) -> Option<Draft>
    requires { length numbers.old ≡ list_room }
    ensures { WholeSays s.now numbers.new result (members_of (tokens s.now)) }
{
    let begun = pass_mark(s, 0, OPENS_OBJECT)?;
    let draft = read_members(s, begun, numbers)?;
    match json_tokens::next_token(s, draft.next) {
        TokenAt::End => Some(draft),
        TokenAt::Mark(_, _) => None,
        TokenAt::Text(_, _) => None,
        TokenAt::Bad => None,
    }
}
