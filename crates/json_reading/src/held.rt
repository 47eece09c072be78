// What a key of an action holds: an id, a number, a kind, a list of numbers, the flags, the one trust domain, the depth 0.
ghost use Rattle.std.specs.Prelude.{◌≡◌, true, ◌<◌, length, drop};
ghost use Rattle.json_tokens.specs.Tokens.{tokens};
ghost use Rattle.json_rules.specs.Members.{take_value};
ghost use Rattle.json_rules.specs.Items.{key_count};
ghost use Rattle.json_reading.specs.Answers.{is_text_key, is_figure_key, HeldSays, HeldAnyway, KeptApart, list_room, held_whole};

use crate::marks::pass_mark;
use crate::numbers::{read_number, read_numbers};
use crate::places::{ACTOR, DOMAIN, EXECUTES, ID, KIND, READS, SETTINGS, kind_place};
use crate::settings::read_settings;
use actions::Action;
use json_tokens::{TokenAt, ZERO};

// What a key holds, with the position behind it: a number; or where its bytes begin and how many there are; or how many numbers it has.
#[derive(Clone, Copy)]
pub(crate) struct Held {
    pub(crate) next: usize,
    pub(crate) figure: u32,
    pub(crate) from: usize,
    pub(crate) len: usize,
}

// A number that a key holds.
fn held_number(figure: u32, next: usize) -> Held
    ensures { result ≡ held_whole next figure 0 0 }
{
    Held {
        next,
        figure,
        from: 0,
        len: 0,
    }
}

// What the id, the kind or the trust domain holds at `at`: a text.
fn read_text(s: &[u8], at: usize, key: usize) -> Option<Held>
    requires { is_text_key key ≡ true }
    ensures { HeldAnyway s.now at key result (take_value key (tokens (drop at s.now))) }
{
    match json_tokens::next_token(s, at) {
        TokenAt::Text(from, end) => {
            if key == ID {
                if json_rules::is_id(&s[from..end]) {
                    return Some(Held {
                        next: end + 1,
                        figure: 0,
                        from,
                        len: end - from,
                    });
                }
                return None;
            }
            if key == KIND {
                let kind = kind_place(&s[from..end]);
                if kind <= rights::POLICY_MODIFY {
                    return Some(held_number(kind, end + 1));
                }
                return None;
            }
            if lists::is_same(b"default", &s[from..end]) {
                return Some(held_number(0, end + 1));
            }
            None
        }
        TokenAt::Mark(_, _) => None,
        TokenAt::End => None,
        TokenAt::Bad => None,
    }
}

// What the actor, the flags or the depth holds at `at`: a number.
fn read_figure(s: &[u8], at: usize, key: usize) -> Option<Held>
    requires { is_figure_key key ≡ true }
    ensures { HeldAnyway s.now at key result (take_value key (tokens (drop at s.now))) }
{
    if key == ACTOR {
        let (n, next) = read_number(s, at)?;
        return Some(held_number(n, next));
    }
    if key == SETTINGS {
        let (flags, next) = read_settings(s, at)?;
        return Some(held_number(flags, next));
    }
    let next = pass_mark(s, at, ZERO)?;
    Some(held_number(0, next))
}

// What a key holds at `at`; the numbers of a list go into the array, to the list's own places.
pub(crate) fn read_value(s: &[u8], at: usize, key: usize, numbers: &mut [u32]) -> Option<Held>
    requires { (key < key_count) × (length numbers.old ≡ list_room) }
    ensures held { HeldSays s.now at key numbers.new result (take_value key (tokens (drop at s.now))) }
    ensures kept { KeptApart result key numbers.old numbers.new }
{
    if (READS <= key) & (key <= EXECUTES) {
        let base = (key - READS) * Action::USES;
        let (len, next) = read_numbers(s, at, numbers, base)?;
        return Some(Held {
            next,
            figure: 0,
            from: base,
            len,
        });
    }
    if (key == ID) | (key == KIND) | (key == DOMAIN) {
        return read_text(s, at, key);
    }
    read_figure(s, at, key)
}
