// The builder's JSON form of an action: definitions and theorems.
// Here are the types of what reading and writing answer; in specs/ the form, in the words of 02's
// T-04, and the definitions that the two calls are proved to equal.
#![tactic(auto)]

ghost use Rattle.std.specs.Prelude.{◌≡◌};
ghost use Rattle.json_rules.specs.Members.{is_id_text};

use actions::Action;
use json_tokens::QUOTE;
use refusals::Refusal;

// The byte that no text may have.
const BACKSLASH: u8 = 92;

// How many bytes an id has at most.
pub const ID_BYTES: usize = 64;

// No action's text is longer.
pub const JSON_TEXT: usize = 807;

// An action that was read, with its id and kind. Refused: the action of all zeros, no id, and kind 0.
#[derive(Clone, Copy)]
pub struct JsonRead {
    pub action: Action,
    pub outcome: Result<(), Refusal>,
    pub kind: u32,
    pub len: u32,
    pub id: [u8; ID_BYTES],
}

// Whether the bytes may be an id.
pub fn is_id(id: &[u8]) -> bool
    ensures { result ≡ is_id_text id.now }
{
    if ID_BYTES < id.len() {
        return false;
    }
    for b in id {
        if (*b < 32) | (126 < *b) | (*b == QUOTE) | (*b == BACKSLASH) {
            return false;
        }
    }
    true
}
