// The marks between the items of a JSON text: one that must stand there, and the comma or the closing mark behind an item.
ghost use Rattle.std.specs.Prelude.{drop};
ghost use Rattle.json_tokens.specs.Tokens.{tokens};
ghost use Rattle.json_reading.specs.Answers.{separation, SeparatorSays, PassedSays};

use json_tokens::{COMMA, TokenAt};

// What follows an item, with the position behind it: a comma, or the closing mark.
#[derive(Clone, Copy)]
pub(crate) enum Separator {
    More(usize),
    Done(usize),
}

// What follows an item at `at`.
pub(crate) fn read_separator(s: &[u8], at: usize, close: u8) -> Option<Separator>
    ensures { SeparatorSays s.now at result (separation close (tokens (drop at s.now))) }
{
    match json_tokens::next_token(s, at) {
        TokenAt::Mark(b, next) => {
            if b == COMMA {
                return Some(Separator::More(next));
            }
            if b == close {
                return Some(Separator::Done(next));
            }
            None
        }
        TokenAt::Text(_, _) => None,
        TokenAt::End => None,
        TokenAt::Bad => None,
    }
}

// The position behind a mark that stands at `at`.
pub(crate) fn pass_mark(s: &[u8], at: usize, mark: u8) -> Option<usize>
    ensures { PassedSays s.now at mark result (tokens (drop at s.now)) }
{
    match json_tokens::next_token(s, at) {
        TokenAt::Mark(b, next) => {
            if b == mark {
                return Some(next);
            }
            None
        }
        TokenAt::Text(_, _) => None,
        TokenAt::End => None,
        TokenAt::Bad => None,
    }
}
