// Numbers in a JSON text: one in quotes, and a list of them, at most 32, into a lent array.
ghost use Rattle.std.specs.Prelude.{◌+◌, ◌≤◌, length, drop};
ghost use Rattle.register.specs.Limits.{id_limit};
ghost use Rattle.decimals.specs.Decimals.{parse};
ghost use Rattle.actions.specs.Actions.{use_limit};
ghost use Rattle.json_tokens.specs.Tokens.{closes_list, tokens};
ghost use Rattle.json_rules.specs.Members.{take_number, take_numbers, items};
ghost use Rattle.json_reading.specs.Answers.{ExactSays, NumberSays, limited, NumbersSays};

use crate::marks::{Separator, pass_mark, read_separator};
use actions::Action;
use decimals::Number;
use json_tokens::{CLOSES_LIST, OPENS_LIST, TokenAt};
use register::ID_LIMIT;

// The number that a text holds and nothing else, up to 65,535.
fn number_in(x: &[u8]) -> Option<u32>
    ensures { ExactSays result (parse id_limit x.now) }
{
    match decimals::read_number(x, 0, ID_LIMIT) {
        Number::Value(n, next) => {
            if next < x.len() {
                return None;
            }
            Some(n)
        }
        Number::Large(_) => None,
        Number::Bad => None,
    }
}

// The number in quotes at `at`, with the position behind it.
pub(crate) fn read_number(s: &[u8], at: usize) -> Option<(u32, usize)>
    ensures { NumberSays s.now at result (take_number (tokens (drop at s.now))) }
{
    match json_tokens::next_token(s, at) {
        TokenAt::Text(from, end) => {
            let n = number_in(&s[from..end])?;
            Some((n, end + 1))
        }
        TokenAt::Mark(_, _) => None,
        TokenAt::End => None,
        TokenAt::Bad => None,
    }
}

// Reads one number or more, up to the closing mark, into the array from `base` on: at most 32. Answers how many, with the position behind them.
fn read_items(s: &[u8], begun: usize, numbers: &mut [u32], base: usize) -> Option<(usize, usize)>
    requires { base + use_limit ≤ length numbers.old }
    ensures { NumbersSays s.now begun base numbers.old numbers.new result (limited (items take_number closes_list (tokens (drop begun s.now)))) }
{
    let mut at = begun;
    for count in 0..Action::USES {
        let (n, end) = read_number(s, at)?;
        numbers[base + count] = n;
        match read_separator(s, end, CLOSES_LIST)? {
            Separator::More(next) => {
                at = next;
            }
            Separator::Done(next) => {
                return Some((count + 1, next));
            }
        }
    }
    None
}

// Reads a list of numbers at `at` into the array from `base` on: at most 32. Answers how many, with the position behind it.
pub(crate) fn read_numbers(
    s: &[u8],
    at: usize,
    numbers: &mut [u32],
    base: usize,
) -> Option<(usize, usize)>
    requires { base + use_limit ≤ length numbers.old }
    ensures { NumbersSays s.now at base numbers.old numbers.new result (limited (take_numbers (tokens (drop at s.now)))) }
{
    let begun = pass_mark(s, at, OPENS_LIST)?;
    match pass_mark(s, begun, CLOSES_LIST) {
        Some(next) => Some((0, next)),
        None => read_items(s, begun, numbers, base),
    }
}
