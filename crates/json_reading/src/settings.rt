// The flags in a JSON text: an object that sets each of the ten once.
ghost use Rattle.std.specs.Prelude.{◌≡◌, drop};
ghost use Rattle.json_tokens.specs.Tokens.{closes_object, tokens};
ghost use Rattle.json_rules.specs.Members.{take_set, take_setting, take_settings, items};
ghost use Rattle.json_reading.specs.Answers.{SettingSays, flags_found, full_set, SettingsSays};

use crate::marks::{Separator, pass_mark, read_separator};
use crate::places::{FLAGS, flag_place};
use json_tokens::{CLOSES_OBJECT, COLON, FALSE, OPENS_OBJECT, TRUE, TokenAt};

// The word at `at`, as the setting of a flag: the flag and whether it is set, with the position behind it.
fn read_word(s: &[u8], at: usize, flag: usize) -> Option<(usize, bool, usize)>
    ensures { SettingSays s.now at result (take_set flag (tokens (drop at s.now))) }
{
    if FLAGS <= flag {
        return None;
    }
    match json_tokens::next_token(s, at) {
        TokenAt::Mark(b, next) => {
            if b == TRUE {
                return Some((flag, true, next));
            }
            if b == FALSE {
                return Some((flag, false, next));
            }
            None
        }
        TokenAt::Text(_, _) => None,
        TokenAt::End => None,
        TokenAt::Bad => None,
    }
}

// The flag at `at`: its name, a colon, and whether it is set.
fn read_setting(s: &[u8], at: usize) -> Option<(usize, bool, usize)>
    ensures { SettingSays s.now at result (take_setting (tokens (drop at s.now))) }
{
    match json_tokens::next_token(s, at) {
        TokenAt::Text(from, end) => {
            let flag = flag_place(&s[from..end]);
            let next = pass_mark(s, end + 1, COLON)?;
            read_word(s, next, flag)
        }
        TokenAt::Mark(_, _) => None,
        TokenAt::End => None,
        TokenAt::Bad => None,
    }
}

// The flags as a number, with the position behind them, where each of the ten was seen.
fn flags_number(seen: [bool; FLAGS], set: [bool; FLAGS], next: usize) -> Option<(u32, usize)>
    ensures { result ≡ flags_found seen set next }
{
    let mut flags: u32 = 0;
    let mut worth: u32 = 1;
    for i in 0..FLAGS {
        if !seen[i] {
            return None;
        }
        if set[i] {
            flags += worth;
        }
        worth *= 2;
    }
    Some((flags, next))
}

// Reads flags up to the closing mark: each once, and all of them.
fn read_flags(s: &[u8], begun: usize) -> Option<(u32, usize)>
    ensures { SettingsSays s.now begun result (full_set (items take_setting closes_object (tokens (drop begun s.now)))) }
{
    let mut seen = [false; FLAGS];
    let mut set = [false; FLAGS];
    let mut at = begun;
    loop {
        let (flag, on, end) = read_setting(s, at)?;
        if seen[flag] {
            return None;
        }
        seen[flag] = true;
        set[flag] = on;
        match read_separator(s, end, CLOSES_OBJECT)? {
            Separator::More(next) => {
                at = next;
            }
            Separator::Done(next) => {
                return flags_number(seen, set, next);
            }
        }
    }
}

// Reads the object of the flags at `at`: the flags as a number, with the position behind them.
pub(crate) fn read_settings(s: &[u8], at: usize) -> Option<(u32, usize)>
    ensures { SettingsSays s.now at result (take_settings (tokens (drop at s.now))) }
{
    let begun = pass_mark(s, at, OPENS_OBJECT)?;
    read_flags(s, begun)
}
