// Lines `key=value` of a text, each ended by LF, read one behind the other.
// The slice is lent, of any length and content. A reading that failed stays as it is: the first
// failing line decides, with the refusal of that line.
#![tactic(auto)]

ghost use Rattle.std.specs.Prelude.{◌≡◌, true, false, ◌&&◌, [], ◌+◌, ◌≤◌, ◌<◌, leb, length, drop};
ghost use Rattle.lines.specs.Lines.{begins, parse_limited, parse_decimal, path_on, held_path};
ghost use Rattle.lines.specs.Reading.{decimal, number, count, kind, read_form, read_scope, closed};
ghost use Rattle.lines.specs.Answers.{LineSays, PathSays, FieldSays, ScopeSays, state_of, read_word, read_step};

use decimals::Number;
use refusals::Refusal;
use register::{Actor, PATH_BYTE_GREATEST, PATH_BYTE_LEAST, Register};

// What a step's line opens: an action, or a whole plan.
pub const ACTION_STEP: u32 = 1;

pub const PLAN_STEP: u32 = 2;

// The byte that ends a line.
pub const LINE_FEED: u8 = 10;

// Where a reading stands: the position of the next line, and how many lines are behind it. Failed: not on, with the refusal, and the line.
#[derive(Clone, Copy)]
pub struct Cursor {
    pub at: usize,
    pub line: usize,
    pub on: bool,
    pub refusal: Refusal,
}

// What was read, a number 0 where the reading failed, and where the reading then stands.
#[derive(Clone, Copy)]
pub struct Reading<T> {
    pub value: T,
    pub cursor: Cursor,
}

// A path that was read, empty where the reading failed, zeros behind it, and where the reading then stands.
#[derive(Clone, Copy)]
pub struct Scope {
    pub path: [u8; Register::PATH],
    pub len: usize,
    pub cursor: Cursor,
}

// A line's number with the position behind its LF; a number above the limit; or no such line.
#[derive(Clone, Copy)]
pub enum LineRead {
    Value(u32, usize),
    Over,
    Fault,
}

// A path with the position behind its LF.
#[derive(Clone, Copy)]
pub struct PathRead {
    pub path: [u8; Register::PATH],
    pub len: usize,
    pub next: usize,
}

// A reading that is on, with so many lines behind it.
pub fn behind(at: usize, line: usize) -> Cursor
    ensures { result ≡ record { at = at; line = line; on = true; refusal = Refusal.Form } }
{
    Cursor {
        at,
        line,
        on: true,
        refusal: Refusal::Form,
    }
}

// Before the first line.
pub fn start() -> Cursor
    ensures { result ≡ record { at = 0; line = 0; on = true; refusal = Refusal.Form } }
{
    behind(0, 0)
}

// A reading that was refused at the last line behind it.
pub fn refused(c: Cursor, refusal: Refusal) -> Cursor
    ensures { result ≡ record { at = c.at; line = c.line; on = false; refusal = refusal } }
{
    Cursor {
        on: false,
        refusal,
        ..c
    }
}

// Whether a reading goes on: it is on and stands within the text, with no more lines than bytes behind it.
pub fn goes_on(s: &[u8], c: Cursor) -> bool
    ensures { result ≡ (c.on && (leb c.at (length s.now) && leb c.line c.at)) }
{
    c.on && c.at <= s.len() && c.line <= c.at
}

// Whether the bytes of `key` stand at `at`.
fn has_key(s: &[u8], at: usize, key: &[u8]) -> bool
    requires { at ≤ length s.now }
    ensures { result ≡ begins key.now (drop at s.now) }
{
    s[at..].starts_with(key)
}

// The line of `key`, which ends with '=', with a number up to `greatest`.
fn read_limited(s: &[u8], at: usize, key: &[u8], greatest: u32) -> LineRead
    requires { at ≤ length s.now }
    ensures { LineSays s.now at result (parse_limited key.now greatest (drop at s.now)) }
{
    if !has_key(s, at, key) {
        return LineRead::Fault;
    }
    match decimals::read_number(s, at + key.len(), greatest) {
        Number::Value(n, next) => {
            if next < s.len() && s[next] == LINE_FEED {
                return LineRead::Value(n, next + 1);
            }
            LineRead::Fault
        }
        Number::Large(next) => {
            if next < s.len() && s[next] == LINE_FEED {
                return LineRead::Over;
            }
            LineRead::Fault
        }
        Number::Bad => LineRead::Fault,
    }
}

// The same with a lower end: a number below `least` is no such line.
fn read_ranged(s: &[u8], at: usize, key: &[u8], least: u32, greatest: u32) -> LineRead
    requires { at ≤ length s.now }
    ensures { LineSays s.now at result (parse_decimal key.now least greatest (drop at s.now)) }
{
    match read_limited(s, at, key, greatest) {
        LineRead::Value(n, next) => {
            if n < least {
                return LineRead::Fault;
            }
            LineRead::Value(n, next)
        }
        LineRead::Over => LineRead::Over,
        LineRead::Fault => LineRead::Fault,
    }
}

// A reading that fails at the next line.
fn failing(c: Cursor, refusal: Refusal) -> Cursor
    requires { c.line < 18446744073709551615 }
    ensures { result ≡ record { at = c.at; line = c.line + 1; on = false; refusal = refusal } }
{
    Cursor {
        line: c.line + 1,
        on: false,
        refusal,
        ..c
    }
}

// The next line of `key`, with the refusal of a number above the greatest.
pub fn read_decimal(
    s: &[u8],
    c: Cursor,
    key: &[u8],
    least: u32,
    greatest: u32,
    above: Refusal,
) -> Reading<u32>
    ensures { FieldSays s.now result (read_form (decimal key.now least greatest above) (state_of s.now c)) }
{
    if !goes_on(s, c) {
        return Reading {
            value: 0,
            cursor: c,
        };
    }
    match read_ranged(s, c.at, key, least, greatest) {
        LineRead::Value(value, next) => Reading {
            value,
            cursor: behind(next, c.line + 1),
        },
        LineRead::Over => Reading {
            value: 0,
            cursor: failing(c, above),
        },
        LineRead::Fault => Reading {
            value: 0,
            cursor: failing(c, Refusal::Form),
        },
    }
}

// The next line of `key`, with a number from the least to the greatest.
pub fn read_number(s: &[u8], c: Cursor, key: &[u8], least: u32, greatest: u32) -> Reading<u32>
    ensures { FieldSays s.now result (read_form (number key.now least greatest) (state_of s.now c)) }
{
    read_decimal(s, c, key, least, greatest, Refusal::Form)
}

// The next line of `key`, with a count up to its limit.
pub fn read_count(s: &[u8], c: Cursor, key: &[u8], limit: u32) -> Reading<u32>
    ensures { FieldSays s.now result (read_form (count key.now limit) (state_of s.now c)) }
{
    read_decimal(s, c, key, 0, limit, Refusal::Count)
}

// The next line, of one of two words, each with its number. A word is a whole line and no empty one.
fn read_word<'a>(
    s: &[u8],
    c: Cursor,
    first: &'a [u8],
    one: u32,
    second: &'a [u8],
    other: u32,
) -> Reading<u32>
    requires { (0 < length first.now) × (0 < length second.now) }
    ensures { FieldSays s.now result (read_word first.now one second.now other (state_of s.now c)) }
{
    if !goes_on(s, c) {
        return Reading {
            value: 0,
            cursor: c,
        };
    }
    if has_key(s, c.at, first) {
        return Reading {
            value: one,
            cursor: behind(c.at + first.len(), c.line + 1),
        };
    }
    if has_key(s, c.at, second) {
        return Reading {
            value: other,
            cursor: behind(c.at + second.len(), c.line + 1),
        };
    }
    Reading {
        value: 0,
        cursor: failing(c, Refusal::Form),
    }
}

// The next line, with an actor's kind.
pub fn read_kind(s: &[u8], c: Cursor) -> Reading<u32>
    ensures { FieldSays s.now result (read_form kind (state_of s.now c)) }
{
    read_word(
        s,
        c,
        b"kind=human\n",
        Actor::HUMAN,
        b"kind=machine\n",
        Actor::MACHINE,
    )
}

// The next line, with what a step of a plan is.
pub fn read_step(s: &[u8], c: Cursor) -> Reading<u32>
    ensures { FieldSays s.now result (read_step (state_of s.now c)) }
{
    read_word(
        s,
        c,
        b"step=action\n",
        ACTION_STEP,
        b"step=plan\n",
        PLAN_STEP,
    )
}

// The path from `at` up to LF.
fn read_path(s: &[u8], at: usize) -> Option<PathRead>
    requires { at ≤ length s.now }
    ensures { PathSays s.now at result (path_on [] (drop at s.now)) }
{
    let mut path = [0u8; Register::PATH];
    let mut len: usize = 0;
    for i in at..s.len() {
        let b = s[i];
        if b == LINE_FEED {
            return Some(PathRead {
                path,
                len,
                next: i + 1,
            });
        }
        if b < PATH_BYTE_LEAST || PATH_BYTE_GREATEST < b || Register::PATH <= len {
            return None;
        }
        path[len] = b;
        len += 1;
    }
    None
}

// A path that was not read.
fn no_scope(cursor: Cursor) -> Scope
    ensures { result ≡ record { path = held_path []; len = 0; cursor = cursor } }
{
    Scope {
        path: [0; Register::PATH],
        len: 0,
        cursor,
    }
}

// The next line, with a path.
pub fn read_scope(s: &[u8], c: Cursor) -> Scope
    ensures { ScopeSays s.now result (read_scope (state_of s.now c)) }
{
    if !goes_on(s, c) {
        return no_scope(c);
    }
    if !has_key(s, c.at, b"scope=") {
        return no_scope(failing(c, Refusal::Form));
    }
    match read_path(s, c.at + 6) {
        Some(read) => {
            let path = read.path;
            Scope {
                path,
                len: read.len,
                cursor: behind(read.next, c.line + 1),
            }
        }
        None => no_scope(failing(c, Refusal::Form)),
    }
}

// Trailing bytes fail as the next line.
pub fn finish(s: &[u8], c: Cursor) -> Cursor
    ensures { state_of s.now result ≡ closed (state_of s.now c) }
{
    if !goes_on(s, c) {
        return c;
    }
    if c.at < s.len() {
        return failing(c, Refusal::Form);
    }
    c
}
