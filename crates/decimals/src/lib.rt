// Decimals without leading zeros, read from a slice at a position.
#![tactic(auto)]

ghost use Rattle.std.specs.Prelude.{◌≡◌, ◌-◌, ◌≤◌, length, drop};
ghost use Rattle.decimals.specs.Decimals.{is_digit, digit_run, after, value, judge, parse};
ghost use Rattle.decimals.specs.Answers.{Says};

// What reading a number finds, with the position behind its digits.
#[derive(Clone, Copy)]
pub enum Number {
    Value(u32, usize),
    // A decimal above the limit, of any length.
    Large(usize),
    Bad,
}

fn is_digit(b: u8) -> bool
    ensures { result ≡ is_digit b }
{
    48 <= b && b < 58
}

fn digit(b: u8) -> u32
    requires { 48 ≤ b }
    ensures { result ≡ b - 48 }
{
    (b as u32) - 48
}

// The position behind the digits that begin at `at`.
fn digits_end(s: &[u8], at: usize) -> usize
    requires { at ≤ length s.now }
    ensures { (after (drop at s.now) ≡ drop result s.now) × (result ≤ length s.now) }
{
    for i in at..s.len() {
        if !is_digit(s[i]) {
            return i;
        }
    }
    s.len()
}

// The worth of the digits that begin at `at`, leading zeros or not.
fn scan(s: &[u8], at: usize, greatest: u32) -> Number
    requires { at ≤ length s.now }
    ensures { Says s.now result (judge greatest (value 0 (digit_run (drop at s.now))) (after (drop at s.now))) }
{
    let mut n: u32 = 0;
    for i in at..s.len() {
        let b = s[i];
        if !is_digit(b) {
            return Number::Value(n, i);
        }
        let d = digit(b);
        if greatest / 10 < n || greatest - n * 10 < d {
            return Number::Large(digits_end(s, i));
        }
        n = n * 10 + d;
    }
    Number::Value(n, s.len())
}

// The decimal at `at`: no leading zero, and no limit on its length.
pub fn read_number(s: &[u8], at: usize, greatest: u32) -> Number
    ensures { Says s.now result (parse greatest (drop at s.now)) }
{
    if s.len() <= at {
        return Number::Bad;
    }
    let b = s[at];
    if !is_digit(b) {
        return Number::Bad;
    }
    if b == 48 && at + 1 < s.len() && is_digit(s[at + 1]) {
        return Number::Bad;
    }
    scan(s, at, greatest)
}
