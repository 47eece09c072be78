// Bytes and lines put into a lent buffer, and a whole text delivered at its front.
// What does not fit is not begun: the buffer is as it was.
#![tactic(auto)]

ghost use Rattle.std.specs.Prelude.{◌≡◌, ◌+◌, ◌≤◌, leb, length};
ghost use Rattle.lists.specs.Lists.{splice};
ghost use Rattle.decimals.specs.Decimals.{digits};
ghost use Rattle.lines.specs.Lines.{decimal_line, kind_line};
ghost use Rattle.buffers.specs.Buffers.{put};
ghost use Rattle.buffers.specs.Positions.{behind};
ghost use Rattle.buffers.specs.Delivery.{delivered};

use lines::LINE_FEED;
use refusals::Refusal;
use register::Actor;

// What was written into a lent buffer: the length of the text. Refused: 0.
#[derive(Clone, Copy)]
pub struct Written {
    pub outcome: Result<(), Refusal>,
    pub length: usize,
}

// How many digits `n` has.
fn digit_count(n: u64) -> usize
    ensures { (result ≡ length (digits n)) × (result ≤ 20) }
{
    let mut m = n;
    let mut k: usize = 1;
    while 10 <= m {
        m /= 10;
        k += 1;
    }
    k
}

// Whether `n` bytes fit at `at`.
fn has_room(buf: &[u8], at: usize, n: usize) -> bool
    ensures { result ≡ leb (at + n) (length buf.now) }
{
    at <= buf.len() && n <= buf.len() - at
}

// Copies `t` into the buffer at `at`.
fn copy(buf: &mut [u8], at: usize, t: &[u8]) -> usize
    requires { at + length t.now ≤ length buf.old }
    ensures behind { result ≡ at + length t.now }
    ensures written { buf.new ≡ splice at t.now buf.old }
{
    for i in 0..t.len() {
        buf[at + i] = t[i];
    }
    at + t.len()
}

// Writes the digits of `n` into the buffer at `at`.
fn write_digits(buf: &mut [u8], at: usize, n: u64) -> usize
    requires { at + length (digits n) ≤ length buf.old }
    ensures behind { result ≡ at + length (digits n) }
    ensures written { buf.new ≡ splice at (digits n) buf.old }
{
    if n < 10 {
        buf[at] = 48 + (n % 10) as u8;
        return at + 1;
    }
    let e = write_digits(buf, at, n / 10);
    buf[e] = 48 + (n % 10) as u8;
    e + 1
}

// Puts `t` into the buffer at `at`, and answers the position behind it.
pub fn put_bytes(buf: &mut [u8], at: usize, t: &[u8]) -> usize
    ensures behind { result ≡ behind at t.now buf.old }
    ensures written { buf.new ≡ put at t.now buf.old }
{
    if !has_room(buf, at, t.len()) {
        return at;
    }
    copy(buf, at, t)
}

// Puts the digits of `n` into the buffer at `at`, and answers the position behind them.
pub fn put_number(buf: &mut [u8], at: usize, n: u64) -> usize
    ensures behind { result ≡ behind at (digits n) buf.old }
    ensures written { buf.new ≡ put at (digits n) buf.old }
{
    if !has_room(buf, at, digit_count(n)) {
        return at;
    }
    write_digits(buf, at, n)
}

// Puts the line of `key` and `n` into the buffer at `at`, and answers the position behind it.
pub fn put_line(buf: &mut [u8], at: usize, key: &[u8], n: u64) -> usize
    ensures behind { result ≡ behind at (decimal_line key.now n) buf.old }
    ensures written { buf.new ≡ put at (decimal_line key.now n) buf.old }
{
    if !has_room(buf, at, key.len()) {
        return at;
    }
    let begun = at + key.len();
    if !has_room(buf, begun, digit_count(n) + 1) {
        return at;
    }
    let digits_at = copy(buf, at, key);
    let end = write_digits(buf, digits_at, n);
    buf[end] = LINE_FEED;
    end + 1
}

// Puts the line of an actor's kind into the buffer at `at`, and answers the position behind it.
pub fn put_kind(buf: &mut [u8], at: usize, kind: u32) -> usize
    ensures behind { result ≡ behind at (kind_line kind) buf.old }
    ensures written { buf.new ≡ put at (kind_line kind) buf.old }
{
    if kind == Actor::HUMAN {
        return put_bytes(buf, at, b"kind=human\n");
    }
    put_bytes(buf, at, b"kind=machine\n")
}

// Puts a text at the front of the lent buffer, and answers its length. A buffer that is too short is refused with 21 and is as it was.
pub fn deliver(buf: &mut [u8], t: &[u8]) -> Written
    ensures answer { result ≡ delivered t.now buf.old }
    ensures buffer { buf.new ≡ put 0 t.now buf.old }
{
    if buf.len() < t.len() {
        return Written {
            outcome: Err(Refusal::Buffer),
            length: 0,
        };
    }
    let length = put_bytes(buf, 0, t);
    Written {
        outcome: Ok(()),
        length,
    }
}
