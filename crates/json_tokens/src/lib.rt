// The tokens of a JSON text, one at a time.
// From a lent slice of any length and content, and a position.
#![tactic(auto)]

ghost use Rattle.std.specs.Prelude.{◌≡◌, ◌≤◌, length, take, drop};
ghost use Rattle.lists.specs.Lists.{same};
ghost use Rattle.json_tokens.specs.Tokens.{is_blank, is_mark, unblanked, quoted, closing, tokens};
ghost use Rattle.json_tokens.specs.Answers.{part, TokenSays};

// The marks.
pub const OPENS_OBJECT: u8 = 123;

pub const CLOSES_OBJECT: u8 = 125;

pub const OPENS_LIST: u8 = 91;

pub const CLOSES_LIST: u8 = 93;

pub const COLON: u8 = 58;

pub const COMMA: u8 = 44;

// The number 0, and the words `true` and `false` by their first bytes.
pub const ZERO: u8 = 48;

pub const TRUE: u8 = 116;

pub const FALSE: u8 = 102;

// The byte around a text.
pub const QUOTE: u8 = 34;

// A token, where the next one begins or where its bytes stand: a mark, by its byte, with the position behind it; a text, from its first
// byte up to, not including, its closing quote; the end of the input; or what is no token.
#[derive(Clone, Copy)]
pub enum TokenAt {
    Mark(u8, usize),
    Text(usize, usize),
    End,
    Bad,
}

// Space, tab, LF, CR.
fn is_blank(b: u8) -> bool
    ensures { result ≡ is_blank b }
{
    (b == 32) | (b == 9) | (b == 10) | (b == 13)
}

// Whether the byte is a mark by itself.
fn is_mark(b: u8) -> bool
    ensures { result ≡ is_mark b }
{
    match b {
        OPENS_OBJECT | CLOSES_OBJECT | OPENS_LIST | CLOSES_LIST | COLON | COMMA | ZERO => true,
        _ => false,
    }
}

// The position of the first byte from `at` on that is no blank.
fn blanks_end(s: &[u8], at: usize) -> usize
    requires { at ≤ length s.now }
    ensures { (unblanked (drop at s.now) ≡ drop result s.now) × (at ≤ result) × (result ≤ length s.now) }
{
    for i in at..s.len() {
        if !is_blank(s[i]) {
            return i;
        }
    }
    s.len()
}

// The position of the first quote from `at` on, or the end.
fn quote_at(s: &[u8], at: usize) -> usize
    requires { at ≤ length s.now }
    ensures { (quoted (drop at s.now) ≡ part at result s.now) × (closing (drop at s.now) ≡ drop result s.now) × (at ≤ result) × (result ≤ length s.now) }
{
    for i in at..s.len() {
        if s[i] == QUOTE {
            return i;
        }
    }
    s.len()
}

// Whether the bytes of `word` stand at `at`.
fn has_word(s: &[u8], at: usize, word: &[u8]) -> bool
    requires { at ≤ length s.now }
    ensures { result ≡ same word.now (take (length word.now) (drop at s.now)) }
{
    if s.len() - at < word.len() {
        return false;
    }
    lists::is_same(word, &s[at..at + word.len()])
}

// The first token from `at` on.
pub fn next_token(s: &[u8], at: usize) -> TokenAt
    ensures { TokenSays s.now at result (tokens (drop at s.now)) }
{
    if s.len() <= at {
        return TokenAt::End;
    }
    let i = blanks_end(s, at);
    if s.len() <= i {
        return TokenAt::End;
    }
    let b = s[i];
    if is_mark(b) {
        return TokenAt::Mark(b, i + 1);
    }
    if b == QUOTE {
        let from = i + 1;
        let end = quote_at(s, from);
        if end < s.len() {
            return TokenAt::Text(from, end);
        }
        return TokenAt::Bad;
    }
    if has_word(s, i, b"true") {
        return TokenAt::Mark(TRUE, i + 4);
    }
    if has_word(s, i, b"false") {
        return TokenAt::Mark(FALSE, i + 5);
    }
    TokenAt::Bad
}
