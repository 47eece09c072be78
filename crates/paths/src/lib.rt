// Path containment, judged on the two paths as they are lent.
// Any length and any bytes are taken, and nothing is copied: the outer path is trimmed by its
// length, and the inner path's tail from that length on is handed as a part to the judgement of
// what follows. All tests must hold, so the cheap ones are made first and `..` is looked for last.
#![tactic(auto)]

ghost use Rattle.std.specs.Prelude.{◌≡◌, ◌&&◌, ◌||◌, cond, ◌+◌, ◌≤◌, eqb, ltb, length, take};
ghost use Rattle.paths.specs.Containment.{dot, climbing, trimmed, starting, is_empty, slashed, reach_between};
ghost use Rattle.paths.specs.Trimming.{reach_beneath};
ghost use Rattle.paths.specs.Lent.{paired};

const SLASH: u8 = 47;

const DOT: u8 = 46;

// The dots that a component consists of so far, with one byte more: 0, 1 or 2, and 3 where it is not `.` or `..` any longer.
fn dots_with(dots: u8, b: u8) -> u8
    ensures { result ≡ cond (eqb b dot && ltb dots 3) (dots + 1) 3 }
{
    if b != DOT {
        return 3;
    }
    if dots < 3 {
        return dots + 1;
    }
    3
}

// Whether two dots stand next to each other anywhere in the path. The loop has no way out before its end, so that it is compiled to
// steps over many bytes at once.
fn has_paired_dots(p: &[u8]) -> bool
    ensures { result ≡ paired p.now }
{
    let mut hit = false;
    for i in 1..p.len() {
        hit |= (p[i - 1] == DOT) & (p[i] == DOT);
    }
    hit
}

// Whether a component of the path equals `..`, by a walk from byte to byte.
fn walk_components(p: &[u8]) -> bool
    ensures { result ≡ climbing p.now }
{
    let mut dots: u8 = 0;
    for b in p {
        if *b == SLASH {
            if dots == 2 {
                return true;
            }
            dots = 0;
        } else {
            dots = dots_with(dots, *b);
        }
    }
    dots == 2
}

// Whether a component of the path equals `..`. Only a path in which two dots stand next to each other is walked.
fn climbs(p: &[u8]) -> bool
    ensures { result ≡ climbing p.now }
{
    if has_paired_dots(p) {
        walk_components(p)
    } else {
        false
    }
}

// How long the path is without the slashes at its end.
fn trimmed_len(p: &[u8]) -> usize
    ensures { (take result p.now ≡ trimmed p.now) × (result ≤ length p.now) }
{
    for last in (0..p.len()).rev() {
        if p[last] != SLASH {
            return last + 1;
        }
    }
    0
}

// Whether `p` starts with `o`. As in `has_paired_dots`, the loop has no way out.
fn starts(o: &[u8], p: &[u8]) -> bool
    ensures { result ≡ starting o.now p.now }
{
    if p.len() < o.len() {
        return false;
    }
    let mut alike = true;
    for i in 0..o.len() {
        alike &= o[i] == p[i];
    }
    alike
}

// Whether what follows the trimmed outer path is nothing, or begins with a slash.
fn follows(tail: &[u8]) -> bool
    ensures { result ≡ (is_empty tail.now || slashed tail.now) }
{
    if tail.len() == 0 {
        return true;
    }
    tail[0] == SLASH
}

// A yes where the outer path is empty, or the inner one is the trimmed outer path, or that with a slash and more. What follows the
// trimmed length is asked before the bytes up to it are compared: it is one byte, and most pairs part there.
fn reach_beneath(outer: &[u8], inner: &[u8]) -> Option<usize>
    ensures { result ≡ reach_beneath outer.now inner.now }
{
    if outer.len() == 0 {
        return Some(0);
    }
    let n = trimmed_len(outer);
    if inner.len() < n {
        return None;
    }
    if follows(&inner[n..]) {
        if starts(&outer[..n], inner) {
            Some(n)
        } else {
            None
        }
    } else {
        None
    }
}

// Whether the outer path contains the inner one and, with a yes, the length of the trimmed outer path, which may be 0. Only the inner path is asked for `..`: where it stands beneath the
// outer one, a component of the outer path is one of it too.
pub fn contains(outer: &[u8], inner: &[u8]) -> Option<usize>
    ensures { result ≡ reach_between outer.now inner.now }
{
    match reach_beneath(outer, inner) {
        None => None,
        Some(length) => { if climbs(inner) { None } else { Some(length) } }
    }
}
