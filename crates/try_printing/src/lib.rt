// Standard output for the programs that only test.
// A write that fails is not told to the caller: what is printed is then short, and the comparison
// with what is expected fails.
#![tactic(auto)]

const STANDARD_OUTPUT: i32 = 1;

// Writes the bytes as they are.
pub fn text(t: &[u8]) {
    io::write_all(STANDARD_OUTPUT, t);
}

// Writes 1 for a yes and 0 for a no.
pub fn answer(held: bool) {
    if held {
        text(b"1");
    } else {
        text(b"0");
    }
}

// Writes a number in decimal.
pub fn number(n: usize) {
    io::print_decimal(STANDARD_OUTPUT, n as u64);
}

// Writes a label, and a number in decimal behind it.
pub fn labelled_number(label: &[u8], n: u32) {
    text(label);
    io::print_decimal(STANDARD_OUTPUT, n as u64);
}

// Writes a label, the answer behind it, and ends the line.
pub fn labelled_answer(label: &[u8], held: bool) {
    text(label);
    answer(held);
    text(b"\n");
}
