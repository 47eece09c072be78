// The seventeen rights and the tests on rights numbers, printed.
// 1 for a yes, 0 for a no.
//
// What is expected comes from 01, "The seventeen rights", and where noted from other sections:
//   "Right b is worth 2^b in a rights number"   `worth` of the rights 0 to 16. `has`: 19 is 1 + 2 + 16, so READ, WRITE and DELEGATE; 65535 is
//                                               every right but POLICY_MODIFY, 131071 every right
//   "a right 0 to 16" (the gate)                17 and 4294967295 are no rights: worth 0, granted by no machine, had by no number (D4 of
//                                               docs/DECISIONS.md)
//   "(not by machine)", at 13, 15 and 16        `machine` is 0 there, and 1 at the other fourteen. `bars_machine` is 1 where the number has
//                                               one of the three: 8192, 32768, 65536 and 131071; 24575 is the other fourteen together
//   "rights, 1 to 131,071" (the register)       `in_range` is 1 at both ends, and 0 at 0 and at 131072
//   "contains every right of the claim" (b)     `has_all`: 1 lacks WRITE and DELEGATE of 19; 3 is READ and WRITE, which neither 1 nor 2 has
//                                               by itself; who is asked for nothing has it
#![tactic(auto)]

fn main() {
    table();
    right(17);
    right(4294967295);
    ranges();
    single_rights();
    several_rights();
    machines();
}

// The seventeen rights, each on its line.
fn table() {
    for b in 0..=rights::POLICY_MODIFY {
        right(b);
    }
}

fn right(b: u32) {
    try_printing::labelled_number(b"right=", b);
    try_printing::labelled_number(b" worth=", rights::worth(b));
    try_printing::labelled_answer(b" machine=", rights::machine_grants(b));
}

fn ranges() {
    in_range(0);
    in_range(1);
    in_range(131071);
    in_range(131072);
}

fn in_range(n: u32) {
    try_printing::labelled_number(b"rights=", n);
    try_printing::labelled_answer(b" in_range=", rights::in_range(n));
}

fn single_rights() {
    has(19, rights::READ);
    has(19, rights::EXECUTE);
    has(19, rights::DELEGATE);
    has(65535, rights::POLICY_MODIFY);
    has(131071, rights::POLICY_MODIFY);
    has(4294967295, 17);
}

fn has(n: u32, b: u32) {
    try_printing::labelled_number(b"rights=", n);
    try_printing::labelled_number(b" right=", b);
    try_printing::labelled_answer(b" has=", rights::has(n, b));
}

fn several_rights() {
    has_all(19, 19);
    has_all(19, 1);
    has_all(1, 19);
    has_all(1, 3);
    has_all(2, 3);
    has_all(131071, 19);
    has_all(0, 0);
}

fn has_all(n: u32, asked: u32) {
    try_printing::labelled_number(b"rights=", n);
    try_printing::labelled_number(b" asked=", asked);
    try_printing::labelled_answer(b" has_all=", rights::has_all(n, asked));
}

fn machines() {
    bars_machine(0);
    bars_machine(19);
    bars_machine(4096);
    bars_machine(8192);
    bars_machine(16384);
    bars_machine(32768);
    bars_machine(65536);
    bars_machine(24575);
    bars_machine(131071);
}

fn bars_machine(n: u32) {
    try_printing::labelled_number(b"rights=", n);
    try_printing::labelled_answer(b" bars_machine=", rights::bars_machine(n));
}
