// The printing program: the verdict on action.txt by register.txt.
// Both stand in the working folder; the lines go to standard output. A file that can't be opened
// counts as empty, and of a file the first 65,536 bytes are read.
#![tactic(auto)]

const STANDARD_OUTPUT: i32 = 1;

fn main(rt: HostRuntime) {
    let mut register = io::large_buffer();
    let register_end = loading::load(&rt, b"register.txt", &mut register);
    let mut action = io::large_buffer();
    let action_end = loading::load(&rt, b"action.txt", &mut action);
    let mut printed = [0u8; verdict_printing::PRINTED];
    let written = verdict_printing::verdict_text(
        &register[..register_end],
        &action[..action_end],
        &mut printed,
    );
    io::write_all(STANDARD_OUTPUT, &printed[..written.length]);
}
