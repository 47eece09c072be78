// The printing program for JSON actions: action.json at the moment of clock.txt.
// Judged by register.txt, all of the working folder; the lines go to standard output. A file that
// can't be opened counts as empty, and of a file the first 65,536 bytes are read.
#![tactic(auto)]

const STANDARD_OUTPUT: i32 = 1;

fn main(rt: HostRuntime) {
    let mut register = io::large_buffer();
    let register_end = loading::load(&rt, b"register.txt", &mut register);
    let mut clock = io::large_buffer();
    let clock_end = loading::load(&rt, b"clock.txt", &mut clock);
    let mut action = io::large_buffer();
    let action_end = loading::load(&rt, b"action.json", &mut action);
    let mut printed = [0u8; verdict_printing::PRINTED];
    let written = verdict_printing::json_verdict_text(
        &register[..register_end],
        &clock[..clock_end],
        &action[..action_end],
        &mut printed,
    );
    io::write_all(STANDARD_OUTPUT, &printed[..written.length]);
}
