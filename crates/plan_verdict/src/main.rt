// The printing program for plan texts: the verdicts on plan.txt by register.txt.
// Both stand in the working folder; the lines go to standard output. A file that can't be opened
// counts as empty, and of a file the first 65,536 bytes are read.
#![tactic(auto)]

const STANDARD_OUTPUT: i32 = 1;

fn main(rt: HostRuntime) {
    let mut register = io::large_buffer();
    let register_end = loading::load(&rt, b"register.txt", &mut register);
    let mut plan = io::large_buffer();
    let plan_end = loading::load(&rt, b"plan.txt", &mut plan);
    let mut printed = [0u8; plan_verdict_text::PLAN_PRINTED];
    let written = plan_verdict_text::plan_verdict_text(
        &mut printed,
        &register[..register_end],
        &plan[..plan_end],
    );
    io::write_all(STANDARD_OUTPUT, &printed[..written.length]);
}
