// The verdict as text: the lines that 01's program prints.
// Of the two texts that it reads, and those that the program for JSON actions prints of the three
// that it reads, put into a lent buffer whole or not at all.
#![tactic(auto)]

ghost use Rattle.std.specs.Prelude.{◌≡◌, ◌+◌, ◌≤◌, length};
ghost use Rattle.lists.specs.Lists.{splice};
ghost use Rattle.actions.specs.Actions.{violation_limit};
ghost use Rattle.gate_rules.specs.Gate.{gated};
ghost use Rattle.buffers.specs.Buffers.{put};
ghost use Rattle.buffers.specs.Delivery.{delivered};
ghost use Rattle.lines.specs.Reading.{closed};
ghost use Rattle.verdict_printing.specs.Printed.{pair_text, list_text, stopped_text, verdict_text, unless_refused, printed, printed_limit};
ghost use Rattle.verdict_printing.specs.Shared.{lines_by, printed_by};
ghost use Rattle.soundness.specs.Opened.{Opened};
ghost use Rattle.verdict_printing.specs.Printed.{clock_read, clock_lines, json_printed};

use actions::{Action, Decision, Verdict, Violation, Violations};
use buffers::Written;
use refusals::Refusal;
use register::Register;
use soundness::Findings;
use text_rules::LAST_MOMENT;

// No verdict's text is longer.
pub const PRINTED: usize = 1103;

// Puts the pair of a violation into the buffer at `at`, and answers the position behind it.
fn put_pair(buf: &mut [u8], at: usize, v: Violation) -> usize
    requires { at + length (pair_text v) ≤ length buf.old }
    ensures behind { result ≡ at + length (pair_text v) }
    ensures written { buf.new ≡ splice at (pair_text v) buf.old }
{
    let value_at = buffers::put_line(buf, at, b"violation=", actions::kind(v) as u64);
    buffers::put_line(buf, value_at, b"at=", actions::value(v) as u64)
}

// Puts the number of violations and the pair of each into the buffer at `at`, and answers the position behind them.
fn put_list(buf: &mut [u8], at: usize, vs: Violations) -> usize
    requires { (at + length (list_text vs) ≤ length buf.old) × (vs.count ≤ violation_limit) }
    ensures behind { result ≡ at + length (list_text vs) }
    ensures written { buf.new ≡ splice at (list_text vs) buf.old }
{
    let count = vs.count;
    let mut end = buffers::put_line(buf, at, b"violations=", count as u64);
    for entry in &vs.list[..count] {
        end = put_pair(buf, end, entry.what);
    }
    end
}

// Puts the lines of a refusal into the buffer, and answers the position behind them.
fn put_stopped(buf: &mut [u8], why: Refusal) -> usize
    requires { length (stopped_text why) ≤ length buf.old }
    ensures behind { result ≡ length (stopped_text why) }
    ensures written { buf.new ≡ splice 0 (stopped_text why) buf.old }
{
    let refusal_at = buffers::put_bytes(buf, 0, b"verdict=stopped\n");
    buffers::put_line(buf, refusal_at, b"refusal=", refusals::number(why) as u64)
}

// Puts the lines of a verdict into the buffer, and answers the position behind them.
fn put_verdict(buf: &mut [u8], v: Verdict) -> usize
    requires { (length (verdict_text v) ≤ length buf.old) × (v.violations.count ≤ violation_limit) }
    ensures behind { result ≡ length (verdict_text v) }
    ensures written { buf.new ≡ splice 0 (verdict_text v) buf.old }
{
    match v.decision {
        Decision::Permitted => {
            let list_at = buffers::put_bytes(buf, 0, b"verdict=permitted\n");
            put_list(buf, list_at, v.violations)
        }
        Decision::Refused => {
            let list_at = buffers::put_bytes(buf, 0, b"verdict=refused\n");
            put_list(buf, list_at, v.violations)
        }
        Decision::Stopped(why) => put_stopped(buf, why),
    }
}

// Puts what is printed of an action that was read, or refused, by a register, a sheet of its claims and what was found of it, into the buffer, and
// answers the position behind it.
fn put_posed(
    buf: &mut [u8],
    register: Register,
    sheet: &[u32],
    known: Findings,
    outcome: Result<(), Refusal>,
    asked: Action,
) -> usize
    requires { (printed_limit ≤ length buf.old) × Opened register sheet.now known }
    ensures behind { result ≡ length (unless_refused stopped_text outcome (verdict_text (gated register asked))) }
    ensures written { buf.new ≡ splice 0 (unless_refused stopped_text outcome (verdict_text (gated register asked))) buf.old }
{
    match outcome {
        Ok(()) => put_verdict(buf, gate::gate_by(register, sheet, known, asked)),
        Err(why) => put_stopped(buf, why),
    }
}

// Puts what is printed of a register, by a sheet of its claims and what was found of it, a clock's text and a JSON action's into the buffer, and
// answers the position behind it.
fn compose_clock(
    buf: &mut [u8],
    register: Register,
    sheet: &[u32],
    known: Findings,
    clock: &[u8],
    action: &[u8],
) -> usize
    requires { (printed_limit ≤ length buf.old) × Opened register sheet.now known }
    ensures behind { result ≡ length (clock_lines register (closed (clock_read clock.now).state) (clock_read clock.now).value action.now) }
    ensures written { buf.new ≡ splice 0 (clock_lines register (closed (clock_read clock.now).state) (clock_read clock.now).value action.now) buf.old }
{
    let field = lines::read_decimal(
        clock,
        lines::start(),
        b"now=",
        0,
        LAST_MOMENT,
        Refusal::Range,
    );
    let end = lines::finish(clock, field.cursor);
    if lines::goes_on(clock, end) {
        let posed = json_reading::read_json(action, field.value as u64);
        return put_posed(buf, register, sheet, known, posed.outcome, posed.action);
    }
    put_stopped(buf, end.refusal)
}

// Puts what is printed of a register, by a sheet of its claims and what was found of it, and an action's text, or a clock's and a JSON action's, into
// the buffer, and answers the position behind it.
fn compose_asked(
    buf: &mut [u8],
    register: Register,
    sheet: &[u32],
    known: Findings,
    clock: &[u8],
    action: &[u8],
    json: bool,
) -> usize
    requires { (printed_limit ≤ length buf.old) × Opened register sheet.now known }
    ensures behind { result ≡ length (lines_by json register clock.now action.now) }
    ensures written { buf.new ≡ splice 0 (lines_by json register clock.now action.now) buf.old }
{
    if json {
        return compose_clock(buf, register, sheet, known, clock, action);
    }
    let read = action_reading::read_action(action);
    put_posed(buf, register, sheet, known, read.outcome, read.action)
}

// Puts what is printed of a register's text and an action's, or a clock's and a JSON action's, into the buffer, and answers the position behind it.
fn compose(buf: &mut [u8], register: &[u8], clock: &[u8], action: &[u8], json: bool) -> usize
    requires { printed_limit ≤ length buf.old }
    ensures behind { result ≡ length (printed_by json register.now clock.now action.now) }
    ensures written { buf.new ≡ splice 0 (printed_by json register.now clock.now action.now) buf.old }
{
    let form = register_reading::read_form(register);
    if !lines::goes_on(register, form.cursor) {
        return put_stopped(buf, form.cursor.refusal);
    }
    let state = form.register;
    let mut sheet = [0u32; columns::SHEET];
    columns::put_claims(&mut sheet, state.claims);
    let known = soundness::examine_sheet(
        state.version,
        state.actors,
        state.resources,
        &sheet,
        state.claims.count,
    );
    if !known.sound {
        return put_stopped(buf, Refusal::Unsound);
    }
    compose_asked(buf, state, &sheet, known, clock, action, json)
}

// The lines that the program prints of the two texts.
pub fn verdict_text(register: &[u8], action: &[u8], buf: &mut [u8]) -> Written
    ensures answer { result ≡ delivered (printed register.now action.now) buf.old }
    ensures buffer { buf.new ≡ put 0 (printed register.now action.now) buf.old }
{
    let mut sheet = [0u8; PRINTED];
    let length = compose(&mut sheet, register, b"", action, false);
    buffers::deliver(buf, &sheet[..length])
}

// The lines that the program for JSON actions prints of the three texts.
pub fn json_verdict_text(register: &[u8], clock: &[u8], action: &[u8], buf: &mut [u8]) -> Written
    ensures answer { result ≡ delivered (json_printed register.now clock.now action.now) buf.old }
    ensures buffer { buf.new ≡ put 0 (json_printed register.now clock.now action.now) buf.old }
{
    let mut sheet = [0u8; PRINTED];
    let length = compose(&mut sheet, register, clock, action, true);
    buffers::deliver(buf, &sheet[..length])
}
