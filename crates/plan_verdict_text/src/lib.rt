// The answer for a plan text as text: the lines that its program prints.
// Of a register's text and a plan's, put into a lent buffer whole or not at all.
#![tactic(auto)]

ghost use Rattle.std.specs.Prelude.{◌≡◌, ◌+◌, ◌≤◌, length};
ghost use Rattle.lists.specs.Lists.{splice};
ghost use Rattle.steps.specs.Steps.{text_action_limit};
ghost use Rattle.buffers.specs.Buffers.{put};
ghost use Rattle.buffers.specs.Delivery.{delivered};
ghost use Rattle.plan_verdict_text.specs.PlanPrinted.{judgement_text, verdicts_text, plan_stopped_text, place_text, plan_answer_text, plan_printed};
ghost use Rattle.plan_verdict_text.specs.Bounds.{plan_printed_limit};

use actions::Judgement;
use buffers::Written;
use refusals::Refusal;
use steps::PlanTextVerdict;

// No text of an answer is longer.
pub const PLAN_PRINTED: usize = 1944;

// Puts the verdict on an action into the buffer at `at`, and answers the position behind it.
fn put_judgement(buf: &mut [u8], at: usize, j: Judgement) -> usize
    requires { at + length (judgement_text j) ≤ length buf.old }
    ensures behind { result ≡ at + length (judgement_text j) }
    ensures written { buf.new ≡ splice at (judgement_text j) buf.old }
{
    match j {
        Judgement::Permitted => buffers::put_bytes(buf, at, b"verdict=permitted\n"),
        Judgement::Refused(violations) => {
            let count_at = buffers::put_bytes(buf, at, b"verdict=refused\n");
            buffers::put_line(buf, count_at, b"violations=", violations as u64)
        }
        Judgement::Cancelled => buffers::put_bytes(buf, at, b"verdict=cancelled\n"),
    }
}

// Puts the number of verdicts and each verdict into the buffer at `at`, and answers the position behind them.
fn put_verdicts(buf: &mut [u8], at: usize, v: PlanTextVerdict) -> usize
    requires { (at + length (verdicts_text v) ≤ length buf.old) × (v.count ≤ text_action_limit) }
    ensures behind { result ≡ at + length (verdicts_text v) }
    ensures written { buf.new ≡ splice at (verdicts_text v) buf.old }
{
    let mut end = buffers::put_line(buf, at, b"verdicts=", v.count as u64);
    for entry in &v.list[..v.count] {
        end = put_judgement(buf, end, *entry);
    }
    end
}

// Puts the lines of a refusal into the buffer, and answers the position behind them.
fn put_stopped(buf: &mut [u8], why: Refusal) -> usize
    requires { length (plan_stopped_text why) ≤ length buf.old }
    ensures behind { result ≡ length (plan_stopped_text why) }
    ensures written { buf.new ≡ splice 0 (plan_stopped_text why) buf.old }
{
    let number = refusals::number(why);
    let refusal_at = buffers::put_bytes(buf, 0, b"plan=stopped\n");
    buffers::put_line(buf, refusal_at, b"refusal=", number as u64)
}

// Puts the line that names what was refused into the buffer at `at`, and answers the position behind it.
fn put_place(buf: &mut [u8], at: usize, why: Refusal, line: usize, position: usize) -> usize
    requires { at + length (place_text why line position) ≤ length buf.old }
    ensures behind { result ≡ at + length (place_text why line position) }
    ensures written { buf.new ≡ splice at (place_text why line position) buf.old }
{
    match why {
        Refusal::Absent => buffers::put_line(buf, at, b"position=", position as u64),
        Refusal::Unsound => at,
        _ => buffers::put_line(buf, at, b"line=", line as u64),
    }
}

// Puts the lines of an answer into the buffer, and answers the position behind them.
fn put_answer(buf: &mut [u8], v: PlanTextVerdict) -> usize
    requires { (length (plan_answer_text v) ≤ length buf.old) × (v.count ≤ text_action_limit) }
    ensures behind { result ≡ length (plan_answer_text v) }
    ensures written { buf.new ≡ splice 0 (plan_answer_text v) buf.old }
{
    match v.outcome {
        Ok(()) => {
            let verdicts_at = buffers::put_bytes(buf, 0, b"plan=judged\n");
            put_verdicts(buf, verdicts_at, v)
        }
        Err(why) => {
            let place_at = put_stopped(buf, why);
            put_place(buf, place_at, why, v.line, v.position)
        }
    }
}

// Puts what is printed of the two texts into the buffer, and answers the position behind it.
fn compose(buf: &mut [u8], register: &[u8], plan: &[u8]) -> usize
    requires { plan_printed_limit ≤ length buf.old }
    ensures behind { result ≡ length (plan_printed register.now plan.now) }
    ensures written { buf.new ≡ splice 0 (plan_printed register.now plan.now) buf.old }
    ensures within { result ≤ plan_printed_limit }
{
    let form = register_reading::read_form(register);
    if !lines::goes_on(register, form.cursor) {
        return put_stopped(buf, form.cursor.refusal);
    }
    if !soundness::is_sound(form.register) {
        return put_stopped(buf, Refusal::Unsound);
    }
    put_answer(buf, nested_plans::plan_text(form.register, plan))
}

// The lines that the program prints of the two texts.
pub fn plan_verdict_text(buf: &mut [u8], register: &[u8], plan: &[u8]) -> Written
    ensures answer { result ≡ delivered (plan_printed register.now plan.now) buf.old }
    ensures buffer { buf.new ≡ put 0 (plan_printed register.now plan.now) buf.old }
{
    let mut sheet = [0u8; PLAN_PRINTED];
    let length = compose(&mut sheet, register, plan);
    buffers::deliver(buf, &sheet[..length])
}
