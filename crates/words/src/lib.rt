// Words for the numbers of refusals, violations, rights and flags.
// Refusals and kinds of violation in 01's and 02's words, rights and flags by their names in the
// builder's form. Every number is answered; one that stands for nothing has a text of its own.
#![tactic(auto)]

ghost use Rattle.std.specs.Prelude.{◌≡◌, [], min};
ghost use Rattle.buffers.specs.Buffers.{put};
ghost use Rattle.buffers.specs.Delivery.{delivered};
ghost use Rattle.words.specs.Tables.{text_at};
ghost use Rattle.words.specs.Words.{refusal_text, violation_text, right_name, flag_name};

use actions::Action;
use buffers::Written;
use lines::LINE_FEED;

// How many numbers each table has a text for, from 0 on. Behind those stands the text of every other number.
const REFUSALS: usize = 34;

const VIOLATIONS: usize = 6;

const RIGHTS: usize = 17;

const FLAGS: usize = Action::FLAGS as usize;

// The text at a place of a table, in which a line feed ends each text. Past the last text it is empty.
fn text_at(table: &[u8], place: usize) -> &[u8]
    ensures { result.now ≡ text_at place [] table.now }
{
    let mut left = place;
    let mut from: usize = 0;
    for (i, b) in table.iter().enumerate() {
        if *b == LINE_FEED {
            if left == 0 {
                return &table[from..i];
            }
            left -= 1;
            from = i + 1;
        }
    }
    &table[..0]
}

// Writes the text of a number into the buffer: the one at its place among the first `count` of a table, and the one behind them for every
// other number.
fn write_text(buf: &mut [u8], table: &[u8], number: u32, count: usize) -> Written
    ensures answer { result ≡ delivered (text_at (min number count) [] table.now) buf.old }
    ensures buffer { buf.new ≡ put 0 (text_at (min number count) [] table.now) buf.old }
{
    let place = (number as usize).min(count);
    buffers::deliver(buf, text_at(table, place))
}

// Writes what a refusal's number says.
pub fn refusal_text(number: u32, buf: &mut [u8]) -> Written
    ensures answer { result ≡ delivered (refusal_text number) buf.old }
    ensures buffer { buf.new ≡ put 0 (refusal_text number) buf.old }
{
    write_text(
        buf,
        b"not refused
register not sound
field or count of the call out of range
grantor, holder, resource, revoker, caller or acting actor not in the register
claim id already stands
256 claims stand
root grant by anyone but the keeper
grantor is a machine without owner
grantor is a machine and right 13, 15 or 16 is asked
parent does not stand
parent not held by the grantor, or on another resource
parent, or a claim above it, not live at the moment
parent lacks DELEGATE
a right the parent lacks
weight above the parent's
more than 16 hops, or left not below the parent's
circle: the holder holds a claim higher on the chain, or granted its root
claim to revoke does not stand
revoker is no grantor on that claim's chain, or caller is not the keeper or not human
text not of the form
a count line above its limit
buffer too short for the text
plan deeper than 8 levels
more than 64 actions in a plan text
JSON action of another form, with a number out of range or with more than 32 uses
a right above 2 or a governed entry, for which a JSON action has no place
no single grant by one of the signers would permit the use
action not permitted
no fingerprint is attached to the resource's number
64 entries stand, and none of the resource's number
book with more than 64 entries or with two for one number
an earlier record of the list has the id
owner of a human, or owner who is no human of the register
keeper who is no human of the register
unknown refusal
",
        number,
        REFUSALS,
    )
}

// Writes what a violation's kind says.
pub fn violation_text(kind: u32, buf: &mut [u8]) -> Written
    ensures answer { result ≡ delivered (violation_text kind) buf.old }
    ensures buffer { buf.new ≡ put 0 (violation_text kind) buf.old }
{
    write_text(
        buf,
        b"unknown violation
flag set
machine without owner
machine that governs
use that the actor does not cover
use that the machine's owner does not cover
unknown violation
",
        kind,
        VIOLATIONS,
    )
}

// Writes the name of a right.
pub fn right_name(right: u32, buf: &mut [u8]) -> Written
    ensures answer { result ≡ delivered (right_name right) buf.old }
    ensures buffer { buf.new ≡ put 0 (right_name right) buf.old }
{
    write_text(
        buf,
        b"READ
WRITE
EXECUTE
DELETE
DELEGATE
NETWORK_EGRESS
NETWORK_INGRESS
FILE_SYSTEM
PROCESS_SPAWN
MEMORY_WRITE
CREDENTIAL_READ
CREDENTIAL_WRITE
AUDIT_READ
AUDIT_WRITE
POLICY_READ
REGISTRY_MODIFY
POLICY_MODIFY
unknown right
",
        right,
        RIGHTS,
    )
}

// Writes the name of a flag.
pub fn flag_name(flag: u32, buf: &mut [u8]) -> Written
    ensures answer { result ≡ delivered (flag_name flag) buf.old }
    ensures buffer { buf.new ≡ put 0 (flag_name flag) buf.old }
{
    write_text(
        buf,
        b"increases_machine_sovereignty
resists_human_correction
bypasses_verifier
weakens_verifier
disables_corrigibility
machine_coalition_dominion
coerces
deceives
self_modification_weakens_verifier
machine_coalition_reduces_freedom
unknown flag
",
        flag,
        FLAGS,
    )
}
