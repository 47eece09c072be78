// Attaching a fingerprint to a resource's number, and fetching it.
// An attach is judged as the action of one use of WRITE, a fetch as that of one use of READ. The
// register is examined once, and the gate judges by what is found. One look at the numbers of the
// book tells whether they are distinct, and where the entry of the asked one stands.
#![tactic(auto)]

ghost use Rattle.std.specs.Prelude.{◌≡◌, true, Some, is_some, map, MatchResult, Ok, Err};
ghost use Rattle.refusals.specs.Refusals.{outcome_of};
ghost use Rattle.fingerprints.specs.Fingerprints.{entry, book_tests, attached, fetched};
ghost use Rattle.attaching.specs.Spots.{entry_spot, put_at, print_at};

use actions::{Action, Decision, Usage};
use fingerprints::{Attached, Book, Entry, Fetched};
use refusals::Refusal;
use register::Register;

// The numbers of a book's entries, past the count too.
fn numbers(b: Book) -> [u32; Book::PLACES]
    ensures { result ≡ map (λ e. e.resource) b.entries }
{
    let mut column = [0u32; Book::PLACES];
    for i in 0..Book::PLACES {
        column[i] = b.entries[i].resource;
    }
    column
}

// The place of the number's entry in a book that fits, the count where it has none. None where the book does not fit.
fn entry_spot(b: Book, resource: u32) -> Option<usize>
    ensures { result ≡ entry_spot b resource }
{
    let column = numbers(b);
    let found = lookup::places_of(&column, b.count, &[resource], 1);
    if !((b.count <= Book::PLACES) & found.distinct) {
        return None;
    }
    let at = found.places[0];
    if at == lookup::NOWHERE {
        return Some(b.count);
    }
    Some(at as usize)
}

// The tests that both calls begin with: 1, 30 where the book does not fit and there is no place, 2, 3, and 27 where the action is not permitted. The
// place, where they are passed.
fn settle(r: Register, at: Option<usize>, a: Action) -> Result<usize, Refusal>
    ensures { MatchResult result (λ place. (at ≡ Some place) × (outcome_of (book_tests true r a) ≡ (Ok tt))) (λ why. outcome_of (book_tests (is_some at) r a) ≡ Err why) }
{
    let mut sheet = [0u32; columns::SHEET];
    let found = soundness::examine(&mut sheet, r.version, r.actors, r.resources, r.claims);
    if !found.sound {
        return Err(Refusal::Unsound);
    }
    let Some(place) = at else {
        return Err(Refusal::BadBook);
    };
    let verdict = gate::gate_by(r, &sheet, found, a);
    match verdict.decision {
        Decision::Permitted => Ok(place),
        Decision::Refused => Err(Refusal::NotPermitted),
        Decision::Stopped(why) => Err(why),
    }
}

// The answer of an attach that may be done, to a place: past the last one the book is full. Behind all entries the count is one more.
fn put_at(b: Book, place: usize, resource: u32, fingerprint: [u8; Entry::BYTES]) -> Attached
    ensures { result ≡ put_at b place (entry resource fingerprint) }
{
    if Book::PLACES <= place {
        return Attached {
            book: b,
            outcome: Err(Refusal::BookFull),
        };
    }
    let mut book = b;
    book.entries[place] = Entry {
        resource,
        fingerprint,
    };
    if place == book.count {
        book.count = place + 1;
    }
    Attached {
        book,
        outcome: Ok(()),
    }
}

// The answer of a fetch that may be done, from a place: from the count on there is no entry.
fn print_at(b: Book, place: usize) -> Fetched
    ensures { result ≡ print_at b place }
{
    if place < b.count.min(Book::PLACES) {
        return Fetched {
            fingerprint: b.entries[place].fingerprint,
            outcome: Ok(()),
        };
    }
    Fetched {
        fingerprint: [0; Entry::BYTES],
        outcome: Err(Refusal::NoEntry),
    }
}

// Attaches the fingerprint to the resource's number on behalf of the actor: in its entry's place, or behind all entries where it has none.
pub fn attach(
    b: Book,
    r: Register,
    actor: u32,
    resource: u32,
    moment: u64,
    fingerprint: [u8; Entry::BYTES],
) -> Attached
    ensures { result ≡ attached b r actor resource moment fingerprint }
{
    let at = entry_spot(b, resource);
    let usage = Usage {
        resource,
        right: rights::WRITE,
    };
    match settle(r, at, actions::one_use(actor, usage, moment)) {
        Ok(place) => put_at(b, place, resource, fingerprint),
        Err(why) => Attached {
            book: b,
            outcome: Err(why),
        },
    }
}

// Fetches the fingerprint of the resource's number on behalf of the actor.
pub fn fetch(b: Book, r: Register, actor: u32, resource: u32, moment: u64) -> Fetched
    ensures { result ≡ fetched b r actor resource moment }
{
    let at = entry_spot(b, resource);
    let usage = Usage {
        resource,
        right: rights::READ,
    };
    match settle(r, at, actions::one_use(actor, usage, moment)) {
        Ok(place) => print_at(b, place),
        Err(why) => Fetched {
            fingerprint: [0; Entry::BYTES],
            outcome: Err(why),
        },
    }
}
