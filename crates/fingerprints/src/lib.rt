// The fingerprint book: what an attach and a fetch answer, definitions and theorems.
// Here are the types; in specs/ the definitions that the two calls are proved to equal. The book
// crosses to C as it is, and has no bytes between or behind its fields.
#![tactic(auto)]

ghost use Rattle.std.specs.Prelude.{◌≡◌};
ghost use Rattle.fingerprints.specs.Fingerprints.{empty_book};

use refusals::Refusal;

// A resource's number and the fingerprint attached to it.
#[repr(C)]
#[derive(Clone, Copy)]
pub struct Entry {
    pub resource: u32,
    pub fingerprint: [u8; Entry::BYTES],
}

impl Entry {
    pub const BYTES: usize = 32;
}

// Up to 64 entries; what stands past the count is ignored and kept.
#[repr(C)]
#[derive(Clone, Copy)]
pub struct Book {
    pub entries: [Entry; Book::PLACES],
    pub count: usize,
}

impl Book {
    pub const PLACES: usize = 64;

    // The book without entries: every place holds zeros.
    pub fn empty() -> Book
        ensures { result ≡ empty_book }
    {
        let none = Entry {
            resource: 0,
            fingerprint: [0; Entry::BYTES],
        };
        Book {
            entries: [none; Book::PLACES],
            count: 0,
        }
    }
}

// The answer of an attach. Refused: the book as it came.
#[derive(Clone, Copy)]
pub struct Attached {
    pub book: Book,
    pub outcome: Result<(), Refusal>,
}

// The answer of a fetch. Refused: 32 zeros.
#[derive(Clone, Copy)]
pub struct Fetched {
    pub fingerprint: [u8; Entry::BYTES],
    pub outcome: Result<(), Refusal>,
}
