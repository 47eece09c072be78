// Why a call is refused, with 01's numbers, and the outcome of ordered tests.
// One list of refusals serves every call that can refuse.
#![tactic(auto)]

ghost use Rattle.std.specs.Prelude.{◌≡◌};
ghost use Rattle.refusals.specs.Refusals.{number_of};

// Why a call was refused: the first test that failed, in the order of 01's numbers, each with its number.
#[derive(Clone, Copy)]
pub enum Refusal {
    // The register is not sound.
    Unsound = 1,
    // A field or the moment is out of range.
    Range = 2,
    // Grantor, holder, granted or cleared resource, revoker or clearing caller is not in the register.
    Absent = 3,
    // The claim's id already stands.
    Stands = 4,
    // 256 claims stand.
    Full = 5,
    // A root grant by anyone but the keeper.
    NotKeeper = 6,
    // The grantor is a machine without owner.
    Ownerless = 7,
    // The grantor is a machine and right 13, 15 or 16 is asked.
    NotByMachine = 8,
    // The parent does not stand.
    NoParent = 9,
    // The parent is not held by the grantor, or is on another resource.
    NotHeld = 10,
    // The parent is not live at the moment: its weight is 0 or it has expired, or a claim higher on its chain has.
    NotLive = 11,
    // The parent lacks DELEGATE.
    NoDelegate = 12,
    // A right the parent lacks.
    RightLacking = 13,
    // The weight is above the parent's.
    WeightAbove = 14,
    // More than 16 hops, or left not below the parent's.
    TooManyHops = 15,
    // A circle along the chain.
    Circle = 16,
    // The claim to revoke does not stand.
    NoClaim = 17,
    // The revoker is no grantor on that claim's chain, the claim itself included; who clears a resource is not its keeper; who clears
    // old claims is not human.
    NoGrantor = 18,
    // The text is not of the form.
    Form = 19,
    // A count line is above its limit.
    Count = 20,
    // The buffer is too short for the text.
    Buffer = 21,
    // A plan text goes deeper than 8 levels.
    TooDeep = 22,
    // A plan text has more than 64 actions.
    TooManyActions = 23,
    // The text is not of the builder's form, or a number in it is out of range, or it has more than 32 uses.
    JsonForm = 24,
    // The builder's form has no place for a right above 2 or a governed entry.
    JsonLacks = 25,
    // No proposal of the planner's form would pass the check.
    NoProposal = 26,
    // The action is not permitted.
    NotPermitted = 27,
    // No fingerprint is attached to the resource's number.
    NoEntry = 28,
    // 64 entries stand in the book, and none of the resource's number.
    BookFull = 29,
    // The book has more than 64 entries, or two for one number.
    BadBook = 30,
    // An earlier record of the list has the id.
    Doubled = 31,
    // Owner of a human, or owner who is no human of the register.
    BadOwner = 32,
    // Keeper who is no human of the register.
    BadKeeper = 33,
}

// 01's number of a refusal.
pub fn number(why: Refusal) -> u32
    ensures { result ≡ number_of why }
{
    why as u32
}
