// The claims of a sheet, each judged over those before it and by itself.
ghost use Rattle.std.specs.Prelude.{◌≡◌, true, ◌≤◌, length, take};
ghost use Rattle.register.specs.Limits.{claim_limit};
ghost use Rattle.register.specs.Chain.{latest};
ghost use Rattle.columns.specs.Sheet.{sheet_limit, column_of, claims_in, id_column, parent_column};
ghost use Rattle.lookup.specs.Finding.{earlier_places};
ghost use Rattle.claim_judging.specs.Over.{stand_over};
ghost use Rattle.soundness.specs.Judged.{claims_alone};
ghost use Rattle.lists.specs.Lists.{distinct};

use crate::ranges::claims_fit;
use columns::ActorColumns;
use register::Register;

// Whether each claim is as it should be over those before it, where their ids are distinct. The places of the parents are lent; the hops
// of the claims that were judged are kept.
pub(crate) fn claims_over<'a>(version: u64, ups: &'a [u16], sheet: &'a [u32], n: usize) -> bool
    requires { (n ≤ claim_limit) × (length sheet.now ≡ sheet_limit) × (distinct (take n (column_of id_column sheet.now)) ≡ true) × (ups.now ≡ earlier_places (column_of id_column sheet.now) (column_of parent_column sheet.now) n) }
    ensures { result ≡ stand_over version (latest (take n (claims_in sheet.now))) }
{
    let grantors = columns::column(sheet, columns::GRANTORS);
    let holders = columns::column(sheet, columns::HOLDERS);
    let mut hops = [0u8; Register::CLAIMS];
    for i in 0..n {
        let c = columns::claim_at(sheet, i);
        if c.parent == 0 {
            hops[i] = 0;
        } else {
            let up = ups[i] as usize;
            if Register::CLAIMS <= up {
                return false;
            }
            let p = columns::claim_at(sheet, up);
            let steps = hops[up] as usize;
            if !claim_judging::stands_over(version, ups, grantors, holders, up, steps, p, c) {
                return false;
            }
            hops[i] = (steps + 1) as u8;
        }
    }
    true
}

// Whether the ids of the first `h` actors are distinct and each claim is as it should be by itself. The places of the resources are lent;
// those of the grantors and holders are found once for all claims. Every claim is looked at, without a way out of the loop.
pub(crate) fn claims_alone<'a>(
    version: u64,
    actors: ActorColumns,
    h: usize,
    keepers: &'a [u32],
    spots: &'a [u16],
    sheet: &'a [u32],
    n: usize,
) -> bool
    requires { (n ≤ claim_limit) × (length sheet.now ≡ sheet_limit) × (length spots.now ≡ claim_limit) }
    ensures { result ≡ claims_alone version actors h keepers.now spots.now sheet.now n }
{
    let grantors = columns::column(sheet, columns::GRANTORS);
    let holders = columns::column(sheet, columns::HOLDERS);
    let named = lookup::both_places(&actors.names, h, grantors, holders, n);
    let mut stand = named.distinct;
    for i in 0..n {
        let c = columns::claim_at(sheet, i);
        let grantor = named.first[i] as usize;
        let holder = named.second[i] as usize;
        let report = spots[i] as usize;
        let kind = columns::number_at(&actors.kinds, grantor);
        let owner = columns::number_at(&actors.owners, grantor);
        let keeper = columns::number_at(keepers, report);
        stand &= claim_judging::stands_named(c, grantor, holder, report, kind, owner, keeper);
    }
    stand & claims_fit(version, sheet, n)
}
