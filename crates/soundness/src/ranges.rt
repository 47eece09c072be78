// The numbers of claims in range, judged column by column.
// Every number is looked at, without a way out of a loop: so they are compared many at a time.
ghost use Rattle.std.specs.Prelude.{◌≡◌, ◌≤◌, length, take};
ghost use Rattle.register.specs.Limits.{claim_limit, ranged};
ghost use Rattle.columns.specs.Sheet.{sheet_limit};
ghost use Rattle.rights.specs.Rights.{is_rights};
ghost use Rattle.soundness.specs.Judged.{expiry_fits, fits_at};
ghost use Rattle.lists.specs.Lists.{every, counted};

use register::Register;

// Whether each of the first `n` numbers of a column is from the least to the greatest, both included.
fn numbers_fit(column: &[u32], n: usize, least: u32, greatest: u32) -> bool
    ensures { result ≡ every (ranged least greatest) (take n column.now) }
{
    let top = n.min(column.len());
    let mut fit = true;
    for number in &column[..top] {
        fit &= (least <= *number) & (*number <= greatest);
    }
    fit
}

// Whether each of the first `n` numbers of a column says rights.
fn rights_fit(column: &[u32], n: usize) -> bool
    ensures { result ≡ every is_rights (take n column.now) }
{
    let top = n.min(column.len());
    let mut fit = true;
    for number in &column[..top] {
        fit &= rights::in_range(*number);
    }
    fit
}

// Whether each of the first `n` expiries, by the two columns that keep them, is a moment.
fn expiries_fit<'a>(expiries: &'a [u32], late: &'a [u32], n: usize) -> bool
    requires { (n ≤ claim_limit) × (length expiries.now ≡ claim_limit) × (length late.now ≡ claim_limit) }
    ensures { result ≡ every (expiry_fits expiries.now late.now) (counted 0 n) }
{
    let mut fit = true;
    for i in 0..n {
        let expiry = (expiries[i] as u64) + register::MOMENT_END * (late[i] as u64);
        fit &= expiry < register::MOMENT_END;
    }
    fit
}

// Whether the numbers of each of the first `n` claims are in range, column by column.
pub(crate) fn claims_fit(version: u64, sheet: &[u32], n: usize) -> bool
    requires { (n ≤ claim_limit) × (length sheet.now ≡ sheet_limit) }
    ensures { result ≡ every (fits_at version sheet.now) (counted 0 n) }
{
    let ids = columns::column(sheet, columns::IDS);
    let parents = columns::column(sheet, columns::PARENTS);
    let grantors = columns::column(sheet, columns::GRANTORS);
    let holders = columns::column(sheet, columns::HOLDERS);
    let claimed = columns::column(sheet, columns::CLAIMED);
    let rights = columns::column(sheet, columns::RIGHTS);
    let weights = columns::column(sheet, columns::WEIGHTS);
    let left = columns::column(sheet, columns::LEFT);
    let expiries = columns::column(sheet, columns::EXPIRIES);
    let late = columns::column(sheet, columns::LATE);
    let told = version == Register::VERSION_TWO;
    numbers_fit(ids, n, 1, register::ID_LIMIT)
        & numbers_fit(parents, n, 0, register::ID_LIMIT)
        & numbers_fit(grantors, n, 1, register::ID_LIMIT)
        & numbers_fit(holders, n, 1, register::ID_LIMIT)
        & numbers_fit(claimed, n, 1, register::ID_LIMIT)
        & rights_fit(rights, n)
        & numbers_fit(weights, n, 0, register::WEIGHT_LIMIT)
        & (!told | numbers_fit(left, n, 0, register::LEFT_LIMIT))
        & expiries_fit(expiries, late, n)
}
