// Numbers over one denominator that follow an exchange: those after it come from those before it by one product and one division.
// No theorem says that the division is exact, so the quotient is tested.
ghost use Rattle.std.specs.Prelude.{◌≡◌, ◌<◌, length, IsTrue};
ghost use Rattle.table_entries.specs.WholeSteps.{IsShort};
ghost use Rattle.basic_solution.specs.KeptCosts.{IsShortOrMark};
ghost use Rattle.basic_solution.specs.private.Followed.{AreUnknown, IsFollowed, number_but};

use table_entries::{Inverse, exact_quotient};
use whole_sums::{SHORT_LIMIT, product};

/// Stands where a number is not known: it is not short.
pub const UNKNOWN: i64 = SHORT_LIMIT;

/// Whether the number is short.
#[inline]
pub fn is_short(number: i64) -> bool
    ensures { IsTrue result → IsShort number }
{
    -SHORT_LIMIT < number && number < SHORT_LIMIT
}

/// The number of a list at an index, another one at that of the exchange.
#[inline]
pub fn number_but(numbers: &[i64], exchanged: usize, other: i64, at: usize) -> i64
    requires at { at < length numbers.now }
    requires other { IsShortOrMark other }
    ensures { result ≡ number_but exchanged other numbers.now at }
{
    if at == exchanged { other } else { numbers[at] }
}

/// The number over the denominator after an exchange, by that over the denominator before it and by what a factor over that times an
/// entry adds, and a number that is not short where it is not known.
#[inline]
pub fn followed(
    number: i64,
    before: i64,
    after: i64,
    factor: i64,
    entry: i64,
    inverse: &Inverse,
) -> i64
    requires before { IsShort before }
    requires after { IsShort after }
    requires factor { IsShort factor }
    requires entry { IsShort entry }
    ensures value { IsFollowed before after factor entry number result }
    ensures kept { IsShortOrMark result }
{
    if !is_short(number) {
        return UNKNOWN;
    }
    if entry == 0 && before == after {
        return number;
    }
    if entry == 0 && number == 0 {
        return 0;
    }
    let total = product(number, after) + product(factor, entry);
    match exact_quotient(total, before, inverse) {
        Some(quotient) => quotient,
        None => UNKNOWN,
    }
}

/// Lets no number be known.
pub fn forget(kept: &mut [i64])
    ensures size { length kept.new ≡ length kept.old }
    ensures unknown { AreUnknown kept.new }
{
    for at in 0..kept.len() {
        kept[at] = UNKNOWN;
    }
}
