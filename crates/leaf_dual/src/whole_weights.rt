// The multipliers of rows and cuts as numbers over one denominator, each written at its place.
ghost use Rattle.std.specs.Prelude.{◌≡◌, ◌+◌, ◌<◌, ◌≤◌, ℕ, pos, length, nat_eq, IsTrue};
ghost use Rattle.lp_model.specs.Cuts.{is_live};
ghost use Rattle.leaf_dual.specs.Dual.{multiplier, cut_weight};
ghost use Rattle.whole_sums.specs.Wholes.{IsDenominator, whole_number_at};
ghost use Rattle.leaf_dual.specs.Wholes.{AreNumbersOver, IsNextOf, AreNexts};
ghost use Rattle.leaf_dual.specs.private.Wholes.{IsWrittenWhere, IsRowWritten, IsCutWritten};

use frac128::Frac;
use lp_model::{CutRow, Var};
use whole_sums::{common_multiple, short_over};

/// A denominator that the multipliers have in common, as far as there is room. Nothing rests on it but speed, since a number
/// that is not whole over it is told.
pub fn common_denominator(mult: &[(Var, Frac)]) -> i64
    ensures { IsDenominator result }
{
    let mut denominator = 1;
    for (_, number) in mult {
        denominator = common_multiple(denominator, number);
    }
    denominator
}

/// Writes 0 at each place.
fn clear(numbers: &mut [i64])
    ensures { (k : ℕ) → k < length numbers.new → whole_number_at numbers.new k ≡ pos 0 }
{
    for place in 0..numbers.len() {
        numbers[place] = 0;
    }
}

/// Writes the number of a multiplier at a place, where there is such a place. False where it has none.
fn write_at(place: usize, number: &Frac, denominator: i64, numbers: &mut [i64]) -> bool
    requires { IsDenominator denominator }
    ensures { IsTrue result → (k : ℕ) → k < length numbers.old → IsWrittenWhere (nat_eq place k) denominator number.now (whole_number_at numbers.old k) (whole_number_at numbers.new k) }
{
    if place >= numbers.len() {
        return true;
    }
    match short_over(number, denominator) {
        None => false,
        Some(over) => {
            numbers[place] = over;
            true
        }
    }
}

/// Writes the number of a row's multiplier at the row's place. False where it has none.
fn write_row(name: &Var, number: &Frac, denominator: i64, numbers: &mut [i64]) -> bool
    requires { IsDenominator denominator }
    ensures { IsTrue result → (k : ℕ) → k < length numbers.old → IsRowWritten denominator name.now number.now numbers.old numbers.new k }
{
    match name {
        Var::Row(place) => write_at(place.0 as usize, number, denominator, numbers),
        Var::Col(_) => true,
        Var::Cut(_) => true,
    }
}

/// Writes the numbers of the rows' multipliers. The first one that names a row counts, so the last one is written first. False
/// where one has none.
pub fn write_rows(mult: &[(Var, Frac)], denominator: i64, numbers: &mut [i64]) -> bool
    requires { IsDenominator denominator }
    ensures { IsTrue result → AreNumbersOver denominator (multiplier mult.now) numbers.new }
{
    clear(numbers);
    let count = mult.len();
    for behind in 0..count {
        let named = &mult[count - 1 - behind];
        if !write_row(&named.0, &named.1, denominator, numbers) {
            return false;
        }
    }
    true
}

/// Whether there is a cut at a place and it counts.
fn is_live(cuts: &[CutRow], cut: usize) -> bool
    ensures { result ≡ is_live cuts.now cut }
{
    if cut < cuts.len() {
        cuts[cut].live
    } else {
        false
    }
}

/// Writes the number of a cut's multiplier at the cut's place, where the cut counts. False where it has none.
fn write_cut(
    cuts: &[CutRow],
    name: &Var,
    number: &Frac,
    denominator: i64,
    numbers: &mut [i64],
) -> bool
    requires { IsDenominator denominator }
    ensures { IsTrue result → (k : ℕ) → k < length numbers.old → IsCutWritten denominator cuts.now name.now number.now numbers.old numbers.new k }
{
    match name {
        Var::Cut(place) => {
            let cut = place.0 as usize;
            if is_live(cuts, cut) {
                write_at(cut, number, denominator, numbers)
            } else {
                true
            }
        }
        Var::Row(_) => true,
        Var::Col(_) => true,
    }
}

/// Writes the numbers of the cuts' weights, as `write_rows` those of the rows. False where one has none.
pub fn write_cuts(
    cuts: &[CutRow],
    mult: &[(Var, Frac)],
    denominator: i64,
    numbers: &mut [i64],
) -> bool
    requires { IsDenominator denominator }
    ensures { IsTrue result → AreNumbersOver denominator (cut_weight cuts.now mult.now) numbers.new }
{
    clear(numbers);
    let count = mult.len();
    for behind in 0..count {
        let named = &mult[count - 1 - behind];
        if !write_cut(cuts, &named.0, &named.1, denominator, numbers) {
            return false;
        }
    }
    true
}

/// Whether there is a number at a place and it is 0.
fn is_zero_at(numbers: &[i64], place: usize) -> bool
    ensures { IsTrue result → (place < length numbers.now) × (whole_number_at numbers.now place ≡ pos 0) }
{
    place < numbers.len() && numbers[place] == 0
}

/// What is next from a place on: the place itself, where its number isn't 0, and else what is next behind it.
fn next_from(numbers: &[i64], place: usize, behind: usize) -> usize
    requires { IsNextOf numbers.now (place + 1) behind }
    ensures { IsNextOf numbers.now place result }
{
    if is_zero_at(numbers, place) {
        behind
    } else {
        place
    }
}

/// Writes for each of the first places the next one, itself included, whose number isn't 0, and their count where there is none.
pub fn write_nexts(numbers: &[i64], count: usize, next: &mut [usize])
    requires { count ≤ length next.old }
    ensures { AreNexts numbers.now next.new count }
{
    let mut at = count;
    for behind in 0..count {
        let place = count - 1 - behind;
        let here = next_from(numbers, place, at);
        next[place] = here;
        at = here;
    }
}
