// Whose turn it is, by the words of a seed.
ghost use Rattle.std.specs.Prelude.{◌≡◌, ◌<◌, true, length, get_or, None};
ghost use Rattle.turn_order.specs.Words.{first_words};
ghost use Rattle.turn_order.specs.Turns.{can_act, able, SomeCanAct, IsNextTurn};

use rand_core::utils::NextWord;
use rand_pcg::Lcg64Xsh32;

/// The stream of the generator on which the words of a seed stand.
const STREAM: u64 = 54;

/// The words of a seed, of which none is drawn.
pub fn words_of(seed: u64) -> Lcg64Xsh32
    ensures { result ≡ first_words seed }
{
    Lcg64Xsh32::new(seed, STREAM)
}

/// Whether a worker that holds this can act.
fn can_act(free: bool, holding: &Option<u64>) -> bool
    ensures { result ≡ can_act free holding.now }
{
    match holding {
        None => free,
        Some(_) => true,
    }
}

/// How many workers can act.
fn count_able(free: bool, held: &[Option<u64>]) -> usize
    ensures { result ≡ length (able free held.now) }
{
    let mut count = 0;
    for worker in 0..held.len() {
        if can_act(free, &held[worker]) {
            count += 1;
        }
    }
    count
}

/// The worker at a place among those that can act.
fn nth_able(free: bool, held: &[Option<u64>], place: usize) -> usize
    requires { place < length (able free held.now) }
    ensures nth { result ≡ get_or (able free held.now) place 0 }
    ensures within { result < length held.now }
    ensures able { can_act free (get_or held.now result None) ≡ true }
{
    let mut left = place;
    let mut worker = 0;
    for holding in held {
        if can_act(free, holding) {
            if left == 0 {
                return worker;
            }
            left -= 1;
        }
        worker += 1;
    }
    unreachable!()
}

/// The worker whose turn it is, by the next word, if there is more than one worker.
pub fn whose_turn(words: &mut Lcg64Xsh32, free: bool, held: &[Option<u64>]) -> usize
    requires { SomeCanAct free held.now }
    ensures turn { IsNextTurn words.old free held.now result words.new }
    ensures within { result < length held.now }
    ensures able { can_act free (get_or held.now result None) ≡ true }
{
    if held.len() == 1 {
        return 0;
    }
    let word = words.next_word();
    nth_able(free, held, word as usize % count_able(free, held))
}
