// Is the second list of steps a lawful rearrangement of the first, and if not, where do they part? The lists are lent as words, six words a step.
// A list is looked at watch by watch: watch k from 1 to 23 is station k and sees the steps that touch it, and watch 23 + r sees the steps that are
// refused with r. The open calls come last; what stands before them is lent a buffer of 512 zeros, with which a step is judged best.
#![tactic(auto)]

ghost use Rattle.std.specs.Prelude.{◌≡◌, ◌≤◌, ◌<◌, length, Ok};
ghost use Rattle.verdict.specs.Watches.{Watch};
ghost use Rattle.verdict.specs.Counted.{Zeros, counted, see, count, step_at, refused_in};
ghost use Rattle.lists.specs.Words.{part};
ghost use Rattle.verdict.specs.Tells.{Tells};
ghost use Rattle.verdict.specs.Compared.{Next, Watched, Stands, Compared};

use lists::{BUFFER_WORDS, STEP_WORDS};
use step::fields::LAST_STATION;
use step::{REFUSALS, Refusal, Step};

// A watch for each station, and one for each refusal.
pub const LAST_WATCH: u32 = LAST_STATION + REFUSALS;

// Where two lists part: the watch that sees them part, and the places in the first list and in the second.
#[derive(Clone, Copy, PartialEq, Eq)]
pub struct Parted {
    pub watch: u32,
    pub first: usize,
    pub second: usize,
}

// Watch k sees a step that may be done.
#[tactic(auto, using(crate::proofs::CountedLaws::see_by_reach))]
fn sees_good(step: Step, k: u32) -> bool
    requires { counted (Ok step) ≡ Ok step }
    ensures { result ≡ see k (Ok step) }
{
    k <= LAST_STATION && step::reaches(step, k)
}

// Watch k sees the step.
fn sees(reading: Result<Step, Refusal>, k: u32) -> bool
    requires { counted reading ≡ reading }
    ensures { result ≡ see k reading }
{
    match reading {
        Ok(s) => sees_good(s, k),
        Err(q) => k == LAST_STATION + step::refusal_number(q),
    }
}

// What a step counts as: itself, or its refusal.
fn judged(step: Step, lent: &[u32]) -> Result<Step, Refusal>
    requires { Zeros lent.now }
    ensures { result ≡ counted (Ok step) }
{
    step::judge(step, lent)?;
    Ok(step)
}

// The six words of step k of a list.
fn step_words(words: &[u32], k: usize) -> &[u32]
    requires { k < count words.now }
    ensures words { result.now ≡ part 6 words.now k }
    ensures len { length result.now ≡ 6 }
{
    let at = STEP_WORDS * k;
    &words[at..at + STEP_WORDS]
}

// What step k of a list counts as. Inlined, so that the step is not handed back through memory at each place that a watch looks at.
#[inline(always)]
#[tactic(auto, using(crate::proofs::CountedLaws::bad_counts))]
fn step_at(words: &[u32], k: usize, lent: &[u32]) -> Result<Step, Refusal>
    requires { (k < count words.now) × Zeros lent.now }
    ensures { result ≡ step_at words.now k }
{
    judged(lists::read_step(step_words(words, k))?, lent)
}

// Watch k, a station, sees what the step counts as. Few steps reach a station, so the fields are judged last.
fn touches(step: Step, k: u32, lent: &[u32]) -> bool
    requires { Zeros lent.now × (k ≤ 23) }
    ensures { result ≡ see k (counted (Ok step)) }
{
    step::reaches(step, k) && step::judge(step, lent).is_ok()
}

// Watch k, a station, sees step i of a list.
fn touches_at(words: &[u32], i: usize, k: u32, lent: &[u32]) -> bool
    requires { (i < count words.now) × Zeros lent.now × (k ≤ 23) }
    ensures { result ≡ see k (step_at words.now i) }
{
    lists::read_step(step_words(words, i)).is_ok_and(|s| touches(s, k, lent))
}

// Watch k sees step i of a list.
#[tactic(auto, using(crate::proofs::CountedLaws::step_counts))]
fn sees_at(words: &[u32], i: usize, k: u32, lent: &[u32]) -> bool
    requires { (i < count words.now) × Zeros lent.now }
    ensures { result ≡ see k (step_at words.now i) }
{
    if k <= LAST_STATION {
        touches_at(words, i, k, lent)
    } else {
        sees(step_at(words, i, lent), k)
    }
}

// Six words are equal. A `for`, since `==` of slices takes nearly twice as long here.
fn same_words(x: &[u32], y: &[u32]) -> bool
    requires { (length x.now ≡ 6) × (length y.now ≡ 6) }
    ensures { Tells result (x.now ≡ y.now) }
{
    for i in 0..STEP_WORDS {
        if x[i] != y[i] {
            return false;
        }
    }
    true
}

// What two steps count as is equal: the same step, or the same refusal.
fn same_reading(x: Result<Step, Refusal>, y: Result<Step, Refusal>) -> bool
    ensures { Tells result (x ≡ y) }
{
    x == y
}

// Step i of the first list and step j of the second are equal steps. Most that are equal have equal words, and need not be judged.
fn equal(first: &[u32], i: usize, second: &[u32], j: usize, lent: &[u32]) -> bool
    requires { (i < count first.now) × (j < count second.now) × Zeros lent.now }
    ensures { Tells result (step_at first.now i ≡ step_at second.now j) }
{
    same_words(step_words(first, i), step_words(second, j))
        || same_reading(step_at(first, i, lent), step_at(second, j, lent))
}

// The first place from `from` on whose step watch k sees, or the number of steps.
fn next(words: &[u32], from: usize, k: u32, lent: &[u32]) -> usize
    requires { (from ≤ count words.now) × Zeros lent.now }
    ensures { Next words.now k from result }
{
    let end = words.len() / STEP_WORDS;
    (from..end)
        .find(|i| sees_at(words, *i, k, lent))
        .unwrap_or(end)
}

// Where watch k sees the two lists part. A loop, since each list has a cursor of its own.
fn walk(first: &[u32], second: &[u32], k: u32, lent: &[u32]) -> Option<Parted>
    requires { Watch k × Zeros lent.now }
    ensures { Watched first.now second.now k result }
{
    let m = first.len() / STEP_WORDS;
    let n = second.len() / STEP_WORDS;
    let mut i = 0;
    let mut j = 0;
    loop {
        let x = next(first, i, k, lent);
        let y = next(second, j, k, lent);
        if x == m && y == n {
            return None;
        }
        if x == m || y == n || !equal(first, x, second, y, lent) {
            return Some(Parted {
                watch: k,
                first: x,
                second: y,
            });
        }
        i = x + 1;
        j = y + 1;
    }
}

// The watches one after the other, up to the first that parts.
fn walk_all(first: &[u32], second: &[u32], lent: &[u32]) -> Option<Parted>
    requires { Zeros lent.now }
    ensures { Compared first.now second.now result }
{
    (1..=LAST_WATCH).find_map(|k| walk(first, second, k, lent))
}

// The first place from `from` on where the second list has step i of the first, or the number of its steps.
fn seek(first: &[u32], i: usize, second: &[u32], from: usize, lent: &[u32]) -> usize
    requires { (i < count first.now) × (from ≤ count second.now) × Zeros lent.now }
    ensures { Stands first.now i second.now from result }
{
    let end = second.len() / STEP_WORDS;
    (from..end)
        .find(|j| equal(first, i, second, *j, lent))
        .unwrap_or(end)
}

// IS THE SECOND LIST A LAWFUL REARRANGEMENT OF THE FIRST? If not, where does the first watch that parts see them part?
pub fn compare(first: &[u32], second: &[u32]) -> Option<Parted>
    ensures { Compared first.now second.now result }
{
    let lent = [0u32; BUFFER_WORDS];
    walk_all(first, second, &lent)
}

// Where watch k alone sees the two lists part; what is no watch sees them part nowhere.
pub fn watch(first: &[u32], second: &[u32], k: u32) -> Option<Parted>
    ensures { Watched first.now second.now k result }
{
    if k < 1 || k > LAST_WATCH {
        return None;
    }
    let lent = [0u32; BUFFER_WORDS];
    walk(first, second, k, &lent)
}

// The first place from `from` on where the second list has step i of the first; where there is none, the number of its steps. So a step that is due at
// a parting is found where it stands instead.
pub fn find(first: &[u32], i: usize, second: &[u32], from: usize) -> usize
    ensures { Stands first.now i second.now from result }
{
    let end = second.len() / STEP_WORDS;
    if i >= first.len() / STEP_WORDS || from >= end {
        return end;
    }
    let lent = [0u32; BUFFER_WORDS];
    seek(first, i, second, from, &lent)
}

// How many steps of a list are refused: they are compared by their number alone.
pub fn refused(words: &[u32]) -> usize
    ensures { result ≡ refused_in words.now }
{
    let lent = [0u32; BUFFER_WORDS];
    (0..words.len() / STEP_WORDS)
        .filter(|i| step_at(words, *i, &lent).is_err())
        .count()
}
