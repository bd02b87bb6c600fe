// Unions by the table of masks: of a set of one word with a set of another, and of families at places of areas.
ghost use Rattle.std.specs.Prelude.{◌≡◌, ℕ, ◌+◌, ◌<◌, ◌≤◌, length};
ghost use Rattle.game.specs.Sets.{union};
ghost use Rattle.family.specs.Family.{Unites, Lifts, Row, UnitesInto, Gathered};
ghost use Rattle.family.specs.Masks.{Raising};

// The unions of a set of the family at a place of `a` with a set of the family at a place of `b`, put into the family at the front of
// `out`: word by word of the second family.
#[inline(always)]
pub fn unite_into(
    out: &mut [u64],
    a: &[u64],
    at: usize,
    b: &[u64],
    bt: usize,
    raising: &[u64],
    n: usize,
)
    requires { (16 ≤ length out.old) × (at + n ≤ length a.now) × (bt + n ≤ length b.now) × (512 ≤ length raising.now) × (n ≤ 16) }
    ensures unites_into { Raising raising.now → UnitesInto n a.now at b.now bt out.old out.new }
{
    if n == 1 {
        out[0] = out[0] | unite_by(raising, a[at], b[bt]);
        return;
    }
    for i in 0..n {
        let word = b[bt + i];
        if word != 0 {
            unite_with(out, a, at, word, i, raising, n);
        }
    }
}

// The same with the sets of word i of the second family. Their unions are in the words whose places contain i; the words of the first
// family that give one of these are joined before.
fn unite_with(out: &mut [u64], a: &[u64], at: usize, word: u64, i: usize, raising: &[u64], n: usize)
    requires { (16 ≤ length out.old) × (at + n ≤ length a.now) × (i < n) × (512 ≤ length raising.now) × (n ≤ 16) }
    ensures row { Raising raising.now → Row n word i a.now at out.old out.new }
{
    let mut p = i;
    while p < n {
        let many = gathered(a, at, i, p);
        if many != 0 {
            out[p] = out[p] | unite_by(raising, many, word);
        }
        p = (p + 1) | i;
    }
}

// The words of the family at a place that give word p if united with word i, joined: those at the places j with i | j = p, which lack of p
// what is within i.
fn gathered(a: &[u64], at: usize, i: usize, p: usize) -> u64
    requires { (p < 16) × (union i p ≡ p) × (at + p < length a.now) }
    ensures { Gathered i p a.now at result }
{
    let mut sum = a[at + p - i];
    let mut s = i;
    while s != 0 {
        s = (s - 1) & i;
        sum = sum | a[at + p - s];
    }
    sum
}

// The unions of a set of `many` with a set of `few`, both of one word; it goes through the sets of `few`, the lowest first.
pub fn unite_by(raising: &[u64], many: u64, few: u64) -> u64
    requires { 512 ≤ length raising.now }
    ensures { Raising raising.now → Unites many few result }
{
    let mut unions = 0u64;
    let mut rest = few;
    while rest != 0 {
        let x = u64::trailing_zeros(rest) as usize;
        unions = unions | raised(raising, many, x);
        rest = rest & (rest - 1);
    }
    unions
}

// Every set of a word united with set x: for each state of x the word gets its sets with that state more, and of all these the
// sets that contain x are left.
fn raised(raising: &[u64], word: u64, x: usize) -> u64
    requires { (512 ≤ length raising.now) × (x < 64) }
    ensures { Raising raising.now → Lifts word x result }
{
    let at = x * 8;
    let mut more = word;
    more = more | ((more << 1) & raising[at]);
    more = more | ((more << 2) & raising[at + 1]);
    more = more | ((more << 4) & raising[at + 2]);
    more = more | ((more << 8) & raising[at + 3]);
    more = more | ((more << 16) & raising[at + 4]);
    more = more | ((more << 32) & raising[at + 5]);
    more & raising[at + 6]
}
