// The ends of rules, kept as lists of sets: one list after another in one area, and for each rule two words that say where its
// list begins and where it ends. A rule whose list is empty is not listed.
ghost use Rattle.std.specs.Prelude.{◌≡◌, true, ◌+◌, ◌*◌, ◌<◌, ◌≤◌, length};
ghost use Rattle.enumeration.specs.Lists.{start_of, stop_of, Copied, Kept};

// Room for the sets of all lists.
pub const LISTED: usize = 4096;

// Two words for each of 256 rules: where its list begins, and after its last set.
pub const SPANS: usize = 512;

// The lists, where they are only read.
#[derive(Clone, Copy)]
pub struct Lists<'a> {
    pub sets: &'a [u32],
    pub spans: &'a [usize],
}

// Where the list of a rule begins.
pub fn list_start(spans: &[usize], r: usize) -> usize
    requires { r < 256 }
    ensures { result ≡ start_of spans.now r }
{
    spans.get(r * 2).copied().unwrap_or(0)
}

// Where it ends, within `size`.
pub fn list_end(spans: &[usize], r: usize, size: usize) -> usize
    requires { r < 256 }
    ensures { result ≡ stop_of spans.now r size }
{
    spans.get(r * 2 + 1).copied().unwrap_or(0).min(size)
}

// Rule r is listed.
pub fn is_listed(lists: &[u32], spans: &[usize], r: usize) -> bool
    requires { r < 256 }
    ensures { result ≡ true → start_of spans.now r < stop_of spans.now r (length lists.now) }
{
    list_start(spans, r) < list_end(spans, r, lists.len())
}

// The sets of the first `count` entries of an area, kept as the list of rule r where there is room for them from `room` on: where
// the room begins afterwards.
pub fn keep_list(
    lists: &mut [u32],
    spans: &mut [usize],
    sets: &[u32],
    count: usize,
    r: usize,
    room: usize,
) -> usize
    requires { (count * 3 ≤ length sets.now) × (r < 256) × (room ≤ length lists.old) × (length spans.old ≡ 512) }
    ensures { Kept lists.old spans.old sets.now count r room lists.new spans.new result }
{
    if lists.len() - room < count {
        return room;
    }
    copy_sets(lists, sets, count, room);
    spans[r * 2] = room;
    spans[r * 2 + 1] = room + count;
    room + count
}

// Copies the sets of the first `count` entries, to `room` and on.
fn copy_sets(lists: &mut [u32], sets: &[u32], count: usize, room: usize)
    requires { (count * 3 ≤ length sets.now) × (room + count ≤ length lists.old) }
    ensures { Copied lists.old sets.now count room lists.new }
{
    for k in 0..count {
        lists[room + k] = sets[k * 3 + 1];
    }
}
