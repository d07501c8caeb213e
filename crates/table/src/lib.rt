// Keyed words (§2.1, §3.1): from an offset on, one key for each entry, and after all keys one value for each. The test of a key, the look-up of
// one key by bisection, and the look-up of a run of keys by one walk over its entries.
#![tactic(auto)]

ghost use Rattle.std.specs.Prelude.{◌≡◌, ◌+◌, ◌<◌, ◌≤◌, ◌↔◌, true, MatchOption, length};
ghost use Rattle.table.specs.Table.{key_at, Rising};
ghost use Rattle.table.specs.Keys.{key_fails};
ghost use Rattle.table.specs.Bisection.{lower_bound, look_up};
ghost use Rattle.table.specs.Row.{run_place, entry_row, value_row};

// Where bisection ends: if the keys rise, the first entry whose key is not below the one asked for. The number of entries if there is no such
// entry, or if the words are too short for the keys.
pub fn lower_bound(words: &[u32], offset: usize, entries: usize, key: u32) -> usize
    ensures { result ≡ lower_bound words.now offset entries key }
{
    if words.len() < offset || words.len() - offset < entries {
        return entries;
    }
    // No `partition_point`: it says what it answers on keys that rise alone, and the contract here is for all words.
    let mut low = 0;
    let mut high = entries;
    while low < high {
        let middle = low + (high - low) / 2;
        if words[offset + middle] < key {
            low = middle + 1;
        } else {
            high = middle;
        }
    }
    low
}

// The entry with a key, if there is one.
pub fn find(words: &[u32], offset: usize, entries: usize, key: u32) -> Option<usize>
    ensures { result ≡ look_up words.now offset entries key }
{
    let i = lower_bound(words, offset, entries, key);
    (i < entries && words[offset + i] == key).then_some(i)
}

// The key of entry i, 0 past the end of the words.
fn key_at(words: &[u32], offset: usize, i: usize) -> u32
    ensures { result ≡ key_at words.now offset i }
{
    match offset.checked_add(i) {
        Some(at) => words.get(at).copied().unwrap_or(0),
        None => 0,
    }
}

// Whether the key of entry i is too large, or not above the one before it: §2.3, §3.4.
pub fn key_fails(words: &[u32], offset: usize, limit: u32, i: usize) -> bool
    ensures { result ≡ key_fails words.now offset limit i }
{
    let key = key_at(words, offset, i);
    limit <= key || 0 < i && key <= key_at(words, offset, i - 1)
}

// Whether the keys of the entries rise strictly: §2.3, §3.4. No entries are found to rise where the words are too short for them. The loop has no early
// exit, so that several keys are compared at once.
pub fn keys_rise(words: &[u32], offset: usize, entries: usize) -> bool
    ensures { (result ≡ true) ↔ ((offset + entries ≤ length words.now) × Rising words.now offset entries) }
{
    if words.len() < offset || entries > words.len() - offset {
        return false;
    }
    let mut rise = true;
    for i in 1..entries {
        if words[offset + i] <= words[offset + i - 1] {
            rise = false;
        }
    }
    rise
}

// The index of entry i's key in the run of keys from `first` on; none if the key is outside the run, or past its first 32.
fn run_place(words: &[u32], offset: usize, first: u32, width: usize, i: usize) -> Option<usize>
    requires { offset + i < length words.now }
    ensures { MatchOption result (32 ≤ run_place words.now offset first width i) (λ p. (p < 32) × (p ≡ run_place words.now offset first width i)) }
{
    let place = words[offset + i].checked_sub(first)? as usize;
    (place < width.min(32)).then_some(place)
}

// For a run of at most 32 keys from `first` on: at p, 1 plus the entry with the key first + p, or 0 if there is none or p is not below the
// width. It walks over the entries of the run, which may be few.
pub fn entry_row(
    words: &[u32],
    offset: usize,
    entries: usize,
    first: u32,
    width: usize,
) -> [usize; 32]
    ensures { result ≡ entry_row words.now offset entries first width }
{
    let mut row = [0; 32];
    for i in lower_bound(words, offset, entries, first)..entries {
        let Some(place) = run_place(words, offset, first, width, i) else {
            return row;
        };
        row[place] = i + 1;
    }
    row
}

// The same walk: at p the value of the entry with the key first + p. All are 0 if the words are too short for keys and values.
// Not one function with `entry_row`: a closure that tells the number of an entry needs clauses of its own, which are longer than the walk.
pub fn value_row(
    words: &[u32],
    offset: usize,
    entries: usize,
    first: u32,
    width: usize,
) -> [u32; 32]
    ensures { result ≡ value_row words.now offset entries first width }
{
    let mut row = [0u32; 32];
    if words.len() < offset || (words.len() - offset) / 2 < entries {
        return row;
    }
    for i in lower_bound(words, offset, entries, first)..entries {
        let Some(place) = run_place(words, offset, first, width, i) else {
            return row;
        };
        row[place] = words[offset + entries + i];
    }
    row
}
