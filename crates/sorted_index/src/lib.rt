// A sorted index over a slice of entries, for any kind of key: insertion by shifting, search by halving.
#![tactic(auto)]

ghost use Rattle.std.specs.Prelude.{◌≡◌, ◌<◌, ◌≤◌, true, length};
ghost use Rattle.std.specs.List.{prefix_len};
ghost use Rattle.sorted_index.specs.Sorting.{sorted, inserted, all_but_last, Logarithmic};
ghost use Rattle.sorted_index.specs.Entries.{at_or_before, has_entry, Nearest};

pub mod entry;

use basis::Probed;
use entry::Entry;
use keys::Key;

// Does a come before b, or share its place?
// By hand: a derived order would compare the keys by an `Ord`, of which the laws of `Key` say nothing.
fn at_or_before<K: Key>(a: &Entry<K>, b: &Entry<K>) -> bool
    ensures value { result ≡ at_or_before K.less K.equals a.now b.now }
{
    a.key.before(&b.key) || (a.key.same(&b.key) && a.row <= b.row)
}

// How many entries come before the bound, or share its place: by binary search.
fn seek<K: Key>(entries: &[Entry<K>], bound: &Entry<K>) -> Probed<usize>
    ensures value { sorted (at_or_before K.less K.equals) entries.now ≡ true → result.found ≡ prefix_len (λ e. at_or_before K.less K.equals e bound.now) entries.now }
    ensures within { result.found ≤ length entries.now }
    ensures cost { Logarithmic (length entries.now) result.visited }
{
    // By hand: how many entries it looks at is part of the contract, and `partition_point` neither tells nor promises that.
    let mut low = 0;
    let mut high = entries.len();
    let mut visited = 0;
    while low < high {
        let mid = low + (high - low) / 2;
        visited += 1;
        if at_or_before(&entries[mid], bound) {
            low = mid + 1;
        } else {
            high = mid;
        }
    }
    Probed {
        found: low,
        visited,
    }
}

// The least row above `after` that has the key, if there is one.
// By hand: a type of sorted slices would be no plainer, since `insert` and `next` take any slice, and `cost` holds of any.
pub fn next<K: Key>(entries: &[Entry<K>], key: K, after: usize) -> Probed<Option<usize>>
    ensures value { sorted (at_or_before K.less K.equals) entries.now ≡ true → Nearest (has_entry K.equals entries.now key) after result.found }
    ensures cost { Logarithmic (length entries.now) result.visited }
{
    let sought = seek(entries, &Entry { key, row: after });
    let first = entries.get(sought.found).filter(|e| e.key.same(&key));
    Probed {
        found: first.map(|e| e.row),
        visited: sought.visited,
    }
}

// Puts an entry into its place among the others. The last place is free for it, and what it held is lost.
pub fn insert<K: Key>(entries: &mut [Entry<K>], entry: Entry<K>)
    ensures after { 0 < length entries.old → sorted (at_or_before K.less K.equals) (all_but_last entries.old) ≡ true → entries.new ≡ inserted (at_or_before K.less K.equals) entry (all_but_last entries.old) }
{
    let Some((_, others)) = entries.split_last() else {
        return;
    };
    let at = seek(others, &entry).found;
    entries[at..].rotate_right(1);
    entries[at] = entry;
}
