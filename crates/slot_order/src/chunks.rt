//! Sorted pairs in a row of chunks: where a key stands among them, and how the chunks are kept neither full nor many.
ghost use Rattle.std.specs.Prelude.{◌≡◌, ◌<◌, ◌≤◌, ◌+◌, ◌-◌, ◌++◌, ◌∷◌, [], ℕ, length, slice_index_or, IsOk, OnOk, IfOk, IfErr, MatchOption, true, vec_len, vec_capacity};
ghost use Rattle.std.specs.Ordering.{is_gt};
ghost use Rattle.std.specs.List.{All, insert, remove};
ghost use Rattle.slot_order.specs.Order.{AreSorted, IsAt, IsGap};
ghost use Rattle.slot_order.specs.Next.{IsCut};
ghost use Rattle.slot_order.specs.Rows.{begins_above, items_at, joined, place_in, IsChunk, IsFoundIn, IsHome, IsMissingIn, IsRow, IsSpare};

use std::alloc::Global;
use suri_base::NoMemory;

/// A chunk of this many pairs is split.
pub const MOST: usize = 256;

// How many pairs of a split chunk stay, and the most that two neighbours hold together when they are joined.
const HALF: usize = 128;

/// One element more at a place, for which there is room.
pub fn put<T: Drop>(items: &mut Vec<T>, at: usize, item: T)
    requires room { vec_len items.old < vec_capacity items.old }
    requires at { at ≤ vec_len items.old }
    ensures items { items.new.items ≡ insert items.old.items at item }
    ensures len { vec_len items.new ≡ vec_len items.old + 1 }
    ensures capacity { vec_capacity items.old ≤ vec_capacity items.new }
{
    let _ = items.insert(at, item);
}

/// Where a key stands among sorted pairs, or where it would go.
pub fn search<K: Ord + Copy + Drop>(pairs: &[(K, u32)], key: K) -> Result<usize, usize>
    requires { AreSorted K.cmp pairs.now }
    ensures found { IfOk result (IsAt K.cmp pairs.now key) }
    ensures absent { IfErr result (IsGap K.cmp pairs.now key) }
{
    pairs.binary_search_by_key(&key, |pair| pair.0)
}

/// Whether a key stands behind all pairs.
pub fn is_behind<K: Ord + Copy + Drop>(pairs: &[(K, u32)], key: K) -> bool
    requires { AreSorted K.cmp pairs.now }
    ensures { result ≡ true → IsGap K.cmp pairs.now key (length pairs.now) }
{
    if pairs.is_empty() {
        return true;
    }
    pairs[pairs.len() - 1].0.cmp(&key).is_lt()
}

// Whether the first pair stands above a key.
fn is_first_above<K: Ord + Copy + Drop>(pairs: &[(K, u32)], key: K) -> bool
    requires { 0 < length pairs.now }
    ensures { result ≡ begins_above K.cmp key pairs.now }
{
    pairs[0].0.cmp(&key).is_gt()
}

// The chunk in which a key stands, or would stand.
fn home_of<K: Ord + Copy + Drop>(chunks: &[Vec<(K, u32)>], key: K) -> usize
    requires some { 0 < length chunks.now }
    requires chunks { All IsChunk chunks.now }
    ensures { IsHome K.cmp key chunks.now result }
{
    let mut low = 0;
    let mut high = chunks.len();
    while high - low > 1 {
        let middle = low + (high - low) / 2;
        if is_first_above(&chunks[middle], key) {
            high = middle;
        } else {
            low = middle;
        }
    }
    low
}

/// The chunk in which a key stands or would stand, and its place there.
pub fn locate<K: Ord + Copy + Drop>(
    chunks: &[Vec<(K, u32)>],
    key: K,
) -> (usize, Result<usize, usize>)
    requires some { 0 < length chunks.now }
    requires chunks { All IsChunk chunks.now }
    requires sorted { AreSorted K.cmp (joined chunks.now) }
    ensures home { result.0 < length chunks.now }
    ensures found { IfOk result.1 (IsFoundIn K.cmp chunks.now key result.0) }
    ensures absent { IfErr result.1 (IsMissingIn K.cmp chunks.now key result.0) }
{
    let home = home_of(chunks, key);
    let place = search(&chunks[home], key);
    (home, place)
}

/// The same. Times mostly come as they rise: where such a key goes is told by the last pair alone.
pub fn locate_new<K: Ord + Copy + Drop>(
    chunks: &[Vec<(K, u32)>],
    key: K,
) -> (usize, Result<usize, usize>)
    requires some { 0 < length chunks.now }
    requires chunks { All IsChunk chunks.now }
    requires sorted { AreSorted K.cmp (joined chunks.now) }
    ensures home { result.0 < length chunks.now }
    ensures found { IfOk result.1 (IsFoundIn K.cmp chunks.now key result.0) }
    ensures absent { IfErr result.1 (IsMissingIn K.cmp chunks.now key result.0) }
{
    let last = chunks.len() - 1;
    let chunk = &chunks[last];
    if is_behind(chunk, key) {
        return (last, Err(chunk.len()));
    }
    locate(chunks, key)
}

/// The chunk and the place there from which on each pair stands above a key.
pub fn locate_after<K: Ord + Copy + Drop>(chunks: &[Vec<(K, u32)>], key: K) -> (usize, usize)
    requires some { 0 < length chunks.now }
    requires chunks { All IsChunk chunks.now }
    requires sorted { AreSorted K.cmp (joined chunks.now) }
    ensures home { result.0 < length chunks.now }
    ensures within { result.1 ≤ length (items_at chunks.now result.0) }
    ensures cut { IsCut K.cmp (joined chunks.now) key (place_in chunks.now result.0 result.1) }
{
    let (home, place) = locate(chunks, key);
    match place {
        Ok(at) => (home, at + 1),
        Err(at) => (home, at),
    }
}

/// The pair at a place, which may lie behind the last one of a chunk.
pub fn pair_from<K: Ord + Copy + Drop>(
    chunks: &[Vec<(K, u32)>],
    home: usize,
    at: usize,
) -> Option<(K, u32)>
    requires home { home < length chunks.now }
    requires at { at ≤ length (items_at chunks.now home) }
    requires chunks { All IsChunk chunks.now }
    ensures { MatchOption result (place_in chunks.now home at ≡ length (joined chunks.now)) (λ e. (place_in chunks.now home at < length (joined chunks.now)) × (e ≡ slice_index_or (joined chunks.now) (place_in chunks.now home at) e)) }
{
    if at < chunks[home].len() {
        return Some(chunks[home][at]);
    }
    if chunks.len() - home < 2 {
        return None;
    }
    Some(chunks[home + 1][0])
}

// More pairs behind the others, for which there is room.
fn put_all<K: Copy + Drop>(pairs: &mut Vec<(K, u32)>, more: &[(K, u32)])
    requires room { vec_len pairs.old + length more.now ≤ vec_capacity pairs.old }
    ensures items { pairs.new.items ≡ pairs.old.items ++ more.now }
    ensures capacity { vec_capacity pairs.old ≤ vec_capacity pairs.new }
{
    let _ = pairs.extend_from_slice(more);
}

// The pairs of a full chunk from a place on go to an empty one.
fn move_from<K: Copy + Drop>(chunk: &mut Vec<(K, u32)>, other: &mut Vec<(K, u32)>, from: usize)
    requires from { (0 < from) × (from < 256) }
    requires full { length chunk.old.items ≡ 256 }
    requires chunk { 256 ≤ vec_capacity chunk.old }
    requires other { IsSpare other.old }
    ensures items { chunk.old.items ≡ chunk.new.items ++ other.new.items }
    ensures chunk { IsChunk chunk.new }
    ensures other { IsChunk other.new }
{
    put_all(other, &chunk[from..]);
    chunk.truncate(from);
}

// From where on the pairs of a full chunk go to another: where the newest stands at the end, it goes alone, so that keys
// that come as they rise leave full chunks; else the upper half goes.
fn split_place(at: usize) -> usize
    ensures { (0 < result) × (result < 256) }
{
    if at == MOST - 1 { at } else { HALF }
}

// A chunk that is done with is kept, where there is room for it.
fn give_back<K: Copy + Drop>(spares: &mut Vec<Vec<(K, u32)>>, mut chunk: Vec<(K, u32)>)
    requires spares { All IsSpare spares.old.items }
    requires wide { 256 ≤ vec_capacity chunk }
    ensures spares { All IsSpare spares.new.items }
    ensures kept { vec_len spares.old ≤ vec_len spares.new }
{
    if spares.len() < spares.capacity() {
        chunk.clear();
        let _ = spares.push(chunk);
    }
}

/// Empty chunks, until there are so many.
///
/// # Errors
///
/// `NoMemory` where there is none for them.
pub fn keep_spares<K: Copy + Drop>(
    alloc: Global,
    spares: &mut Vec<Vec<(K, u32)>>,
    count: usize,
) -> Result<(), NoMemory>
    requires spares { All IsSpare spares.old.items }
    ensures spares { All IsSpare spares.new.items }
    ensures kept { vec_len spares.old ≤ vec_len spares.new }
    ensures enough { OnOk result (count ≤ vec_len spares.new) }
    ensures succeeds { count ≤ vec_len spares.old → IsOk result }
{
    while spares.len() < count {
        let Ok(chunk) = Vec::with_capacity(alloc, MOST) else {
            return Err(NoMemory);
        };
        if spares.push(chunk).is_err() {
            return Err(NoMemory);
        }
    }
    Ok(())
}

/// The first pair of all.
pub fn begin<K: Copy + Drop>(
    chunks: &mut Vec<Vec<(K, u32)>>,
    spares: &mut Vec<Vec<(K, u32)>>,
    pair: (K, u32),
)
    requires none { chunks.old.items ≡ [] }
    requires row { IsRow chunks.old spares.old }
    requires room { (0 < vec_len spares.old) × (vec_len chunks.old < vec_capacity chunks.old) }
    ensures pairs { joined chunks.new.items ≡ pair ∷ [] }
    ensures row { IsRow chunks.new spares.new }
    ensures spares { vec_len spares.old ≤ vec_len spares.new + 1 }
    ensures len { vec_len chunks.new ≤ vec_len chunks.old + 1 }
    ensures capacity { vec_capacity chunks.old ≤ vec_capacity chunks.new }
{
    if let Some(mut chunk) = spares.pop() {
        put(&mut chunk, 0, pair);
        put(chunks, 0, chunk);
    }
}

/// One pair more, in a chunk. Where the chunk is full with it, it is split.
pub fn put_pair<K: Copy + Drop>(
    chunks: &mut Vec<Vec<(K, u32)>>,
    spares: &mut Vec<Vec<(K, u32)>>,
    home: usize,
    at: usize,
    pair: (K, u32),
)
    requires home { home < length chunks.old.items }
    requires at { at ≤ length (items_at chunks.old.items home) }
    requires row { IsRow chunks.old spares.old }
    requires room { (0 < vec_len spares.old) × (vec_len chunks.old < vec_capacity chunks.old) }
    ensures pairs { joined chunks.new.items ≡ insert (joined chunks.old.items) (place_in chunks.old.items home at) pair }
    ensures row { IsRow chunks.new spares.new }
    ensures spares { vec_len spares.old ≤ vec_len spares.new + 1 }
    ensures len { vec_len chunks.new ≤ vec_len chunks.old + 1 }
    ensures capacity { vec_capacity chunks.old ≤ vec_capacity chunks.new }
{
    put(&mut chunks[home], at, pair);
    if chunks[home].len() < MOST {
        return;
    }
    if let Some(mut other) = spares.pop() {
        move_from(&mut chunks[home], &mut other, split_place(at));
        put(chunks, home + 1, other);
    }
}

// A chunk takes in what the next one holds.
fn join_next<K: Copy + Drop>(
    chunks: &mut Vec<Vec<(K, u32)>>,
    spares: &mut Vec<Vec<(K, u32)>>,
    at: usize,
)
    requires at { at + 1 < length chunks.old.items }
    requires few { length (items_at chunks.old.items at) + length (items_at chunks.old.items (at + 1)) < 256 }
    requires row { IsRow chunks.old spares.old }
    ensures pairs { joined chunks.new.items ≡ joined chunks.old.items }
    ensures row { IsRow chunks.new spares.new }
    ensures kept { vec_len spares.old ≤ vec_len spares.new }
    ensures len { vec_len chunks.new ≤ vec_len chunks.old }
    ensures capacity { vec_capacity chunks.old ≤ vec_capacity chunks.new }
{
    let next = chunks.remove(at + 1);
    put_all(&mut chunks[at], &next);
    give_back(spares, next);
}

// Whether a chunk and the next one hold so little that they can be one.
fn are_small<K: Copy + Drop>(chunks: &[Vec<(K, u32)>], at: usize) -> bool
    requires at { at < length chunks.now }
    ensures { result ≡ true → (at + 1 < length chunks.now) × (length (items_at chunks.now at) + length (items_at chunks.now (at + 1)) < 256) }
{
    if chunks.len() - at < 2 {
        return false;
    }
    let here = chunks[at].len();
    if here > HALF {
        return false;
    }
    chunks[at + 1].len() <= HALF - here
}

// A chunk that has grown small is joined with a neighbour, where that one is small too.
fn join_small<K: Copy + Drop>(
    chunks: &mut Vec<Vec<(K, u32)>>,
    spares: &mut Vec<Vec<(K, u32)>>,
    at: usize,
)
    requires at { at < length chunks.old.items }
    requires row { IsRow chunks.old spares.old }
    ensures pairs { joined chunks.new.items ≡ joined chunks.old.items }
    ensures row { IsRow chunks.new spares.new }
    ensures kept { vec_len spares.old ≤ vec_len spares.new }
    ensures len { vec_len chunks.new ≤ vec_len chunks.old }
    ensures capacity { vec_capacity chunks.old ≤ vec_capacity chunks.new }
{
    if are_small(chunks, at) {
        join_next(chunks, spares, at);
    } else if at > 0 && are_small(chunks, at - 1) {
        join_next(chunks, spares, at - 1);
    }
}

/// A pair leaves a chunk, and a chunk with no other pair leaves with it.
pub fn take_pair<K: Copy + Drop>(
    chunks: &mut Vec<Vec<(K, u32)>>,
    spares: &mut Vec<Vec<(K, u32)>>,
    home: usize,
    at: usize,
)
    requires home { home < length chunks.old.items }
    requires at { at < length (items_at chunks.old.items home) }
    requires row { IsRow chunks.old spares.old }
    ensures pairs { joined chunks.new.items ≡ remove (joined chunks.old.items) (place_in chunks.old.items home at) }
    ensures row { IsRow chunks.new spares.new }
    ensures kept { vec_len spares.old ≤ vec_len spares.new }
    ensures len { vec_len chunks.new ≤ vec_len chunks.old }
    ensures capacity { vec_capacity chunks.old ≤ vec_capacity chunks.new }
{
    if chunks[home].len() > 1 {
        let _ = chunks[home].remove(at);
        join_small(chunks, spares, home);
    } else {
        let chunk = chunks.remove(home);
        give_back(spares, chunk);
    }
}

/// All pairs leave, and all chunks with them.
pub fn empty<K: Copy + Drop>(chunks: &mut Vec<Vec<(K, u32)>>, spares: &mut Vec<Vec<(K, u32)>>)
    requires row { IsRow chunks.old spares.old }
    ensures none { chunks.new.items ≡ [] }
    ensures row { IsRow chunks.new spares.new }
    ensures kept { vec_len spares.old ≤ vec_len spares.new }
    ensures capacity { vec_capacity chunks.old ≤ vec_capacity chunks.new }
{
    while let Some(chunk) = chunks.pop() {
        give_back(spares, chunk);
    }
}
