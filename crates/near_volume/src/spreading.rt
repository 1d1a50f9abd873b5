//! Chunks of one slot, put where they lie in the volume.
ghost use Rattle.std.specs.Prelude.{ℕ, ◌≡◌, ◌≢◌, ◌+◌, ◌*◌, ◌<◌, ◌≤◌, length, slice_index};

/// Writes bytes over those from number `at` on.
fn put_part(to: &mut [u8], at: usize, part: &[u8])
    requires fits { at + length part.now ≤ length to.old }
    ensures long { length to.new ≡ length to.old }
    ensures before { (p : ℕ) → p < at → slice_index to.new p ≡ slice_index to.old p }
    ensures here { (x : ℕ) → x < length part.now → slice_index to.new (at + x) ≡ slice_index part.now x }
    ensures after { (p : ℕ) → at + length part.now ≤ p → slice_index to.new p ≡ slice_index to.old p }
{
    to[at..at + part.len()].copy_from_slice(part);
}

/// Writes chunks of `size` bytes, which stand after each other, to one column of `rows` rows of chunks.
pub(crate) fn spread(
    from: &[u8],
    to: &mut [u8],
    size: usize,
    column: usize,
    columns: usize,
    rows: usize,
)
    requires some { 1 ≤ size }
    requires from { length from.now ≡ size * rows }
    requires to { length to.old ≡ size * (rows * columns) }
    requires column { column < columns }
    ensures long { length to.new ≡ length to.old }
    ensures column { (row x : ℕ) → row < rows → x < size → slice_index to.new (size * (row * columns + column) + x) ≡ slice_index from.now (size * row + x) }
    ensures others { (row other x : ℕ) → row < rows → other < columns → other ≢ column → x < size →
        slice_index to.new (size * (row * columns + other) + x) ≡ slice_index to.old (size * (row * columns + other) + x) }
{
    for row in 0..rows {
        let at = size * (row * columns + column);
        put_part(to, at, &from[size * row..size * row + size]);
    }
}
