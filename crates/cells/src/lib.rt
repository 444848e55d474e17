// Functions on bytes: each sets one cell of a slice, or the whole slice. A cell is named by the slice and its place in it, and not lent by
// itself: two of them read another cell of the same slice, and `put`, which the promises of all that set a cell are made of, is of the
// whole slice.
#![tactic(auto)]

ghost use Rattle.std.specs.Prelude.{◌≡◌, ◌⊎◌, ◌+◌, ◌≤◌, ◌<◌, ℕ, List, length};
ghost use Rattle.cells.specs.Cell.{cell, put, SetsTo};
ghost use Rattle.cells.specs.Xor.{xor_bytes, zeros};

// Every byte of `s` becomes 0.
pub fn clear(s: &mut [u8])
    ensures { s.new ≡ zeros (length s.old) }
{
    s.fill(0)
}

// The cell of `p` bytes of `s` at `at` is set from its first byte on: byte i becomes what `byte` gives for `s` as it then is and for i.
fn set_cell<F: Fn(&[u8], usize) -> u8>(s: &mut [u8], at: usize, p: usize, byte: F)
    requires room { at + p ≤ length s.old }
    requires callable { (t : _) (i : ℕ) → length t.now ≡ length s.old → i < p → F.pre byte t i }
    ensures { (c : List ℕ) → SetsTo (F.post byte) s.old at p c → s.new ≡ put s.old at c }
{
    // By index: what `byte` gives depends on the slice as it then is.
    for i in 0..p {
        s[at + i] = byte(s, i);
    }
}

// The cell of `s` at `at` becomes `src`. Not by `copy_from_slice`, which calls memcpy: small cells would take longer.
pub fn copy_into(s: &mut [u8], at: usize, src: &[u8])
    requires { at + length src.now ≤ length s.old }
    ensures { s.new ≡ put s.old at src.now }
{
    set_cell(s, at, src.len(), |_, i| src[i])
}

// The cell of `s` at `at` becomes the cell at `from` XOR `src`. The cell at `from` lies before it, or
// starts no earlier than it: so no byte is read after it was set.
pub fn xor_from(s: &mut [u8], at: usize, from: usize, src: &[u8])
    requires within { (at + length src.now ≤ length s.old)
        × (from + length src.now ≤ length s.old) }
    requires apart { (from + length src.now ≤ at) ⊎ (at ≤ from) }
    ensures { let source = cell s.old from (length src.now) in
        s.new ≡ put s.old at (xor_bytes source src.now) }
{
    set_cell(s, at, src.len(), |s, i| s[from + i] ^ src[i])
}

// The cell of `s` at `from`, which lies before the one at `at`, and `src` are XORed into the cell at `at`.
pub fn xor_into(s: &mut [u8], at: usize, from: usize, src: &[u8])
    requires { (at + length src.now ≤ length s.old) × (from + length src.now ≤ at) }
    ensures { let own = cell s.old at (length src.now) in
        let source = cell s.old from (length src.now) in
        s.new ≡ put s.old at (xor_bytes own (xor_bytes source src.now)) }
{
    set_cell(s, at, src.len(), |s, i| s[at + i] ^ (s[from + i] ^ src[i]))
}

// The cell of `out` at `at` becomes the XOR of two cells.
pub fn xor_cells(out: &mut [u8], at: usize, a: &[u8], b: &[u8])
    requires { (at + length a.now ≤ length out.old) × (length b.now ≡ length a.now) }
    ensures { out.new ≡ put out.old at (xor_bytes a.now b.now) }
{
    set_cell(out, at, a.len(), |_, i| a[i] ^ b[i])
}
