// Writing to a buffer that is lent: to its front, and piece by piece behind what is written already.
#![tactic(auto)]

ghost use Rattle.std.specs.Prelude.{◌≡◌, ◌⊎◌, ◌≤◌, ℕ, ◌<◌, ◌+◌, length, List, ◌∷◌, ◌++◌};
ghost use Rattle.buffers.specs.Buffers.{fits_in, overlay, headed, Left};
ghost use Rattle.buffers.specs.Words.{word, field};

// Whether a result of `n` bytes is within a limit and within the output buffer; if not, it is refused with 13.
#[tactic(auto, unfolding(crate::specs::Buffers::fits_in))]
pub fn fits(n: usize, limit: usize, room: usize) -> bool
    ensures { result ≡ fits_in limit room n }
{
    n <= limit && n <= room
}

// The lesser of two numbers.
pub fn least(m: usize, n: usize) -> usize
    ensures { (result ≤ m) × (result ≤ n) × ((result ≡ m) ⊎ (result ≡ n)) }
{
    m.min(n)
}

// Copies bytes to the front of a buffer, as many as it holds. Byte by byte: `copy_from_slice` is compiled to `memmove`, and the archive for C needs `memcpy` and `memset` alone.
pub fn copy(from: &[u8], out: &mut [u8])
    ensures { out.new ≡ overlay from.now out.old }
{
    let n = least(from.len(), out.len());
    for i in 0..n {
        out[i] = from[i];
    }
}

// The header of a field, at the front of a buffer that holds it: its tag and the length of its body, of which two bytes are written.
pub fn write_header(out: &mut [u8], tag: u8, len: usize)
    ensures { out.new ≡ headed tag len out.old }
{
    if out.len() < 3 {
        return;
    }
    let [.., high, low] = len.to_be_bytes();
    [out[0], out[1], out[2]] = [tag, high, low];
}

// The start of a field at the front of a buffer: the header for a body of `len` bytes, and the first of these; how many bytes that is. The rest of the body goes to the part behind them.
pub fn start_field(out: &mut [u8], tag: u8, len: usize, first: &[u8]) -> usize
    requires first_in_bounds { 3 + length first.now ≤ length out.old }
    requires len_bound { len < 65536 }
    ensures { (result ≡ 3 + length first.now) × Left ((tag ∷ word len) ++ first.now) out.old out.new result }
{
    write_header(out, tag, len);
    copy(first, &mut out[3..]);
    3 + first.len()
}

// A whole field.
pub fn write_field(out: &mut [u8], tag: u8, body: &[u8]) -> usize
    requires body_in_bounds { 3 + length body.now ≤ length out.old }
    requires body_len_bound { length body.now < 65536 }
    ensures { (result ≡ 3 + length body.now) × Left (field tag body.now) out.old out.new result }
{
    start_field(out, tag, body.len(), body)
}

// Writes bytes behind the `at` bytes that are written already; how many are written then.
pub fn append(piece: &[u8], out: &mut [u8], at: usize) -> usize
    requires { at + length piece.now ≤ length out.old }
    ensures { (result ≡ at + length piece.now)
        × ((new old : List ℕ) → Left new old out.old at → Left (new ++ piece.now) old out.new result) }
{
    copy(piece, &mut out[at..]);
    at + piece.len()
}

// The same with a number in two bytes.
pub fn append_word(number: usize, out: &mut [u8], at: usize) -> usize
    requires at_in_bounds { at + 2 ≤ length out.old }
    requires number_bound { number < 65536 }
    ensures { (result ≡ at + 2)
        × ((new old : List ℕ) → Left new old out.old at → Left (new ++ word number) old out.new result) }
{
    [out[at], out[at + 1]] = (number as u16).to_be_bytes();
    at + 2
}
