// Text in a lent slice of bytes. Each writer takes the index to begin at and returns the one after. A struct of the two would
// be no plainer, here and in the crates that write with these: it would hold a `&mut`, and each function would promise besides
// that it holds the same slice, with as many bytes. `String` needs a heap.
ghost use Rattle.std.specs.Prelude.{◌∷◌, [], ◌+◌, ◌<◌, length};
ghost use Rattle.base.specs.Lent.{Room, Put};
ghost use Rattle.base.specs.Text.{decimal};

// A word, as it stands. A loop, since the library's copy calls `memmove`, and the archive asks for nothing of C's but `memset`.
pub fn put_word(out: &mut [u8], at: usize, word: &[u8]) -> usize
    requires { Room out.old at word.now }
    ensures { Put out.old at word.now result out.new }
{
    for i in 0..word.len() {
        out[at + i] = word[i];
    }
    at + word.len()
}

// One decimal digit.
fn put_digit(out: &mut [u8], at: usize, d: u64) -> usize
    requires { (d < 10) × (at < length out.old) }
    ensures { Put out.old at ((48 + d) ∷ []) result out.new }
{
    out[at] = 48 + d as u8;
    at + 1
}

// A number in decimal, without leading zeros.
pub fn put_number(out: &mut [u8], at: usize, n: u64) -> usize
    requires { Room out.old at (decimal n) }
    ensures { Put out.old at (decimal n) result out.new }
{
    if n < 10 {
        return put_digit(out, at, n);
    }
    let next = put_number(out, at, n / 10);
    put_digit(out, next, n % 10)
}
