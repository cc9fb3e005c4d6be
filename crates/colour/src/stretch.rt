// Stretches of pixels that are all alike. Most of a picture is of one colour over many pixels, and a stretch of that colour
// needs no look at the palette. Whether a stretch is taken changes the speed and no answer.
ghost use Rattle.std.specs.Prelude.{◌≡◌, ◌*◌, ◌<◌, ◌≤◌, length};
ghost use Rattle.base.specs.Decides.{Decides};
ghost use Rattle.colour.specs.Stretch.{Repeats};

// How many pixels a stretch has.
const STRETCH: usize = 32;

// Whether each pixel of a stretch has the bytes of the one before it. All bytes are compared, past a difference too, so that the
// machine can take many at once.
fn repeats(pixels: &[u8], from: usize, to: usize) -> bool
    requires { ((1 ≤ from) × (from ≤ to)) × (3 * to ≤ length pixels.now) }
    ensures { Decides (Repeats pixels.now from to) result }
{
    let mut same = true;
    for j in 3 * from..3 * to {
        if pixels[j] != pixels[j - 3] {
            same = false;
        }
    }
    same
}

// The end of the stretch that begins at pixel i, if it repeats the pixel before it, and else i. Stretches begin only where one
// could end: where colours change often, a test at each pixel would cost more than it saves.
pub fn alike(pixels: &[u8], i: usize, n: usize) -> usize
    requires { (i < n) × (length pixels.now ≡ 3 * n) }
    ensures { ((i ≤ result) × (result ≤ n)) × Repeats pixels.now i result }
{
    if i % STRETCH != 0 {
        return i;
    }
    if i == 0 {
        return i;
    }
    if n - i < STRETCH {
        return i;
    }
    let end = i + STRETCH;
    if repeats(pixels, i, end) {
        return end;
    }
    i
}
