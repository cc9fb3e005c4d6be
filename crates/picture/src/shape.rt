// A picture's sides, its codel's width, and the rows and columns of codels, which are worked out once.
ghost use Rattle.std.specs.Prelude.{◌≡◌, ◌<◌, ◌≤◌};
ghost use Rattle.picture.specs.Picture.{ceil, framed};

#[derive(Clone, Copy)]
pub struct Shape {
    pub height: usize,
    pub width: usize,
    pub codel: usize,
    pub rows: usize,
    pub cols: usize,
}

// How many codels of width k cover n pixels.
fn codels(n: usize, k: usize) -> usize
    requires { (n ≤ 1024) × (0 < k) × (k ≤ 1024) }
    ensures { result ≡ ceil n k }
{
    (n + (k - 1)) / k
}

// The shape of a picture whose sides and codel are within bounds (rule 2.1).
pub fn shape_of(height: usize, width: usize, codel: usize) -> Shape
    requires { (height ≤ 1024) × (width ≤ 1024) × (0 < codel) × (codel ≤ 1024) }
    ensures { result ≡ framed height width codel }
{
    let rows = codels(height, codel);
    let cols = codels(width, codel);
    Shape {
        height,
        width,
        codel,
        rows,
        cols,
    }
}
