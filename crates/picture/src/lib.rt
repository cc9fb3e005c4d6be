// Reading a picture (`program.rs`). `PietSource` is one small value that carries the colour slice with its sides. `get_at`,
// on the plain slice and numbers, does the work, and `read_pixel` serves every other caller. `dimensions` has no caller
// here: it is `program.rs`'s own.
#![tactic(auto)]

pub mod grid;
pub mod shape;

ghost use Rattle.std.specs.Prelude.{◌≡◌};
ghost use Rattle.picture.specs.Source.{get_at};

#[derive(Clone, Copy)]
pub struct PietSource<'a> {
    pub prog: &'a [u8],
    pub height: u32,
    pub width: u32,
}

// A picture's sides in pixels.
#[derive(Clone, Copy)]
pub struct Sides {
    pub height: u32,
    pub width: u32,
}

// The colour number at a position, if it is inside, for any slice and any numbers.
pub fn get_at(prog: &[u8], height: u32, width: u32, row: u32, column: u32) -> Option<u8>
    ensures { result ≡ get_at prog.now height width row column }
{
    if height <= row {
        return None;
    }
    if width <= column {
        return None;
    }
    prog.get(row as usize * width as usize + column as usize)
        .copied()
}

impl<'a> PietSource<'a> {
    pub fn new(prog: &'a [u8], height: u32, width: u32) -> PietSource<'a>
        ensures { (result.prog ≡ prog.entry) × ((result.height ≡ height) × (result.width ≡ width)) }
    {
        PietSource {
            prog,
            height,
            width,
        }
    }

    pub fn dimensions(self) -> Sides
        ensures { (result.height ≡ self.entry.height) × (result.width ≡ self.entry.width) }
    {
        Sides {
            height: self.height,
            width: self.width,
        }
    }

    pub fn get(self, row: u32, column: u32) -> Option<u8>
        ensures { result ≡ get_at self.entry.prog.now self.entry.height self.entry.width row column }
    {
        get_at(self.prog, self.height, self.width, row, column)
    }
}

// From a plain slice and numbers through the struct.
pub fn read_pixel(prog: &[u8], height: u32, width: u32, row: u32, column: u32) -> Option<u8>
    ensures { result ≡ get_at prog.now height width row column }
{
    PietSource::new(prog, height, width).get(row, column)
}
