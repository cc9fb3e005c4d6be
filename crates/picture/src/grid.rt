// A picture as the grid of its codels: the pixels' colours with the shape that belongs to them.
ghost use Rattle.std.specs.Prelude.{◌≡◌};
ghost use Rattle.picture.specs.Picture.{Frames, Inside, colour_at};

use crate::read_pixel;
use crate::shape::Shape;

#[derive(Clone, Copy)]
pub struct CodelGrid<'a> {
    pub colours: &'a [u8],
    pub shape: Shape,
    pub ghost framed: { Frames colours.now shape },
}

impl<'a> CodelGrid<'a> {
    ghost use Rattle.picture.specs.Codels.{picture_in};

    // The colour of a codel of the grid: that of its top left pixel.
    pub fn colour_at(self, row: usize, col: usize) -> u8
        requires { Inside (picture_in self) row col }
        ensures { result ≡ colour_at (picture_in self.entry) row col }
    {
        let s = self.shape;
        let height = s.height as u32;
        let width = s.width as u32;
        let y = (row * s.codel) as u32;
        let x = (col * s.codel) as u32;
        // outside counts as black; a codel of the grid is never outside
        read_pixel(self.colours, height, width, y, x).unwrap_or(18)
    }
}
