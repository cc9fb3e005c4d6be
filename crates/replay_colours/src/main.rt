// Replays stored answers of the Rust: `stdin` holds pixels, `stdout` what the Rust answers. First the instruction for
// each of the 400 pairs of colours, a line for each colour that is left; then for each pixel its colour number under the
// settings 1, 2 and 3, `x` where the pixel is refused.
#![tactic(auto)]

use colour::decode::decode;
use std::io;
use std::io::Write;
use stored::Record;

fn print_pairs_from<W: Write>(out: &mut W, from: u8) -> io::Result<()> {
    for to in 0..20u8 {
        if to != 0 {
            out.write_all(b" ")?;
        }
        let instruction = decode(from, to);
        write!(out, "{instruction}")?;
    }
    out.write_all(b"\n")
}

fn print_colour<W: Write>(out: &mut W, pixel: &[u8], setting: u8) -> io::Result<()> {
    let mut colours = [0u8; 1];
    match colour::classify::classify(pixel, 1, 1, setting, &mut colours) {
        Ok(()) => {
            let colour = colours[0];
            write!(out, "{colour}")
        }
        Err(_) => out.write_all(b"x"),
    }
}

struct Pixel;

impl Record<3> for Pixel {
    fn begin<W: Write>(out: &mut W) -> io::Result<()> {
        for from in 0..20u8 {
            print_pairs_from(out, from)?;
        }
        Ok(())
    }

    fn size(_head: &[u8; 3], _tail: &[u8]) -> usize {
        0
    }

    fn print<W: Write>(out: &mut W, pixel: &[u8; 3], _body: &[u8]) -> io::Result<()> {
        print_colour(out, pixel, 1)?;
        out.write_all(b" ")?;
        print_colour(out, pixel, 2)?;
        out.write_all(b" ")?;
        print_colour(out, pixel, 3)?;
        out.write_all(b"\n")
    }
}

fn main(rt: HostRuntime) -> io::Result<()> {
    stored::replay::<Pixel, 3>(&rt, rt.stdin(), rt.stdout())
}
