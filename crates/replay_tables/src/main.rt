// Replays stored tables, of the Rust in edition 1 and of a model in edition 2: `stdin` holds pictures, each a byte for the
// edition, the height, the width and the codel's width and then a colour number a pixel; `stdout` has a line for each: the
// count of regions, the map, the rows and the exits.
#![tactic(auto)]

use base::refusal::Refusal;
use std::cmp::min;
use std::io;
use std::io::Write;
use stored::{Record, area, print_first};

// How many codels a picture has; 0 for a codel of no width.
fn codel_count(height: u8, width: u8, codel: u8) -> usize {
    if codel == 0 {
        return 0;
    }
    cfg::codel_count(usize::from(height), usize::from(width), usize::from(codel))
}

// A small picture: its table, or that it is refused.
struct Picture;

impl Record<4> for Picture {
    fn size(head: &[u8; 4], _tail: &[u8]) -> usize {
        area(head[1], head[2])
    }

    fn print<W: Write>(out: &mut W, head: &[u8; 4], colours: &[u8]) -> io::Result<()> {
        let mut map = [0u32; 1024];
        let mut rows = [0u32; 5120];
        let mut exits = [0u32; 8192];
        let mut work = [0u32; 1024];
        let [edition, height, width, codel] = *head;
        let built = cfg::build(
            colours,
            usize::from(height),
            usize::from(width),
            usize::from(codel),
            stored::edition(edition),
            &mut map,
            &mut rows,
            &mut exits,
            &mut work,
        );
        match built {
            Ok(regions) => {
                let n = min(regions, 1024);
                write!(out, "{n}")?;
                print_first(out, &map, codel_count(height, width, codel))?;
                print_first(out, &rows, table::rows_room(n))?;
                print_first(out, &exits, table::exits_room(n))?;
            }
            Err(Refusal::White) => out.write_all(b"refused 9")?,
            Err(_) => out.write_all(b"refused")?,
        }
        out.write_all(b"\n")
    }
}

fn main(rt: HostRuntime) -> io::Result<()> {
    stored::replay::<Picture, 4>(&rt, rt.stdin(), rt.stdout())
}
