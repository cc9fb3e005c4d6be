// The shade program: a job on standard input, and how often each codel's block was entered on standard output.
#![tactic(auto)]

ghost use Rattle.answer.proofs.Answering.{answer_within};
ghost use Rattle.answer.proofs.Cutting.{cut_printed};
ghost use Rattle.shade.specs.Shade.{Outcome};

use std::process::ExitCode;
use stream::program::{Program, run};

struct Shade;

impl Program for Shade {
    ghost Outcome = { Outcome };

    fn say(job: &[u8], out: &mut [u8]) -> usize {
        shade::shade(job, out)
    }

    ghost within = { λ job before r after. answer_within };

    ghost cut = { λ job before r after. cut_printed job };
}

// The room of the longest text.
const ROOM: usize = 16384;

fn main(rt: HostRuntime) -> ExitCode {
    run::<Shade, _, _, ROOM>(&rt, "pietshade", rt.stdin(), rt.stdout())
}
