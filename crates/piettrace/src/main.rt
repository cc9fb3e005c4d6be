// The trace program: a job on standard input, the moves of its run and its end on standard output.
#![tactic(auto)]

ghost use Rattle.answer.proofs.Answering.{answer_within};
ghost use Rattle.answer.proofs.Cutting.{cut_printed};
ghost use Rattle.trace.specs.Trace.{Outcome};

use std::process::ExitCode;
use stream::program::{Program, run};

struct Trace;

impl Program for Trace {
    ghost Outcome = { Outcome };

    fn say(job: &[u8], out: &mut [u8]) -> usize {
        trace::trace(job, out)
    }

    ghost within = { λ job before r after. answer_within };

    ghost cut = { λ job before r after. cut_printed job };
}

// The room of the longest text (rule 18.4).
const ROOM: usize = 524288;

fn main(rt: HostRuntime) -> ExitCode {
    run::<Trace, _, _, ROOM>(&rt, "piettrace", rt.stdin(), rt.stdout())
}
