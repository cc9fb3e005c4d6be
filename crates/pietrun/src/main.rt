// The run program: a job on standard input, its answer on standard output.
#![tactic(auto)]

ghost use Rattle.answer.proofs.Answering.{answer_within};
ghost use Rattle.answer.proofs.Cutting.{cut_printed};
ghost use Rattle.answer.specs.Answer.{Outcome};

use std::process::ExitCode;
use stream::program::{Program, run};

struct Answer;

impl Program for Answer {
    ghost Outcome = { Outcome };

    fn say(job: &[u8], out: &mut [u8]) -> usize {
        answer::answer(job, out)
    }

    ghost within = { λ job before r after. answer_within };

    ghost cut = { λ job before r after. cut_printed job };
}

// The room of the longest text.
const ROOM: usize = 16384;

fn main(rt: HostRuntime) -> ExitCode {
    run::<Answer, _, _, ROOM>(&rt, "pietrun", rt.stdin(), rt.stdout())
}
