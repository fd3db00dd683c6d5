// The edges and examples of documents 01 and 02, run through the libraries. The cases are the lines of standard input, and what came of
// each is a line, held to the stored output.
#![tactic(auto)]

mod answer_runs;
mod build;
mod cases;
mod checker_runs;
mod engine_runs;
mod noise;
mod print;
mod problem_runs;
mod round_trips;
mod script;
mod sheet_runs;
mod verdicts;
mod writer_runs;

// A write that fails leaves the output short.
fn main(rt: HostRuntime) {
    let _ = cases::run(&rt);
}
