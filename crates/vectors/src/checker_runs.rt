// The checker run on a problem and an answer, which a bar stands between.
use crate::build::Record;
use crate::print::edge;
use crate::script::Case;
use crate::verdicts::judged;
use std::io;

pub fn run(rt: &impl Print, case: Case<'_>) -> io::Result<()> {
    let (problem, answer) = case.two_marks();
    let problem = Record::read(problem);
    let answer = Record::read(answer);
    edge(rt, "checker", case)?;
    judged(rt, problem.bytes(), answer.bytes())?;
    println!(rt)
}
