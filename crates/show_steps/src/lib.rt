// What the programs print of the answers that hold steps, each with a line end. No contract can say what is written, so
// these have none beyond safety; stored output holds them.
#![tactic(auto)]

use flash::Step;
use loader::Answer;
use refusal::Refusal;
use std::{fmt, io};

// The step that is due, or FINISHED.
#[derive(Clone, Copy)]
struct Due(Option<Step>);

impl fmt::Display for Due {
    fn fmt<W: fmt::Write>(&self, f: &mut fmt::Formatter<W>) -> fmt::Result {
        match self.0 {
            Some(step) => write!(f, "{step}"),
            None => write!(f, "FINISHED"),
        }
    }
}

// A step, with LAST before the last one, or BOOT and the number that UPDATE was passed over for.
#[derive(Clone, Copy)]
struct Next(Answer);

impl fmt::Display for Next {
    fn fmt<W: fmt::Write>(&self, f: &mut fmt::Formatter<W>) -> fmt::Result {
        match self.0 {
            Answer::Step(step) => write!(f, "{step}"),
            Answer::LastStep(step) => write!(f, "LAST {step}"),
            Answer::Boot(why) => write!(f, "BOOT {}", why.map_or(0, Refusal::number)),
        }
    }
}

pub fn work(rt: &impl Print, work: Result<Option<Step>, Refusal>) -> io::Result<()> {
    show::answer(rt, work.map(Due))
}

pub fn answer(rt: &impl Print, answer: Result<Answer, Refusal>) -> io::Result<()> {
    show::answer(rt, answer.map(Next))
}
