// The answers as text (docs/replay.md, "Output").
use crate::names::{Code, Told};
use crate::{dtq, sem};
use access::audit::{Admissions, AuditReport};
use kernel::state::Answer;
use model::Request;
use model::dtq::QueueRequest;
use model::sem::SemaphoreRequest;
use std::fmt;

// What any call but a refer tells: `CODE word=W released=T:W`
#[derive(Clone, Copy)]
struct Replied<'a>(&'a Answer);

impl fmt::Display for Replied<'_> {
    fn fmt<W: fmt::Write>(&self, f: &mut fmt::Formatter<W>) -> fmt::Result {
        let told = Told(self.0.outcome);
        let word = self.0.word;
        let released = self.0.released;
        write!(
            f,
            "{told} word={word} released={}:{}",
            released.task, released.word
        )
    }
}

// A call's answer: its request says how it is told.
#[derive(Clone, Copy)]
pub struct Answered<'a> {
    pub request: Request,
    pub answer: &'a Answer,
}

impl fmt::Display for Answered<'_> {
    fn fmt<W: fmt::Write>(&self, f: &mut fmt::Formatter<W>) -> fmt::Result {
        match self.request {
            Request::Semaphore(_, SemaphoreRequest::Refer) => {
                write!(f, "{}", sem::Referred(self.answer))
            }
            Request::Queue(_, QueueRequest::Refer) => write!(f, "{}", dtq::Referred(self.answer)),
            Request::Semaphore(_, SemaphoreRequest::Own(_) | SemaphoreRequest::SetVector(_))
            | Request::Queue(_, QueueRequest::Own(_) | QueueRequest::SetVector(_))
            | Request::Extended(_) => write!(f, "{}", Replied(self.answer)),
        }
    }
}

// `COUNT:LOWEST`
#[derive(Clone, Copy)]
struct Admitted(Admissions);

impl fmt::Display for Admitted {
    fn fmt<W: fmt::Write>(&self, f: &mut fmt::Formatter<W>) -> fmt::Result {
        let Admissions { count, lowest } = self.0;
        write!(f, "{count}:{lowest}")
    }
}

// The four operations in the order of their patterns.
#[derive(Clone, Copy)]
pub struct Audited(pub AuditReport);

impl fmt::Display for Audited {
    fn fmt<W: fmt::Write>(&self, f: &mut fmt::Formatter<W>) -> fmt::Result {
        let report = self.0;
        let code = Code(report.code);
        let normal1 = Admitted(report.normal1);
        let normal2 = Admitted(report.normal2);
        let management = Admitted(report.management);
        let reference = Admitted(report.reference);
        write!(f, "{code} normal1={normal1} normal2={normal2}")?;
        write!(f, " management={management} reference={reference}")
    }
}
