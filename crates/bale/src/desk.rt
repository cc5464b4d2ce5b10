// A desk makes the calls of a direct job, and tells each with its answer and the length standing then.
use direct::fault::DirectFault;
use direct::job::DirectJob;
use direct::receipt::Receipt;
use layout::token::{Anchor, Break, Fold, Opening};
use sink::sink::Sink;
use std::io;

// The block of a container.
const CONTAINER: Opening = Opening {
    offset: 2,
    fold: Fold::All,
    anchor: Anchor::Indent,
};

// It keeps the first error of telling and goes on: a receipt may not be let go, so no call may return early by `?`.
pub(crate) struct Desk<'r, 'j, S> {
    rt: &'r HostRuntime,
    job: &'j mut DirectJob<S>,
    // how telling went: its first error, if there was one
    told: io::Result<()>,
}

impl<'r, 'j, S: Sink> Desk<'r, 'j, S> {
    pub(crate) fn new(rt: &'r HostRuntime, job: &'j mut DirectJob<S>) -> Desk<'r, 'j, S> {
        Desk {
            rt,
            job,
            told: Ok(()),
        }
    }

    // Leaves the desk, and says how telling went.
    pub(crate) fn leave(self) -> io::Result<()> {
        let Desk {
            rt: _,
            job: _,
            told,
        } = self;
        told
    }

    // Hands in a Text.
    pub(crate) fn text(&mut self, text: &str) {
        self.note(print!(self.rt; "text {text:?} -> "));
        let answer = self.job.text(text.as_bytes());
        self.tell_answer(answer);
    }

    // Hands in a Break.
    pub(crate) fn break_at(&mut self, blanks: u8, offset: i8) {
        self.note(print!(self.rt; "break {blanks} {offset} -> "));
        let answer = self.job.break_at(Break { blanks, offset });
        self.tell_answer(answer);
    }

    // Hands in the Opening of a container, and keeps its receipt.
    pub(crate) fn open_block(&mut self) -> Option<Receipt> {
        self.note(print!(self.rt; "opening 2 all indent -> "));
        match self.job.open_block(CONTAINER) {
            Ok(receipt) => {
                self.tell_answer(Ok(()));
                Some(receipt)
            }
            Err(fault) => {
                self.tell_answer(Err(fault));
                None
            }
        }
    }

    // Hands in the Ending of a container, if its Opening gave a receipt.
    pub(crate) fn end_block(&mut self, block: Option<Receipt>) {
        if let Some(receipt) = block {
            self.note(print!(self.rt; "ending -> "));
            let answer = self.job.end_block(receipt);
            self.tell_answer(answer);
        }
    }

    // Asks the two questions: for the length standing and for the fault.
    pub(crate) fn ask(&mut self) {
        let length = self.job.length();
        self.note(print!(self.rt; "length? {length}, fault? "));
        match self.job.fault() {
            None => self.note(println!(self.rt; "none")),
            Some(fault) => self.note(println!(self.rt; "{}", fault.number())),
        }
    }

    // Tells what a call answered, and the length standing after it.
    fn tell_answer(&mut self, answer: Result<(), DirectFault>) {
        let length = self.job.length();
        match answer {
            Ok(()) => self.note(println!(self.rt; "ok, {length} standing")),
            Err(fault) => {
                self.note(println!(self.rt; "refused by {fault}, {length} standing"));
            }
        }
    }

    // Keeps the first error of telling.
    fn note(&mut self, told: io::Result<()>) {
        if self.told.is_ok() {
            self.told = told;
        }
    }
}
