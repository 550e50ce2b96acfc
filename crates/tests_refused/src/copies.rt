//! A run of `bufcopy` whose buffers find no memory: it calls neither stream, says so, and over the same streams copies all.
use crate::streams::{Sink, Source, empty_sink, reading, taken};
use crate::trial::{Trial, print};
use buffer_redux::tell::{TellRead, TellWrite, Told};
use copier::run::run;
use programs::Ending;
use std::alloc::Global;
use std::io;
use tests_common::kind;

static LINES: &[u8] = b"one\ntwo\n";

// A run through buffers of the usual capacity, which promises nothing.
fn runs<R: TellRead, W: TellWrite>(
    alloc: Global,
    ring: bool,
    reader: R,
    writer: W,
) -> (io::Result<u64>, R, W) {
    run(alloc, ring, 8192, reader, writer)
}

// Notes a refusal by its kind, and looks at how the program would end.
fn refused(trial: &mut Trial, answer: io::Result<u64>) {
    trial.sees(Ending::of(&answer).status() == 3, "how a refused run ends");
    if let Err(kind) = kind(answer) {
        trial.failed(kind);
    }
}

// Whether all was copied.
fn is_copied(answer: io::Result<u64>, reader: &Told<Source<'_>>, writer: &Sink) -> bool {
    kind(answer) == Ok(8) && taken(writer) == LINES && reader.get_ref().asks == 2
}

fn copies(alloc: Global, trial: &mut Trial, ring: bool) {
    let (reader, writer) = (reading(LINES), empty_sink());
    let (left, sent) = (print(&reader), print(&writer));
    let (mut answer, mut reader, mut writer) = runs(alloc, ring, reader, writer);
    if answer.is_err() {
        refused(trial, answer);
        trial.unchanged(&reader, left);
        trial.unchanged(&writer, sent);
        (answer, reader, writer) = runs(alloc, ring, reader, writer);
    }
    trial.sees(is_copied(answer, &reader, &writer), "what is copied");
}

pub fn both_kinds(alloc: Global, trial: &mut Trial) {
    copies(alloc, trial, false);
    copies(alloc, trial, true);
}
