//! Playing a case of a bare buffer.
use crate::case::{BufferCall, BufferCase};
use crate::play::{Source, Unplayed, counting, first_buffer, low_byte, source};
use crate::print;
use crate::watched::Fault;
use buffer_redux::tell::{TellRead, Told};
use buffer_redux::{Buffer, GrowError};
use redux_play::play::ReaderAnswer;
use std::alloc::{AllocError, Global};

/// Plays a case of a bare buffer, and returns the line that answers it.
pub fn plays_bare(alloc: Global, case: &BufferCase) -> Result<String, Unplayed> {
    let mut buffer = first_buffer(alloc, case.storage)?;
    let script = case.script.as_slice();
    let source = source(alloc, buffer.len(), case.source, script, Fault::NONE)?;
    let mut text = String::new(alloc);
    push_line(&mut text, alloc, case, &mut buffer, &mut Told::new(source))?;
    Ok(text)
}

fn push_line(
    text: &mut String,
    alloc: Global,
    case: &BufferCase,
    buffer: &mut Buffer,
    source: &mut Told<Source>,
) -> Result<(), AllocError> {
    let mut next = low_byte(buffer.len());
    for call in case.calls.as_slice() {
        let answer = answer(alloc, buffer, *call, source, &mut next)?;
        text.push_str(print::reader_word(alloc, answer)?.as_str())?;
        text.push_str(" ")?;
    }
    print::push_state(text, buffer, source.get_ref().notes())
}

// What a push pushes counts up, from one to the next.
fn answer<R: TellRead>(
    alloc: Global,
    buffer: &mut Buffer,
    call: BufferCall,
    source: &mut R,
    next: &mut u8,
) -> Result<ReaderAnswer, AllocError> {
    Ok(match call {
        BufferCall::ReadFrom => match buffer.read_from(source) {
            Ok(count) => ReaderAnswer::Count(count),
            Err(e) => ReaderAnswer::Fault(e.kind()),
        },
        BufferCall::Consume(n) => {
            let count = n.min(buffer.len());
            buffer.consume(n);
            ReaderAnswer::Count(count)
        }
        BufferCall::MakeRoom => {
            buffer.make_room();
            ReaderAnswer::Done
        }
        BufferCall::Reserve(n) => granted(buffer.reserve(n)),
        BufferCall::Push(n) => {
            let pushed = counting(alloc, *next, n)?;
            *next = next.wrapping_add(low_byte(n));
            granted(buffer.push_bytes(pushed.as_slice()))
        }
        BufferCall::SetLimit(limit) => granted(buffer.set_limit(limit)),
        BufferCall::Limit => ReaderAnswer::Count(buffer.limit()),
    })
}

fn granted(answer: Result<(), GrowError>) -> ReaderAnswer {
    match answer {
        Ok(()) => ReaderAnswer::Done,
        Err(e) => ReaderAnswer::Refused(e),
    }
}
