//! Players: they play a list of calls on a reader or a writer, and record what each of them returned.
//!
//! Their contracts say what holds over any list of calls: each call is a step that the model allows, and no byte was
//! lost or changed place from the first call to the last.
ghost use Rattle.std.specs.Prelude.{◌≡◌, ◌≤◌, ◌-◌, [], is_ok, length, slice_index_or, vec_capacity, OnErr};
ghost use Rattle.redux_buffer.specs.Block.{IsBlock};
ghost use Rattle.redux_play.specs.PlayReader.{ReaderPlays, WantsRoom, with_handed};
ghost use Rattle.redux_play.specs.declared.play.ReaderCall.TheVariants.{Read};
ghost use Rattle.redux_play.specs.PlayWriter.{WriterPlays};

mod reading;
mod record;
mod writing;

use buffer_redux::policy::{ReaderPolicy, WriterPolicy};
use buffer_redux::{BufReader, BufWriter};
use record::record;
use redux_buffer::GrowError;
use redux_buffer::tell::{TellRead, TellWrite};
use std::alloc::{AllocError, Global};
use std::io::ErrorKind;

/// A call of a buffered reader.
#[derive(Clone, Copy, Debug)]
pub enum ReaderCall {
    /// A `read` into a slice of so many bytes.
    Read(usize),
    /// A `fill_buf`.
    Fill,
    /// A `consume` of so many bytes.
    Consume(usize),
    /// A `read_into_buf`.
    ReadIntoBuf,
    /// A `make_room`.
    MakeRoom,
    /// A `reserve` of so many bytes.
    Reserve(usize),
}

/// What a call of a buffered reader returned.
#[derive(Clone, Copy, Debug)]
pub enum ReaderAnswer {
    /// The number of bytes that were read, or consumed.
    Count(usize),
    /// The number of bytes that were shown.
    Shown(usize),
    /// The call was done, and returns nothing.
    Done,
    /// The call failed by an error of this kind.
    Fault(ErrorKind),
    /// The buffer could not grow.
    Refused(GrowError),
}

/// What the calls of a reader returned, and the bytes that they handed out: those that were read or consumed, in order.
///
/// ```
/// let mut reader = BufReader::with_capacity(alloc, 4, Told::new(b"abcde".as_slice()))?;
/// let mut run = ReaderRun::new(alloc);
/// play_reader(
///     alloc,
///     &mut reader,
///     &[ReaderCall::Read(2), ReaderCall::Fill],
///     &mut run,
/// )?;
/// let answers = run.answers.as_slice();
/// assert!(rt; matches!(answers, [ReaderAnswer::Count(2), ReaderAnswer::Shown(2)]));
/// assert!(rt; run.handed.as_slice() == b"ab".as_slice());
/// ```
#[derive(Debug, Drop)]
pub struct ReaderRun {
    pub answers: Vec<ReaderAnswer>,
    pub handed: Vec<u8>,
}

impl ReaderRun {
    /// A run without a call, which takes its memory from `alloc`.
    pub fn new(alloc: Global) -> Self
        ensures answers { result.answers.items ≡ [] }
        ensures handed { result.handed.items ≡ [] }
    {
        ReaderRun {
            answers: Vec::new(alloc),
            handed: Vec::new(alloc),
        }
    }
}

/// A call of a buffered writer.
#[derive(Clone, Copy, Debug)]
pub enum WriterCall<'a> {
    /// A `write` of these bytes.
    Write(&'a [u8]),
    /// A `flush`.
    Flush,
    /// A `make_room`.
    MakeRoom,
    /// A `reserve` of so many bytes.
    Reserve(usize),
}

/// What a call of a buffered writer returned.
#[derive(Clone, Copy, Debug)]
pub enum WriterAnswer {
    /// The number of bytes that were taken in.
    Count(usize),
    /// The call was done, and returns nothing.
    Done,
    /// The call failed by an error of this kind.
    Fault(ErrorKind),
    /// The buffer could not grow.
    Refused(GrowError),
}

/// What the calls of a writer returned.
///
/// ```
/// let mut writer = BufWriter::with_capacity(alloc, 2, Told::new(Vec::new(alloc)))?;
/// let mut run = WriterRun::new(alloc);
/// play_writer(
///     &mut writer,
///     &[WriterCall::Write(b"abc"), WriterCall::Flush],
///     &mut run,
/// )?;
/// let answers = run.answers.as_slice();
/// assert!(rt; matches!(answers, [WriterAnswer::Count(3), WriterAnswer::Done]));
/// ```
#[derive(Debug, Drop)]
pub struct WriterRun {
    pub answers: Vec<WriterAnswer>,
}

impl WriterRun {
    /// A run without a call, which takes its memory from `alloc`.
    pub fn new(alloc: Global) -> Self
        ensures { result.answers.items ≡ [] }
    {
        let answers = Vec::new(alloc);
        WriterRun { answers }
    }
}

/// Plays the calls in order, and adds to `run` what each returned and the bytes that it handed out.
///
/// The room for all that a call may add, and the slice that a `Read` reads into, are made before the call is begun. Where
/// memory for that is refused, every call before is recorded whole, and the next was not begun.
///
/// Calls without a `MakeRoom` spare a plain buffer moves, as far as the policy claims to. What that means over several runs
/// is said by [`play_sparing`](crate::laws::play_sparing).
pub fn play_reader<R: TellRead, P: ReaderPolicy>(
    alloc: Global,
    reader: &mut BufReader<R, P>,
    calls: &[ReaderCall],
    run: &mut ReaderRun,
) -> Result<(), AllocError>
    ensures plays { ReaderPlays R.remaining P.rules (with_handed reader.old run.old.handed.items) calls.now run.old.answers.items
        (is_ok result) run.new.answers.items (with_handed reader.new run.new.handed.items) }
    ensures wanted { OnErr result (WantsRoom reader.new
        (slice_index_or calls.now (length run.new.answers.items - length run.old.answers.items) (Read 0))
        (vec_capacity run.old.answers) (vec_capacity run.old.handed) run.new) }
    ensures whole { IsBlock reader.new.block }
{
    let _ = reader.capacity();
    for call in calls {
        let mut out = reading::room_for(alloc, reader, *call, run)?;
        let answer = reading::step(reader, *call, out.as_mut_slice(), &mut run.handed);
        record(&mut run.answers, answer);
    }
    Ok(())
}

/// Plays the calls in order, and adds to `run` what each returned.
///
/// The room for each answer is made before the call is begun. Where memory for that is refused, every call before is
/// recorded whole, and the next was not begun.
pub fn play_writer<W: TellWrite, P: WriterPolicy>(
    writer: &mut BufWriter<W, P>,
    calls: &[WriterCall<'_>],
    run: &mut WriterRun,
) -> Result<(), AllocError>
    ensures plays { WriterPlays W.log W.trace P.rules writer.old calls.now run.old.answers.items (is_ok result)
        run.new.answers.items writer.new }
    ensures full { OnErr result (vec_capacity run.old.answers ≤ length run.new.answers.items) }
    ensures whole { IsBlock writer.new.block }
{
    let _ = writer.capacity();
    for call in calls {
        run.answers.reserve(1)?;
        record(&mut run.answers, writing::step(writer, *call));
    }
    Ok(())
}
