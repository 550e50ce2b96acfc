//! Callers that know what a stream of std has left or holds. Their contracts need no proof of their own.
ghost use Rattle.std.specs.Prelude.{◌≡◌, ◌-◌, ◌<◌, ◌≤◌, ◌++◌, Some, OnOk, IfOk, drop, length, vec_items, string_bytes};
ghost use Rattle.std.specs.Io.BufRead.{take_through};
ghost use Rattle.std.specs.Io.Cursor.{cursor_position, cursor_inner};
ghost use Rattle.buffer_redux.specs.Told.{told_stream};
ghost use Rattle.buffer_redux.specs.Copy.{ReceivesAll};
ghost use Rattle.buffer_redux.specs.WriterTells.{writer_log};

use buffer_redux::tell::Told;
use buffer_redux::{BufReader, BufWriter, GrowError, Unbuffer};
use redux_play::laws;
use std::alloc::Global;
use std::io;
use std::io::{Cursor, Read, Seek};
use std::test::Fail;
use tests_common::{kind, reader, writer};

type Bytes<'a> = BufReader<Told<&'a [u8]>>;

type Text<'a> = BufReader<Told<Cursor<&'a [u8]>>>;

type Collector = BufWriter<Told<Vec<u8>>>;

// All that is left: what is buffered, and then the slice.
fn read_rest(reader: &mut Bytes<'_>, into: &mut Vec<u8>) -> io::Result<usize>
    ensures { 0 < reader.old.block.capacity → OnOk result (vec_items into.new
        ≡ vec_items into.old ++ (reader.old.block.bytes ++ (told_stream reader.old.inner).now)) }
{
    reader.read_to_end(into)
}

// The same of a reader that gave its buffer up.
fn read_unbuffered(reader: &mut Unbuffer<Told<&[u8]>>, into: &mut Vec<u8>) -> io::Result<usize>
    ensures { OnOk result (vec_items into.new
        ≡ vec_items into.old ++ (reader.old.left ++ (told_stream reader.old.inner).now)) }
{
    reader.read_to_end(into)
}

// The next line of a text with its line feed, and what is left behind it.
fn next_line(reader: &mut Text<'_>, line: &mut String) -> io::Result<usize>
    ensures text { 0 < reader.old.block.capacity → OnOk result (string_bytes line.new
        ≡ string_bytes line.old ++ take_through 10 (reader.old.block.bytes
        ++ drop (cursor_position (told_stream reader.old.inner)) (cursor_inner (told_stream reader.old.inner)).now)) }
{
    reader.read_line(line)
}

// After the flush the `Vec` is what it was, then what was buffered.
fn settle(writer: &mut Collector) -> io::Result<()>
    ensures { OnOk result (vec_items (told_stream writer.new.inner)
        ≡ vec_items (told_stream writer.old.inner) ++ writer.old.block.bytes) }
{
    laws::flush_known(writer)
}

// Of a copy at Ok: what was buffered, and then the slice, went over, unless the writer once took nothing.
fn copy_rest(reader: &mut Bytes<'_>, writer: &mut Collector) -> io::Result<u64>
    ensures { 0 < reader.old.block.capacity → OnOk result (ReceivesAll
        (Some (reader.old.block.bytes ++ (told_stream reader.old.inner).now))
        (writer_log writer.old).writes (writer_log writer.new).writes) }
{
    laws::copy_known(reader, writer)
}

// Where the reader stands: the cursor is ahead of it by what is buffered.
fn place(reader: &mut Text<'_>) -> io::Result<u64>
    ensures { IfOk result (λ at. length reader.old.block.bytes ≤ cursor_position (told_stream reader.old.inner)
        → at ≡ cursor_position (told_stream reader.old.inner) - length reader.old.block.bytes) }
{
    reader.stream_position()
}

// A line, and where the reader stands behind it.
fn stands_behind(reader: &mut Text<'_>, line: &mut String) -> io::Result<u64> {
    next_line(reader, line)?;
    place(reader)
}

#[test]
fn a_line_of_a_cursor(rt: HostRuntime) -> Result<(), Fail> {
    let text = Told::new(Cursor::new(b"first\n\nlast".as_slice()));
    let mut reader = reader(rt.alloc(), 4, &[], text)?;
    let mut line = String::new(rt.alloc());
    assert!(rt; kind(stands_behind(&mut reader, &mut line)) == Ok(6) && line.as_str() == "first\n");
    Ok(drop(reader))
}

const ALL: &'static [u8] = b"ab\nthe rest";

// One byte that is buffered, and a source behind it.
fn begun(alloc: Global) -> Result<Bytes<'static>, GrowError> {
    reader(alloc, 4, b"a", Told::new(b"b\nthe rest".as_slice()))
}

#[test]
fn all_that_is_left(rt: HostRuntime) -> Result<(), Fail> {
    let mut all = Vec::new(rt.alloc());
    read_rest(&mut begun(rt.alloc())?, &mut all)?;
    read_unbuffered(&mut begun(rt.alloc())?.unbuffer(), &mut all)?;
    assert!(rt; all.as_slice() == b"ab\nthe restab\nthe rest".as_slice());
    Ok(())
}

// How many bytes were copied. Then they are flushed.
fn copies(reader: &mut Bytes<'_>, writer: &mut Collector) -> io::Result<u64> {
    let count = copy_rest(reader, writer)?;
    settle(writer)?;
    Ok(count)
}

#[test]
fn a_copy_of_all_that_is_left(rt: HostRuntime) -> Result<(), Fail> {
    let mut writer = writer(rt.alloc(), 4, &[], Told::new(Vec::new(rt.alloc())))?;
    let count = kind(copies(&mut begun(rt.alloc())?, &mut writer));
    let collected = writer.get_ref().get_ref().as_slice() == ALL;
    assert!(rt; count == Ok(11) && collected);
    Ok(drop(writer))
}
