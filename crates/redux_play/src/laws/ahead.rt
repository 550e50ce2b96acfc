//! What a reader shows under a minimum.
ghost use Rattle.std.specs.Prelude.{◌≡◌, ◌<◌, [], length, take, Ok, IfOk, IfSome, OnOk, is_ok};
ghost use Rattle.std.specs.Io.KnownBytes.{Keeps};
ghost use Rattle.buffer_redux.specs.MinBuffered.{min_read_rules};
ghost use Rattle.buffer_redux.specs.BufReader.{Fills, FillsToMinimum, ReadErrorCaused, ReadsInOrder};
ghost use Rattle.buffer_redux.specs.Remaining.{reader_remaining};

use buffer_redux::BufReader;
use buffer_redux::policy::MinBuffered;
use redux_buffer::tell::TellRead;
use std::io;
use std::io::BufRead;

/// How many bytes `fill_buf` shows under [`MinBuffered`]. An `Ok` is at least the minimum, or the source gave none when
/// it was asked in this call. It is asked no more often than bytes were missing at first, at an `Err` too, wherever the
/// bytes stand in the buffer and however few of them come at a time. Where std knows what is left, the first of those bytes
/// are shown, as many as the minimum, or all.
pub fn look_ahead<R: TellRead>(reader: &mut BufReader<R, MinBuffered>) -> io::Result<usize>
    ensures shown { IfOk result (λ n. n ≡ length reader.new.block.bytes) }
    ensures ahead { FillsToMinimum reader.old.policy.0 reader.old (is_ok result) reader.new }
    ensures in_order { ReadsInOrder reader.old [] reader.new }
    ensures caused { ReadErrorCaused min_read_rules reader.old result reader.new }
    ensures fills { Fills min_read_rules reader.old result reader.new }
    ensures first { OnOk result (IfSome (reader_remaining R.remaining min_read_rules reader.old)
        (λ xs. take reader.old.policy.0 reader.new.block.bytes ≡ take reader.old.policy.0 xs)) }
    ensures left { Keeps (reader_remaining R.remaining min_read_rules reader.old)
        (reader_remaining R.remaining min_read_rules reader.new) }
    ensures noted { reader.new.own_calls ≡ reader.old.own_calls }
{
    Ok(reader.fill_buf()?.len())
}
