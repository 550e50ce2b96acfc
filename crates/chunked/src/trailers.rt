//! The end of a body: the last chunk and the trailers, and how it goes into a buffered writer.
ghost use Rattle.std.specs.Prelude.{◌≡◌, ◌↔◌, ◌^◌, ◌<◌, ◌≤◌, ◌++◌, length, IsTrue, MatchOption, IfOk, IfErr};
ghost use Rattle.std.specs.List.{AllByRecursion, prefix_len};
ghost use Rattle.httparse.specs.Grammar.{is_token_byte};
ghost use Rattle.buffer_redux.specs.WriteParts.{PutsIn, room};
ghost use Rattle.chunked.specs.Body.{IsField};
ghost use Rattle.chunked.specs.Chunk.{body_end};
ghost use Rattle.chunked.specs.Trailers.{CannotEnd, IsFramingName, IsTrailer, lines_of, name_in};

use crate::chunk::put;
use crate::error::TrailersError;
use buffer_redux::BufWriter;
use buffer_redux::tell::{CallLog, TellWrite};
use httparse::{is_header_name_token, is_header_value};

/// How many bytes the end of a body has where there are no trailers.
pub(crate) const BARE_END: usize = 5;

fn token_len(line: &[u8]) -> usize
    ensures { result ≡ prefix_len is_token_byte line.now }
{
    line.iter()
        .take_while(|b| is_header_name_token(**b))
        .count()
}

// The name in this line, if it is one of trailers.
fn name_of(line: &[u8]) -> Option<&[u8]>
    ensures { MatchOption result (¬ IsField line.now)
        (λ name. IsField line.now × (name.now ≡ name_in line.now)) }
{
    let len = token_len(line);
    if len > 0 && len < line.len() && line[len] == b':' && is_header_value(&line[len + 1..]) {
        Some(&line[..len])
    } else {
        None
    }
}

// Whether a line of this name says where the body ends, as none of trailers may (RFC 9110, section 6.5.1).
fn is_framing(name: &[u8]) -> bool
    ensures { IsTrue result ↔ IsFramingName name.now }
{
    name.eq_ignore_ascii_case(b"content-length") || name.eq_ignore_ascii_case(b"transfer-encoding")
}

/// How many bytes the end of a body with these trailers has, if it goes into a buffer of so many.
pub(crate) fn end_len(fields: &[&[u8]], capacity: usize) -> Result<usize, TrailersError>
    requires { capacity < 2 ^ 63 }
    ensures lines { IfOk result (λ n. AllByRecursion IsTrailer (lines_of fields.now)) }
    ensures fits { IfOk result (λ n. length (body_end (lines_of fields.now)) ≤ capacity) }
    ensures len { IfOk result (λ n. n ≡ length (body_end (lines_of fields.now))) }
    ensures cannot { IfErr result (CannotEnd 0 (lines_of fields.now) capacity) }
{
    let mut len = BARE_END;
    for (i, field) in fields.iter().enumerate() {
        let Some(name) = name_of(field) else {
            return Err(TrailersError::NoField(i));
        };
        if is_framing(name) {
            return Err(TrailersError::Framing(i));
        }
        len = len.saturating_add(field.len()).saturating_add(2);
    }
    if len > capacity {
        return Err(TrailersError::TooLong);
    }
    Ok(len)
}

/// Copies the end of a body with these trailers in, for which there is room, and notes it.
pub(crate) fn put_end<W: TellWrite>(writer: &mut BufWriter<W>, wire: &mut CallLog, fields: &[&[u8]])
    requires room { length (body_end (lines_of fields.now)) ≤ room writer.old }
    ensures wire { wire.new.log.writes.received ≡ wire.old.log.writes.received ++ body_end (lines_of fields.now) }
    ensures put { PutsIn writer.old (body_end (lines_of fields.now)) writer.new }
{
    writer.make_room();
    put(writer, wire, b"0\r\n");
    for field in fields {
        put(writer, wire, field);
        put(writer, wire, b"\r\n");
    }
    put(writer, wire, b"\r\n");
}
