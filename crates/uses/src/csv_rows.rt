//! Reads the rows of a CSV text through a buffer, by the kit's own parser.
ghost use Rattle.std.specs.Prelude.{IfOk, IfSome, map, vec_items};
ghost use Rattle.csv.specs.Reading.{AreRecords, default_config, strip_bom};
ghost use Rattle.csv.specs.Records.{fields_of};
ghost use Rattle.csv.specs.declared.parser.State.TheVariants.{StartRecord};

use buffer_redux::BufReader;
use buffer_redux::tell::Told;
use csv::{ByteRecord, Error, ReaderBuilder};
use std::alloc::Global;
use std::io::Read;

/// The rows of a stream of std, as a file, none of which is a header.
pub fn rows_in<R: Read + Drop>(alloc: Global, from: R) -> Result<Vec<ByteRecord>, Error>
    ensures { IfOk result (λ rows. IfSome (R.remaining from) (λ text.
        AreRecords default_config StartRecord (strip_bom text) (map fields_of (vec_items rows)))) }
{
    match BufReader::new(alloc, Told::new(from)) {
        Ok(reader) => read_rows(alloc, reader),
        Err(_) => Err(Error::out_of_memory()),
    }
}

/// The rows that a reader has left.
pub fn read_rows<R: Read + Drop>(alloc: Global, reader: R) -> Result<Vec<ByteRecord>, Error>
    ensures { IfOk result (λ rows. IfSome (R.remaining reader) (λ text.
        AreRecords default_config StartRecord (strip_bom text) (map fields_of (vec_items rows)))) }
{
    let parser = ReaderBuilder::new()
        .has_headers(false)
        .from_reader(alloc, reader);
    let mut rows = Vec::new(alloc);
    for row in parser.into_byte_records() {
        if rows.push(row?).is_err() {
            return Err(Error::out_of_memory());
        }
    }
    Ok(rows)
}
