use csv::ByteRecord;
use std::alloc::{AllocError, Global};
use std::fs;
use std::fs::File;
use std::io::Read;
use std::test::Fail;
use uses::csv_rows::rows_in;

const TEXT: &[u8] = b"\xef\xbb\xbfport,depth\r\n\"Skagen, south\",\"7 \"\"m\"\"\"\r\nBlokhus,";

const ROWS: &[u8] = b"port|depth|\nSkagen, south|7 \"m\"|\nBlokhus||\n";

// Adds each field, and then a bar.
fn add_fields(text: &mut Vec<u8>, row: &ByteRecord) -> Result<(), AllocError> {
    for field in row {
        text.extend_from_slice(field)?;
        text.push(b'|')?;
    }
    Ok(text.push(b'\n')?)
}

// Each field before a bar, and each row on a line.
fn fields_in<R: Read + Drop>(alloc: Global, from: R) -> Result<Vec<u8>, Fail> {
    let rows = rows_in(alloc, from)?;
    let mut text = Vec::new(alloc);
    for row in &rows {
        add_fields(&mut text, row)?;
    }
    Ok(text)
}

#[test]
fn reads_rows_of_a_file(rt: HostRuntime) -> Result<(), Fail> {
    let path = "reads_rows_of_a_file.csv";
    fs::write(&rt, path, TEXT)?;
    let fields = fields_in(rt.alloc(), File::open(&rt, path)?)?;
    fs::remove_file(&rt, path)?;
    assert!(rt; fields.as_slice() == ROWS);
    Ok(())
}
