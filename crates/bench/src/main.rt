//! One case of the benchmark: `bench SHAPE KIND CAPACITY PIECE TOTAL TURNS`, the first three numbers in bytes. It goes over the
//! same bytes so many times, and prints how many went over in one. Without words it runs each case on a few bytes and prints
//! what went over in each.
#![tactic(auto)]

mod bodies;
mod calls;
mod cases;
mod frames;
mod heads;
mod lines;
mod makers;
mod parts;
mod streams;
mod whole;

use crate::bodies::chunked_body;
use crate::cases::{Case, Kind, SHAPES, Shape, measured};
use crate::frames::framed;
use crate::heads::heads_text;
use crate::lines::text;
use crate::parts::form;
use std::alloc::{AllocError, Global};
use std::io;
use std::io::ErrorKind;

// Bytes that no compiler foresees.
fn noise(alloc: Global, total: usize) -> Result<Vec<u8>, AllocError> {
    let mut bytes = Vec::with_capacity(alloc, total)?;
    let mut state = 1u32;
    for _ in 0..total {
        state = state.wrapping_mul(1103515245).wrapping_add(12345);
        bytes.push(((state >> 16) & 255) as u8)?;
    }
    Ok(bytes)
}

// One case on so many bytes, again and again.
fn run(alloc: Global, case: &Case, total: usize, turns: usize) -> io::Result<u64> {
    let bytes = match case.shape {
        Shape::Next | Shape::NextTrimmed => text(alloc, case.capacity, total)?,
        Shape::Frames => framed(alloc, case.piece, total)?,
        Shape::Heads => heads_text(alloc, case.capacity, total)?,
        Shape::Bodies => chunked_body(alloc, case.piece, total)?,
        Shape::ReadParts | Shape::FillParts => {
            form(alloc, case.piece, noise(alloc, total)?.as_slice())?
        }
        Shape::Lines => text(alloc, case.piece, total)?,
        Shape::Call(call) if call.takes_lines() => text(alloc, case.piece, total)?,
        _ => noise(alloc, total)?,
    };
    let mut over = 0;
    for _ in 0..turns {
        over = measured(alloc, case, bytes.as_slice())?;
    }
    Ok(over)
}

// The case that these words ask for, on how many bytes, and how often.
fn asked(words: &[String]) -> Option<(Case, usize, usize)> {
    let [shape, kind, capacity, piece, total, turns] = words else {
        return None;
    };
    let case = Case {
        shape: Shape::named(shape.as_str())?,
        kind: Kind::named(kind.as_str())?,
        capacity: capacity.parse().ok()?,
        piece: piece.parse().ok()?,
    };
    Some((case, total.parse().ok()?, turns.parse().ok()?))
}

// A shape over each kind, on few bytes.
fn run_kinds(rt: &HostRuntime, shape: Shape, capacity: usize, piece: usize) -> io::Result<()> {
    for &kind in &[Kind::Plain, Kind::Ring, Kind::Std] {
        let case = Case {
            shape,
            kind,
            capacity,
            piece,
        };
        let over = run(rt.alloc(), &case, 40000, 1)?;
        print!(rt; " {over}")?;
    }
    println!(rt; "")
}

// Each case once.
fn run_all(rt: &HostRuntime) -> io::Result<()> {
    for &(name, shape, capacity, piece) in &SHAPES {
        print!(rt; "{name}")?;
        run_kinds(rt, shape, capacity, piece)?;
    }
    Ok(())
}

// The case that these words ask for.
fn run_asked(rt: &HostRuntime, words: &[String]) -> io::Result<()> {
    let Some((case, total, turns)) = asked(words) else {
        return Err(io::Error::from(ErrorKind::InvalidInput));
    };
    let over = run(rt.alloc(), &case, total, turns)?;
    println!(rt; "{over}")
}

fn main(rt: HostRuntime) -> io::Result<()> {
    let words: Vec<String> = std::env::args(&rt)?.skip(1).collect(rt.alloc())?;
    if words.is_empty() {
        run_all(&rt)
    } else {
        run_asked(&rt, words.as_slice())
    }
}
