//! Bodies of a stream: parts that needn't fit in memory. What a body is a coding says.
//!
//! A [`BodyReader`] hands out the payload of one body, and leaves what follows the body in the buffered reader.
//!
//! ```
//! let reader = BufReader::new(alloc, Told::new(b"helloGET".as_slice()))?;
//! let mut body = BodyReader::new(reader, Sized(5));
//! let mut out = [0; 8];
//! assert!(rt; matches!(body.read_payload(&mut out), Ok(5)));
//! assert!(rt; matches!(body.read_payload(&mut out), Ok(0)));
//! let rest = body.finish().map_err(|(_, e)| io::Error::from(e))?;
//! assert!(rt; rest.buffer() == b"GET".as_slice());
//! ```
#![tactic(auto)]

mod allows;
mod by_byte;
mod coding;
mod either;
mod error;
mod just_or_until;
pub mod laws;
mod progress;
mod reader;
mod sized;
mod steps;
mod until;

pub use allows::Allows;
pub use by_byte::{ByByte, ByteCoding, Turn};
pub use coding::{Coding, Look};
pub use either::{Either, Side};
pub use error::{BodyError, CollectError};
pub use just_or_until::{JustOr, JustOrUntil};
pub use reader::BodyReader;
pub use sized::Sized;
pub use until::{Part, Until};
