//! Parts of a multipart body (RFC 2046, section 5.1.1, and RFC 7578), read one after another out of a stream.
//!
//! A part needn't fit in memory: a [`Multipart`] hands out its text as it comes, and tells its end as soon as that is there.
//!
//! ```
//! let form = b"--AaB03x\r\nContent-Type: text/plain\r\n\r\nhello\r\n--AaB03x--".as_slice();
//! let limits = Limits {
//!     head: 16384,
//!     parts: 100,
//! };
//! let reader = BufReader::new(alloc, Told::new(form))?;
//! let mut parts = Multipart::new(alloc, reader, b"AaB03x", limits).map_err(|_| io::Error::from(
//!     ErrorKind::InvalidInput,
//! ))?;
//! assert!(rt; matches!(parts.next_part(), Ok(true)));
//! assert!(rt; field(parts.head(), b"content-type") == Some(b"text/plain".as_slice()));
//! let mut text = [0; 8];
//! assert!(rt; matches!(parts.read(&mut text), Ok(5)));
//! assert!(rt; matches!(parts.next_part(), Ok(false)));
//! ```
#![tactic(auto)]

mod error;
mod head;
mod reader;

pub use error::{NewError, PartError};
pub use part_fields::{field, parameter};
pub use reader::{Limits, Multipart, Stand, is_boundary};
