//! Pieces of a kind, and a length in bytes of seven bits.
ghost use Rattle.std.specs.Prelude.{◌<◌, ◌^◌};

use crate::varints::{VarintPlace, push_varint, varint_turn};
use codec::{
    ByHeader, ByScan, Decoder, End, Found, HeaderBytes, HeaderError, Items, ItemsOut, Scan,
    ScanNote, ScanStep,
};

/// Pieces of MQTT, or of a field of Protocol Buffers that has bytes in it, and a number of 15 at most: a byte of any kind, and
/// then payloads as [`Varints`](crate::Varints) have them, of at most `max` bytes. The kind is the item.
///
/// ```
/// let stream = Told::new(b"\x30\x02hi\xc0\x00".as_slice());
/// let mut reader = PieceReader::new(alloc, stream, KindVarints { max: 300 })?;
/// assert!(rt; matches!(reader.step_item(), Ok(Some((0x30, _)))));
/// assert!(rt; matches!(reader.step_item(), Ok(Some((0xc0, _)))));
/// assert!(rt; matches!(reader.step_item(), Ok(None)));
/// ```
#[derive(Clone, Copy, Debug, Drop)]
pub struct KindVarints {
    pub max: usize,
    pub ghost fits: { max < 2 ^ 28 },
}

impl Scan for KindVarints {
    ghost use Rattle.decoders.specs.Varints.{kind_varints};
    ghost use Rattle.decoders.specs.VarintsLaws.{kind_varints_small};

    type State = VarintPlace;

    ghost scanning = { λ d. kind_varints d.max };

    fn start(&self) -> VarintPlace {
        VarintPlace::Kind
    }

    #[inline(always)]
    fn turn(&self, place: VarintPlace, byte: u8) -> ScanStep<VarintPlace> {
        varint_turn(place, byte)
    }

    #[inline(always)]
    fn most_header(&self) -> usize {
        5
    }

    #[inline(always)]
    fn max(&self) -> usize {
        self.max
    }

    #[inline(always)]
    fn tail(&self) -> &[u8] {
        b""
    }

    ghost small = { λ d. kind_varints_small d.max d.fits };
}

impl Decoder for KindVarints {
    ghost use Rattle.codec.specs.Decoding.{OnMore};
    ghost use Rattle.codec.specs.HeaderFormat.{AsksPayload};
    ghost use Rattle.codec.specs.Scanning.{scan_notes, scanned};
    ghost use Rattle.decoders.specs.Varints.{kind_varints, kind_pieces};
    ghost use Rattle.decoders.specs.VarintsLaws.{kind_pieces_lawful};

    type Wrong = HeaderError;

    type Note = ScanNote<VarintPlace>;

    ghost grammar = { λ d. kind_pieces d.max };

    ghost notes = { λ d. scan_notes (kind_varints d.max) };

    ghost looks = { λ d bytes _ found. OnMore found (AsksPayload (scanned (kind_varints d.max)) bytes) };

    fn most(&self) -> usize {
        ByHeader(ByScan(*self)).most()
    }

    #[inline(always)]
    fn no_note(&self) -> ScanNote<VarintPlace> {
        ByHeader(ByScan(*self)).no_note()
    }

    #[inline(always)]
    fn decode(
        &self,
        bytes: &[u8],
        seen: usize,
        note: &mut ScanNote<VarintPlace>,
    ) -> Found<HeaderError> {
        ByHeader(ByScan(*self)).decode(bytes, seen, note)
    }

    fn at_end(&self, bytes: &[u8]) -> End<HeaderError> {
        ByHeader(ByScan(*self)).at_end(bytes)
    }

    ghost lawful = { λ d. kind_pieces_lawful d.max d.fits };
}

impl Items for KindVarints {
    ghost use Rattle.decoders.specs.Varints.{piece_kind};

    type Item = u8;

    ghost item_of = { λ _. piece_kind };

    #[inline(always)]
    fn item(&self, piece: &[u8]) -> u8 {
        match piece {
            [kind, ..] => *kind,
            [] => 0,
        }
    }
}

impl ItemsOut for KindVarints {
    ghost use Rattle.decoders.specs.Varints.{kind_headers};
    ghost use Rattle.decoders.specs.VarintsLaws.{kind_pieces_back};

    ghost headers_out = { λ d kind. kind_headers d.max kind };

    #[inline(always)]
    fn header_of(&self, kind: u8, len: usize) -> HeaderBytes {
        let mut header = HeaderBytes::new(&[kind]);
        push_varint(&mut header, len);
        header
    }

    ghost read_back = { λ d. kind_pieces_back d.max d.fits };
}
