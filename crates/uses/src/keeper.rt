//! A server that keeps what it is given, and says why it can't.
use buffer_redux::BufWriter;
use buffer_redux::tell::TellWrite;
use codec::{AnswerError, Service, write_answer};
use decoders::KindVarints;

/// Why nothing of a packet is kept.
#[derive(Clone, Copy, PartialEq, Eq, Debug, Drop)]
pub enum NotKept {
    /// More bytes would be kept than may be.
    Full,
    /// Memory was refused.
    Memory,
}

/// Keeps the payload of each packet, and answers by an empty packet of the same kind.
#[derive(Drop)]
pub struct Keeper {
    /// All that is kept.
    pub kept: Vec<u8>,
    /// How many bytes may be kept.
    pub most: usize,
}

impl Service<KindVarints> for Keeper {
    ghost use Rattle.uses.specs.Keeper.{KeepsNone, KeepsPayload};

    type Failure = NotKept;

    ghost answers = { KeepsPayload };

    ghost fails = { KeepsNone };

    fn answer<W: TellWrite>(
        &mut self,
        kind: u8,
        payload: &[u8],
        writer: &mut BufWriter<W>,
    ) -> Result<bool, AnswerError<NotKept>> {
        if payload.len() > self.most.saturating_sub(self.kept.len()) {
            return Err(AnswerError::Failed(NotKept::Full));
        }
        match self.kept.extend_from_slice(payload) {
            Ok(()) => write_answer(writer, &[&[kind, 0]], true),
            Err(_) => Err(AnswerError::Failed(NotKept::Memory)),
        }
    }
}
