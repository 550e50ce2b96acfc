//! How one payload goes over.
ghost use Rattle.forward.specs.Filter.{FilterAsks, FilterFlushes, FilterPasses, FilterRules, IsLawful};

use crate::error::AskError;
use std::io;

/// A reader of payloads and a writer, and how one payload goes from the one to the other. Each call touches one side, or asks
/// for nothing.
pub trait Filter {
    /// Why what the stream gave is no payload.
    type Wrong: Drop;

    // What its states are.
    ghost rules: { FilterRules Self Self.Wrong };

    /// Moves the next payload that is there, and returns whether there was one. The stream isn't asked.
    ///
    /// An interrupted write is made again, 64 times at most for each byte that is received. The writer is given memory only for a
    /// payload that its buffer has no room for, and none where this fails. Where there is no payload, what is left was searched.
    fn pass(&mut self) -> io::Result<bool>
        requires { rules.ready self.old }
        ensures { FilterPasses rules self.old result self.new };

    /// Sends and flushes all that was taken in. The stream's own flush isn't made again where it was interrupted.
    fn flush(&mut self) -> io::Result<()>
        requires { rules.ready self.old }
        ensures { FilterFlushes rules self.old result self.new };

    /// Asks the stream until a payload is there, and returns whether one is: else there are no more. What was searched stays so
    /// where this fails.
    fn ask(&mut self) -> Result<bool, AskError<Self::Wrong>>
        requires ready { rules.ready self.old }
        requires lacks { rules.lacks self.old }
        ensures { FilterAsks rules self.old result self.new };

    // Payloads stay in order, and what is due is sent with what was taken in.
    ghost lawful: { IsLawful rules };
}
