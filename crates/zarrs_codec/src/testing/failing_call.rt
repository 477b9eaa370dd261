//! Which call of a handle fails, and what came of the calls.
ghost use Rattle.std.specs.Prelude.{◌≡◌, ◌+◌, ◌%◌, ◌^◌, Some};
ghost use Rattle.zarrs_chunk.specs.Answer.{is_fault};
ghost use Rattle.zarrs_codec.specs.FailingCall.{FailsInTurn, failure_due, none_made, turn_of, turn_after};
ghost use Rattle.zarrs_codec.specs.HandleCalls.{Tells};
ghost use Rattle.zarrs_codec.specs.StorageState.{count_if, last_failure};

use zarrs_chunk::{CodecError, StorageError};

/// Which of the calls to come fails, and what the calls so far have left.
#[derive(Clone, Copy)]
pub(crate) struct FailingCall {
    // How many calls there are up to the one that fails, itself among them. For 0 none fails.
    left: u32,
    code: u32,
    pub(crate) faults: u64,
    failure: Option<StorageError>,
    pub(crate) write_calls: u64,
    pub(crate) accepted_writes: u64,
}

impl FailingCall {
    /// The `n`-th call fails, with code `n`, counted from 1; none does where `n` is 0.
    pub(crate) fn new(n: u32) -> FailingCall
        ensures made { result ≡ none_made n }
    {
        FailingCall {
            left: n,
            code: n,
            faults: 0,
            failure: None,
            write_calls: 0,
            accepted_writes: 0,
        }
    }

    /// Counts a call. It is to fail where it is its turn.
    pub(crate) fn next(&mut self) -> Option<StorageError>
        ensures due { result ≡ failure_due (turn_of self.old) }
        ensures counted { self.new
            ≡ record self.old { left = (turn_after (turn_of self.old)).left } }
    {
        let due = self.left == 1;
        self.left = self.left.saturating_sub(1);
        if due {
            Some(StorageError { code: self.code })
        } else {
            None
        }
    }

    /// Counts a failure, and makes the error of it.
    pub(crate) fn fail(&mut self, failure: StorageError) -> CodecError
        ensures refusal { result ≡ CodecError.Storage failure }
        ensures counted { self.new
            ≡ record self.old { faults = (self.old.faults + 1) % 2 ^ 64; failure = Some failure } }
    {
        self.faults = self.faults.wrapping_add(1);
        self.failure = Some(failure);
        CodecError::Storage(failure)
    }

    /// Counts a writing call.
    pub(crate) fn count_write(&mut self)
        ensures counted { self.new
            ≡ record self.old { write_calls = (self.old.write_calls + 1) % 2 ^ 64 } }
    {
        self.write_calls = self.write_calls.wrapping_add(1);
    }

    /// Counts a writing call that was accepted.
    pub(crate) fn accept_write(&mut self)
        ensures counted { self.new
            ≡ record self.old { accepted_writes = (self.old.accepted_writes + 1) % 2 ^ 64 } }
    {
        self.accepted_writes = self.accepted_writes.wrapping_add(1);
    }

    /// Counts a call, which fails where it is its turn.
    pub(crate) fn pass(&mut self) -> Result<(), CodecError>
        ensures answer { Tells result tt }
        ensures in_turn { FailsInTurn result (turn_of self.old) (turn_of self.new) }
        ensures faults { self.new.faults ≡ count_if (is_fault result) self.old.faults }
        ensures failure { self.new.failure ≡ last_failure result self.old.failure }
        ensures writes_kept { self.new.write_calls ≡ self.old.write_calls }
        ensures accepted_kept { self.new.accepted_writes ≡ self.old.accepted_writes }
    {
        match self.next() {
            None => Ok(()),
            Some(failure) => Err(self.fail(failure)),
        }
    }
}
