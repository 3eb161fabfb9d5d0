//! Words of traces and reports.
ghost use Rattle.std.specs.Prelude.{◌≡◌, ◌≤◌, length};
ghost use Rattle.run_machine.specs.StatusWords.{status_word};

use stack_base::Status;

/// The word for how a bio, or a write, ended.
pub fn status_word(status: Status) -> &'static [u8]
    ensures word { result.now ≡ status_word status }
    ensures short { length result.now ≤ 7 }
{
    match status {
        Status::Ok => b"ok",
        Status::Io => b"io",
        Status::Medium => b"medium",
        Status::NoSpace => b"nospace",
    }
}
