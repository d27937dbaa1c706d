// Why a mending is refused.
use checking::CheckError;

// The sheet that is lent may be wrong, as checking says; the place may be none of the sheet, and the new code a bad one; or the change would
// close a loop.
#[derive(Clone, Copy, PartialEq, Eq, Debug)]
pub enum MendError {
    Shape,
    Length,
    Code(usize),
    Count(usize),
    Place,
    NewCode,
    Loop { place: usize, length: usize },
}

// What checking refuses, mending refuses with the same reply.
impl From<CheckError> for MendError {
    ghost use Rattle.std.specs.Prelude.{◌≡◌, Err};
    ghost use Rattle.checking.specs.Check.{check_reply};
    ghost use Rattle.mend.specs.Reply.{mend_reply};

    ghost from_gives = { λ refusal error. mend_reply (Err error) ≡ check_reply (Err refusal) };

    fn from(refusal: CheckError) -> Self {
        match refusal {
            CheckError::Shape => MendError::Shape,
            CheckError::Length => MendError::Length,
            CheckError::Code(place) => MendError::Code(place),
            CheckError::Count(place) => MendError::Count(place),
        }
    }
}
