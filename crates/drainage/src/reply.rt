// A reply as C and Rust see it, and each operation's answer turned into it.
ghost use Rattle.std.specs.Prelude.{◌≡◌, [], ◌∷◌};

use checking::CheckError;
use count::{CountError, Totals};
use mend::MendError;
use mosaic_join::JoinError;
use tile_finish::FinishError;
use tile_record::RecordError;

// The paper's number of a reply and its values, 0 where there is none.
#[repr(C)]
#[derive(Clone, Copy)]
pub struct Flat {
    pub number: u32,
    pub value0: u64,
    pub value1: u64,
    pub value2: u64,
    pub value3: u64,
    pub value4: u64,
    pub value5: u64,
}

impl Flat {
    ghost use Rattle.promise.specs.Reply.Reply.{reply};
    ghost use Rattle.drainage.specs.Flat.{flat};

    // A reply of at most three values; those that it has not are 0.
    pub fn replied(number: u32, first: u64, second: u64, third: u64) -> Self
        ensures { result ≡ flat (reply number (first ∷ second ∷ third ∷ [])) }
    {
        Flat {
            number,
            value0: first,
            value1: second,
            value2: third,
            value3: 0,
            value4: 0,
            value5: 0,
        }
    }
}

impl From<Result<Totals, CountError>> for Flat {
    ghost use Rattle.count.specs.Count.{count_reply};
    ghost use Rattle.drainage.specs.Flat.{flat};

    ghost from_gives = { λ answer r. r ≡ flat (count_reply answer) };

    fn from(answer: Result<Totals, CountError>) -> Self {
        match answer {
            Ok(
                Totals {
                    land,
                    outlets,
                    greatest,
                },
            ) => Flat::replied(0, land as u64, outlets as u64, u64::from(greatest)),
            Err(CountError::Shape) => Flat::replied(1, 0, 0, 0),
            Err(CountError::Length) => Flat::replied(2, 0, 0, 0),
            Err(CountError::Code(place)) => Flat::replied(3, place as u64, 0, 0),
            Err(CountError::Loop { place, length }) => Flat::replied(
                4,
                place as u64,
                length as u64,
                0,
            ),
        }
    }
}

impl From<Result<(), CheckError>> for Flat {
    ghost use Rattle.checking.specs.Check.{check_reply};
    ghost use Rattle.drainage.specs.Flat.{flat};

    ghost from_gives = { λ answer r. r ≡ flat (check_reply answer) };

    fn from(answer: Result<(), CheckError>) -> Self {
        match answer {
            Ok(()) => Flat::replied(0, 0, 0, 0),
            Err(CheckError::Shape) => Flat::replied(1, 0, 0, 0),
            Err(CheckError::Length) => Flat::replied(2, 0, 0, 0),
            Err(CheckError::Code(place)) => Flat::replied(3, place as u64, 0, 0),
            Err(CheckError::Count(place)) => Flat::replied(5, place as u64, 0, 0),
        }
    }
}

impl From<Result<(), MendError>> for Flat {
    ghost use Rattle.mend.specs.Reply.{mend_reply};
    ghost use Rattle.drainage.specs.Flat.{flat};

    ghost from_gives = { λ answer r. r ≡ flat (mend_reply answer) };

    fn from(answer: Result<(), MendError>) -> Self {
        match answer {
            Ok(()) => Flat::replied(0, 0, 0, 0),
            Err(MendError::Shape) => Flat::replied(1, 0, 0, 0),
            Err(MendError::Length) => Flat::replied(2, 0, 0, 0),
            Err(MendError::Code(place)) => Flat::replied(3, place as u64, 0, 0),
            Err(MendError::Loop { place, length }) => Flat::replied(
                4,
                place as u64,
                length as u64,
                0,
            ),
            Err(MendError::Count(place)) => Flat::replied(5, place as u64, 0, 0),
            Err(MendError::Place) => Flat::replied(6, 0, 0, 0),
            Err(MendError::NewCode) => Flat::replied(7, 0, 0, 0),
        }
    }
}

impl From<Result<(), RecordError>> for Flat {
    ghost use Rattle.tile_record.specs.Record.{record_reply};
    ghost use Rattle.drainage.specs.Flat.{flat};

    ghost from_gives = { λ answer r. r ≡ flat (record_reply answer) };

    fn from(answer: Result<(), RecordError>) -> Self {
        match answer {
            Ok(()) => Flat::replied(0, 0, 0, 0),
            Err(RecordError::Shape) => Flat::replied(1, 0, 0, 0),
            Err(RecordError::Length) => Flat::replied(2, 0, 0, 0),
            Err(RecordError::Code(place)) => Flat::replied(3, place as u64, 0, 0),
            Err(RecordError::Loop { place, length }) => Flat::replied(
                4,
                place as u64,
                length as u64,
                0,
            ),
            Err(RecordError::Layout) => Flat::replied(9, 0, 0, 0),
        }
    }
}

impl From<Result<(), FinishError>> for Flat {
    ghost use Rattle.tile_finish.specs.Finish.{finish_reply};
    ghost use Rattle.drainage.specs.Flat.{flat};

    ghost from_gives = { λ answer r. r ≡ flat (finish_reply answer) };

    fn from(answer: Result<(), FinishError>) -> Self {
        match answer {
            Ok(()) => Flat::replied(0, 0, 0, 0),
            Err(FinishError::Shape) => Flat::replied(1, 0, 0, 0),
            Err(FinishError::Length) => Flat::replied(2, 0, 0, 0),
            Err(FinishError::Code(place)) => Flat::replied(3, place as u64, 0, 0),
            Err(FinishError::Loop { place, length }) => Flat::replied(
                4,
                place as u64,
                length as u64,
                0,
            ),
            Err(FinishError::Incoming(border)) => Flat::replied(10, border as u64, 0, 0),
        }
    }
}

impl From<Result<(), JoinError>> for Flat {
    ghost use Rattle.mosaic_join.specs.Joining.{join_reply};
    ghost use Rattle.drainage.specs.Flat.{flat};

    ghost from_gives = { λ answer r. r ≡ flat (join_reply answer) };

    fn from(answer: Result<(), JoinError>) -> Self {
        match answer {
            Ok(()) => Flat::replied(0, 0, 0, 0),
            Err(JoinError::Length) => Flat::replied(2, 0, 0, 0),
            Err(
                JoinError::Loop {
                    tile,
                    border,
                    exits,
                },
            ) => Flat::replied(4, tile as u64, border as u64, exits as u64),
            Err(JoinError::Record(byte)) => Flat::replied(8, byte as u64, 0, 0),
            Err(JoinError::Layout(byte)) => Flat::replied(9, byte as u64, 0, 0),
        }
    }
}
