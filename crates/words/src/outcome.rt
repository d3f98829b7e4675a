// An answer in words: document 01's number and its values, for every module alike and for callers in other languages.
ghost use Rattle.std.specs.Prelude.{◌≡◌, [], ◌∷◌};
ghost use Rattle.words.specs.Answer.{accepted, more, refused, refuse};
ghost use Rattle.words.specs.Paper.{no_room_values, Tells, NumbersRoom};

// The kinds of an outcome.
pub const ACCEPTED: u64 = 0;

pub const MORE: u64 = 1;

pub const REFUSED: u64 = 2;

#[repr(C)]
#[derive(Clone, Copy)]
pub struct Outcome {
    // 0 accepted, 1 need-more, 2 refused
    pub kind: u64,
    // document 01's number of a refusal, else 0
    pub number: u64,
    // bytes consumed or written
    pub count: u64,
    // the answer's values in document 01's order, 0 where there are fewer
    pub v0: u64,
    pub v1: u64,
    pub v2: u64,
    pub v3: u64,
    pub v4: u64,
    pub v5: u64,
    pub v6: u64,
}

// What 17 says ran short.
#[derive(Clone, Copy)]
pub enum Room {
    Parts,
    Rows,
    Values,
    Output,
    Items,
    Errors,
    Attributes,
}

// 17: what ran short, how much of it is needed and how much was lent: whole entries, or bytes of an output.
#[derive(Clone, Copy)]
pub struct NoRoom {
    pub room: Room,
    pub needed: u64,
    pub given: u64,
}

// Accepted, with so many bytes and up to three fields.
pub fn taken(count: u64, v0: u64, v1: u64, v2: u64) -> Outcome
    ensures { Tells (accepted count (v0 ∷ v1 ∷ v2 ∷ [])) result }
{
    Outcome {
        kind: ACCEPTED,
        number: 0,
        count,
        v0,
        v1,
        v2,
        v3: 0,
        v4: 0,
        v5: 0,
        v6: 0,
    }
}

// Need-more.
pub fn unfinished() -> Outcome
    ensures { Tells more result }
{
    Outcome {
        kind: MORE,
        number: 0,
        count: 0,
        v0: 0,
        v1: 0,
        v2: 0,
        v3: 0,
        v4: 0,
        v5: 0,
        v6: 0,
    }
}

// A refusal by its number, with the bytes consumed and up to three values.
pub fn refusal(number: u64, consumed: u64, v0: u64, v1: u64, v2: u64) -> Outcome
    ensures { Tells (refused number (v0 ∷ v1 ∷ v2 ∷ []) consumed) result }
{
    Outcome {
        kind: REFUSED,
        number,
        count: consumed,
        v0,
        v1,
        v2,
        v3: 0,
        v4: 0,
        v5: 0,
        v6: 0,
    }
}

// Document 01's number for what ran short.
pub fn room_number(room: Room) -> u64
    ensures { NumbersRoom room result }
{
    match room {
        Room::Parts => 1,
        Room::Rows => 2,
        Room::Values => 3,
        Room::Output => 4,
        Room::Items => 5,
        Room::Errors => 6,
        Room::Attributes => 7,
    }
}

// 17 as an outcome.
pub fn no_room(short: NoRoom) -> Outcome
    ensures { Tells (refuse 17 (no_room_values short)) result }
{
    let room = short.room;
    refusal(17, 0, room_number(room), short.needed, short.given)
}
