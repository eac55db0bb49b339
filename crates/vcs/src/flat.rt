// Flat answers, a number for each case of an answer, as C has them; and which call a flat call is.
// Each flat struct has the members of its struct in include/vcs.h, in that order. For C, numbers stand there for what is a variant, an
// Option or a bool elsewhere: `refusal` (0: accepted), `ended` and `end`, `gap`, `string` and `media`, and the `kind` of a call.
ghost use Rattle.std.specs.Prelude.{◌≡◌};
ghost use Rattle.vcs.specs.Flat.{reason_of, flat_loaded, state_of, flat_state, flat_passed, flat_entry, flat_placed, flat_owned, flat_answer, flat_taken, call_of};

use descriptor::Located;
use reader::Taking;
use rules::{Answer, Call, Field, Loaded, Owned, Passed, Placed, Refusal, State};

// A refusal: its number, and the entry (1 to 7, 16) or the lane (13, 14) that it names, else 0.
#[derive(Clone, Copy)]
pub struct Reason {
    pub number: usize,
    pub at: usize,
}

// vcs_loaded
#[repr(C)]
#[derive(Clone, Copy, Default)]
pub struct FlatLoaded {
    pub refusal: usize,
    pub at: usize,
    pub rw_count: usize,
    pub ro_count: usize,
    pub staged: usize,
    pub active: usize,
}

// vcs_state
#[repr(C)]
#[derive(Clone, Copy, Default)]
pub struct FlatState {
    pub string: u8,
    pub media: u8,
    pub entries: u8,
    pub before: u8,
    pub sum: u16,
    pub staged: u16,
}

// vcs_passed
#[repr(C)]
#[derive(Clone, Copy, Default)]
pub struct FlatPassed {
    pub refusal: usize,
    pub at: usize,
    pub ended: usize,
    pub length: usize,
    pub state: FlatState,
}

// vcs_located
#[repr(C)]
#[derive(Clone, Copy, Default)]
pub struct FlatEntry {
    pub refusal: usize,
    pub at: usize,
    pub string: usize,
    pub start: usize,
    pub length: usize,
    pub offset: usize,
}

// vcs_placed
#[repr(C)]
#[derive(Clone, Copy, Default)]
pub struct FlatPlaced {
    pub refusal: usize,
    pub at: usize,
    pub offset: usize,
    pub page: usize,
    pub byte: usize,
    pub bit: usize,
}

// vcs_owned
#[repr(C)]
#[derive(Clone, Copy, Default)]
pub struct FlatOwned {
    pub refusal: usize,
    pub at: usize,
    pub gap: usize,
    pub entry: usize,
    pub part: usize,
    pub lane: usize,
    pub looked: usize,
}

// vcs_answer
#[repr(C)]
#[derive(Clone, Copy, Default)]
pub struct FlatAnswer {
    pub refusal: usize,
    pub at: usize,
    pub number: i64,
}

// vcs_taken
#[repr(C)]
#[derive(Clone, Copy, Default)]
pub struct FlatTaken {
    pub refusal: usize,
    pub end: usize,
    pub start: usize,
    pub length: usize,
    pub position: usize,
}

// vcs_call
#[repr(C)]
#[derive(Clone, Copy)]
pub struct FlatCall {
    pub kind: usize,
    pub set: usize,
    pub entry: usize,
    pub part: usize,
    pub lane: usize,
    pub offset: usize,
    pub app: usize,
    pub value: i64,
    pub byte: u8,
    pub lanes: u8,
}

impl From<Refusal> for Reason {
    ghost from_gives = { λ x y. y ≡ reason_of x };

    fn from(r: Refusal) -> Reason {
        let at = match r {
            Refusal::Plain(_) => 0,
            Refusal::AtEntry(_, entry) => entry,
            Refusal::AtLane(_, lane) => lane,
        };
        Reason {
            number: r.number(),
            at,
        }
    }
}

// The flat answer of a refusal: its number and what it names, and all other members 0. A macro, since six structs of C have these two
// members: a generic function needs of each an `impl From<Refusal>`, or one of a trait, which is longer than the arm it saves.
macro_rules! refused {
    ($flat:ident, $refusal:expr) => {{
        let why = Reason::from($refusal);
        $flat {
            refusal: why.number,
            at: why.at,
            ..$flat::default()
        }
    }};
}

impl From<Result<Loaded, Refusal>> for FlatLoaded {
    ghost from_gives = { λ x y. y ≡ flat_loaded x };

    fn from(answer: Result<Loaded, Refusal>) -> FlatLoaded {
        match answer {
            Ok(l) => FlatLoaded {
                rw_count: l.rw_count,
                ro_count: l.ro_count,
                staged: l.staged_length,
                active: l.active_length,
                ..FlatLoaded::default()
            },
            Err(r) => refused!(FlatLoaded, r),
        }
    }
}

// A flag is any number but 0, and is given as 1.
impl From<FlatState> for State {
    ghost from_gives = { λ x y. y ≡ state_of x };

    fn from(f: FlatState) -> State {
        State {
            ro: 0 < f.string,
            media: 0 < f.media,
            entries: f.entries,
            before: f.before,
            sum: f.sum,
            staged: f.staged,
        }
    }
}

impl From<State> for FlatState {
    ghost from_gives = { λ x y. y ≡ flat_state x };

    fn from(st: State) -> FlatState {
        FlatState {
            string: st.ro as u8,
            media: st.media as u8,
            entries: st.entries,
            before: st.before,
            sum: st.sum,
            staged: st.staged,
        }
    }
}

impl From<Result<Option<Passed>, Refusal>> for FlatPassed {
    ghost from_gives = { λ x y. y ≡ flat_passed x };

    fn from(answer: Result<Option<Passed>, Refusal>) -> FlatPassed {
        match answer {
            Ok(Some(passed)) => FlatPassed {
                length: passed.length,
                state: FlatState::from(passed.state),
                ..FlatPassed::default()
            },
            Ok(None) => FlatPassed {
                ended: 1,
                ..FlatPassed::default()
            },
            Err(r) => refused!(FlatPassed, r),
        }
    }
}

impl From<Result<Located, Refusal>> for FlatEntry {
    ghost from_gives = { λ x y. y ≡ flat_entry x };

    fn from(answer: Result<Located, Refusal>) -> FlatEntry {
        match answer {
            Ok(found) => FlatEntry {
                string: found.ro as usize,
                start: found.mark.at,
                length: found.length,
                offset: found.mark.sum,
                ..FlatEntry::default()
            },
            Err(r) => refused!(FlatEntry, r),
        }
    }
}

impl From<Result<Placed, Refusal>> for FlatPlaced {
    ghost from_gives = { λ x y. y ≡ flat_placed x };

    fn from(answer: Result<Placed, Refusal>) -> FlatPlaced {
        match answer {
            Ok(placed) => FlatPlaced {
                offset: placed.offset,
                page: placed.page,
                byte: placed.byte,
                bit: placed.bit,
                ..FlatPlaced::default()
            },
            Err(r) => refused!(FlatPlaced, r),
        }
    }
}

impl From<Result<Owned, Refusal>> for FlatOwned {
    ghost from_gives = { λ x y. y ≡ flat_owned x };

    fn from(answer: Result<Owned, Refusal>) -> FlatOwned {
        match answer {
            Ok(owned) => match owned.field {
                Some(field) => FlatOwned {
                    entry: field.entry,
                    part: field.part,
                    lane: field.lane,
                    looked: owned.looked,
                    ..FlatOwned::default()
                },
                None => FlatOwned {
                    gap: 1,
                    looked: owned.looked,
                    ..FlatOwned::default()
                },
            },
            Err(r) => refused!(FlatOwned, r),
        }
    }
}

impl From<Result<Answer, Refusal>> for FlatAnswer {
    ghost from_gives = { λ x y. y ≡ flat_answer x };

    fn from(answer: Result<Answer, Refusal>) -> FlatAnswer {
        match answer {
            Ok(Answer::Number(number)) => FlatAnswer {
                number,
                ..FlatAnswer::default()
            },
            Ok(Answer::Yes) => FlatAnswer::default(),
            Err(r) => refused!(FlatAnswer, r),
        }
    }
}

impl From<Taking> for FlatTaken {
    ghost from_gives = { λ x y. y ≡ flat_taken x.taken x.at };

    fn from(taking: Taking) -> FlatTaken {
        let position = taking.at;
        match taking.taken {
            Ok(Some(entry)) => FlatTaken {
                start: entry.start,
                length: entry.length,
                position,
                ..FlatTaken::default()
            },
            Ok(None) => FlatTaken {
                end: 1,
                position,
                ..FlatTaken::default()
            },
            Err(r) => FlatTaken {
                refusal: Reason::from(r).number,
                position,
                ..FlatTaken::default()
            },
        }
    }
}

// A call by its kind. From and not TryFrom, as the C interface has it: a kind above 6 is apply on set 3, a set that doesn't exist, and
// so is refused with 10, after 9, 8, 16 and 1 to 7, which only the call itself finds.
impl From<FlatCall> for Call {
    ghost from_gives = { λ x y. y ≡ call_of x };

    #[tactic(auto, unfolding(crate::specs::Flat::call_of))]
    fn from(c: FlatCall) -> Call {
        let field = Field {
            entry: c.entry,
            part: c.part,
            lane: c.lane,
        };
        match c.kind {
            0 => Call::Select {
                set: c.set,
                lane: c.lane,
                app: c.app,
            },
            1 => Call::Write {
                set: c.set,
                field,
                value: c.value,
            },
            2 => Call::Read { set: c.set, field },
            3 => Call::ByteWrite {
                set: c.set,
                offset: c.offset,
                byte: c.byte,
            },
            4 => Call::ByteRead {
                set: c.set,
                offset: c.offset,
            },
            5 => Call::Publish {
                field,
                value: c.value,
            },
            6 => Call::Apply {
                set: c.set,
                lanes: c.lanes,
            },
            _ => Call::Apply { set: 3, lanes: 0 },
        }
    }
}
