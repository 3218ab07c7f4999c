use crate::call::Call;
use crate::reply::Reply;
use cell::Refusal;

// What a call answered.
#[derive(Clone, Copy, Debug)]
pub enum Outcome {
    // a command that was accepted
    Replied(Reply),
    // another call that was accepted
    Done,
    Refused(Refusal),
}

// A call, and what it answered; nothing before it is replayed.
#[derive(Clone, Copy, Debug)]
pub struct Entry<'a> {
    pub call: Call<'a>,
    pub outcome: Option<Outcome>,
}
