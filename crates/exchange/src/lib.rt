// An exchange (01, "An exchange, step by step"): a value that moves from asked to opened to closed. A call on a ticket changes it in place.
#![tactic(auto)]

ghost use Rattle.std.specs.Prelude.{◌≡◌, true, eqb};
ghost use Rattle.wire.specs.Refusals.{result_by};
ghost use Rattle.exchange.specs.Exchange.{free, is_free, asked, left_in, has_opened_length, response_holds};
ghost use Rattle.exchange.specs.Steps.{step, when_asked, when_opened, leaves, is_allowed, lengths_hold, refusal_by, accepted, answer, buffer};
ghost use Rattle.exchange.specs.Moved.{of_ticket, after};

use algorithms::{Aead, Kem};
use keylist::KeyId;
use request::Request;
use wire::bytes::overwrite;
use wire::refusal::{Reason, Refusal};

// 01's ticket: a number of its own kind. Tickets are 1, 2, 3 and on; 0 is never given.
#[repr(C)]
#[derive(Clone, Copy, Debug, PartialEq, Eq)]
pub struct Ticket(pub u64);

// The state of an exchange, as one of the numbers below. It is no enum: an exchange lies in the host's memory, and any byte may stand there.
#[repr(C)]
#[derive(Clone, Copy, Debug, PartialEq, Eq)]
pub struct Phase(pub u8);

impl Phase {
    pub const CLOSED: u8 = 0;

    pub const ASKED: u8 = 1;

    pub const OPENED: u8 = 2;
}

// A pending exchange, or a free place: the ticket is 0 there.
#[repr(C)]
#[derive(Clone, Copy, Debug, PartialEq, Eq)]
pub struct Exchange {
    pub ticket: Ticket,
    pub ciphertext_length: u32,
    pub kem: u16,
    pub kdf: u16,
    pub aead: u16,
    pub key_id: KeyId,
    pub phase: Phase,
}

// The most bytes of a plain response.
pub const LONGEST_PLAIN: u64 = 65536;

// HTTP statuses: an opening that failed, unprotected; a sealed response, outside.
pub const UNPROCESSABLE_CONTENT: u16 = 422;

pub const OK: u16 = 200;

// The kind of a call on a ticket: open result, with n where the host could open the request; respond, with the length of the
// plain response; abandon.
#[derive(Clone, Copy, Debug, PartialEq, Eq)]
pub enum Move {
    Open(u64),
    Fail,
    Respond(u64),
    Abandon,
}

impl Move {
    // The call is allowed when the exchange is asked.
    fn when_asked(self) -> bool
        ensures { result ≡ when_asked self }
    {
        matches!(self, Move::Open(_) | Move::Fail | Move::Abandon)
    }

    // The call is allowed when the exchange is opened.
    fn when_opened(self) -> bool
        ensures { result ≡ when_opened self }
    {
        matches!(self, Move::Respond(_) | Move::Abandon)
    }

    // The phase that the call leaves where it is accepted.
    fn leaves(self) -> u8
        ensures { result ≡ leaves self }
    {
        match self {
            Move::Open(_) => Phase::OPENED,
            Move::Fail | Move::Respond(_) | Move::Abandon => Phase::CLOSED,
        }
    }
}

// A response to be sealed: the outer status and the length of the encapsulated response.
#[derive(Clone, Copy, Debug, PartialEq, Eq)]
pub struct Sealed {
    pub status: u16,
    pub length: u64,
}

// The answer of an accepted call on a ticket. A failed opening has the status of the unprotected reply.
#[derive(Clone, Copy, Debug, PartialEq, Eq)]
pub enum StepAnswer {
    Opened,
    Failed(u16),
    Sealed(Sealed),
    Abandoned,
}

impl Exchange {
    // A free place.
    pub fn free() -> Self
        ensures { result ≡ free }
    {
        Exchange {
            ticket: Ticket(0),
            ciphertext_length: 0,
            kem: 0,
            kdf: 0,
            aead: 0,
            key_id: KeyId(0),
            phase: Phase(Phase::CLOSED),
        }
    }

    pub fn is_free(&self) -> bool
        ensures { result ≡ is_free self.now }
    {
        self.ticket.0 == 0
    }

    // A call on a ticket, with the bytes that it brings, as respond does, and none where the others bring none: refused where the exchange has another
    // ticket. Where it is accepted, enc and nonce are written at the front of the salt buffer. A refusal changes nothing.
    pub fn step(
        &mut self,
        ticket: Ticket,
        kind: Move,
        enc: &[u8],
        nonce: &[u8],
        salt: &mut [u8],
    ) -> Result<StepAnswer, Refusal>
        ensures answer { result ≡ answer
            (step kind enc.now nonce.now salt.old) (of_ticket ticket.0 self.old) }
        ensures next { self.new ≡ after ticket.0
            (step kind enc.now nonce.now salt.old) self.old }
        ensures buffer { salt.new ≡ buffer
            (step kind enc.now nonce.now salt.old) (of_ticket ticket.0 self.old) }
    {
        self.refusal(ticket, kind, enc.len(), nonce.len(), salt.len())?;
        overwrite(salt, 0, enc);
        overwrite(salt, enc.len(), nonce);
        let answer = self.accepted(kind, enc.len(), nonce.len());
        self.leave_in(kind.leaves());
        Ok(answer)
    }

    // The exchange of an accepted request, asked.
    pub fn asked(ticket: Ticket, request: Request) -> Self
        ensures { result ≡ asked ticket.0 request }
    {
        Exchange {
            ticket,
            ciphertext_length: request.ciphertext_length,
            kem: request.kem,
            kdf: request.kdf,
            aead: request.aead,
            key_id: request.key_id,
            phase: Phase(Phase::ASKED),
        }
    }

    // The first refusal of a call, by the lengths of what it brings.
    #[tactic(auto, unfolding(crate::specs::Steps::refusal_by))]
    fn refusal(
        &self,
        ticket: Ticket,
        kind: Move,
        enc: usize,
        nonce: usize,
        room: usize,
    ) -> Result<(), Refusal>
        ensures { result ≡ result_by (refusal_by kind enc nonce room (of_ticket ticket.0 self.now)) tt }
    {
        if !self.has(ticket) || self.is_free() {
            return Err(Refusal::from(Reason::NotPending));
        }
        if !self.allows(kind) {
            return Err(Refusal::from(Reason::StepNotAllowed));
        }
        if !self.lengths_hold(kind, enc, nonce) {
            return Err(Refusal::from(Reason::WrongLength));
        }
        if room < enc || room - enc < nonce {
            return Err(Refusal::from(Reason::NoRoom));
        }
        Ok(())
    }

    fn has(&self, ticket: Ticket) -> bool
        ensures { result ≡ eqb self.now.ticket.0 ticket.0 }
    {
        self.ticket == ticket
    }

    // The call is allowed in the exchange's state.
    fn allows(&self, kind: Move) -> bool
        ensures { result ≡ is_allowed kind self.now }
    {
        match self.phase.0 {
            Phase::ASKED => kind.when_asked(),
            Phase::OPENED => kind.when_opened(),
            _ => false,
        }
    }

    // The lengths that the call brings are those of the exchange.
    fn lengths_hold(&self, kind: Move, enc: usize, nonce: usize) -> bool
        ensures { result ≡ lengths_hold kind enc nonce self.now }
    {
        match kind {
            Move::Open(n) => self.has_opened_length(n),
            Move::Respond(plain) => self.response_holds(enc, nonce, plain),
            Move::Fail | Move::Abandon => true,
        }
    }

    // Leaves the exchange in another phase; closed, it is a free place.
    #[tactic(auto, unfolding(crate::specs::Exchange::left_in))]
    fn leave_in(&mut self, phase: u8)
        ensures { self.new ≡ left_in phase self.old }
    {
        if phase == Phase::CLOSED {
            *self = Exchange::free();
        } else {
            self.phase = Phase(phase);
        }
    }

    // What an accepted call answers. Its lengths hold, so that their sum fits.
    fn accepted(&self, kind: Move, enc: usize, nonce: usize) -> StepAnswer
        requires { lengths_hold kind enc nonce self.now ≡ true }
        ensures { result ≡ accepted kind nonce }
    {
        match kind {
            Move::Open(_) => StepAnswer::Opened,
            Move::Fail => StepAnswer::Failed(UNPROCESSABLE_CONTENT),
            Move::Respond(plain) => StepAnswer::Sealed(Sealed {
                status: OK,
                length: (nonce as u64) + plain + (Aead::TAG_LENGTH as u64),
            }),
            Move::Abandon => StepAnswer::Abandoned,
        }
    }

    // n = ciphertext length − 16
    fn has_opened_length(&self, n: u64) -> bool
        ensures { result ≡ has_opened_length n self.now }
    {
        u64::from(self.ciphertext_length).checked_sub(Aead::TAG_LENGTH as u64) == Some(n)
    }

    // The lengths of enc and nonce are those of the exchange's KEM and AEAD, and the plain response is not too long.
    fn response_holds(&self, enc: usize, nonce: usize, plain: u64) -> bool
        ensures { result ≡ response_holds enc nonce plain self.now }
    {
        Kem(self.kem).enc_length() == Some(enc)
            && Aead(self.aead).response_nonce_length() == Some(nonce)
            && plain <= LONGEST_PLAIN
    }
}
