// The results of the six calls on a gateway; setup's is an outcome and a number.
ghost use Rattle.std.specs.Prelude.{◌≡◌};
ghost use Rattle.gateway.specs.Calls.{of_admit, of_retire, of_report};
ghost use Rattle.results.specs.Calls.{accepted_step, outcome_of, refused_admit, problem_type, admit_result, report_result};

use crate::outcome::{NumberResult, Outcome};
use exchange::StepAnswer;
use gateway::Report;
use gateway::admission::{Admission, AdmitRefusal};
use keylist::check::MOST_CONFIGURATIONS;
use keys::KeyReport;
use wire::refusal::Refusal;

// An admission: its ticket, where its parts start and end in the request, its pair and its key.
#[repr(C)]
#[derive(Clone, Copy, Default)]
pub struct AdmitResult {
    pub outcome: Outcome,
    pub ticket: u64,
    pub enc_start: usize,
    pub enc_end: usize,
    pub ciphertext_start: usize,
    pub ciphertext_end: usize,
    pub kdf: u16,
    pub aead: u16,
    pub key_id: u8,
}

// Last ticket, number pending, and the keys in list order, first in `keys`.
#[repr(C)]
#[derive(Clone, Copy)]
pub struct ReportResult {
    pub outcome: Outcome,
    pub last_ticket: u64,
    pub pending: usize,
    pub key_count: usize,
    pub keys: [KeyReport; MOST_CONFIGURATIONS],
}

impl From<Result<Admission, AdmitRefusal>> for AdmitResult {
    ghost from_gives = { λ answer result. result ≡ admit_result (of_admit answer) };

    fn from(answer: Result<Admission, AdmitRefusal>) -> AdmitResult {
        match answer {
            Ok(admission) => AdmitResult {
                outcome: Outcome::sends(0),
                ticket: admission.ticket.0,
                enc_start: admission.enc_start,
                enc_end: admission.enc_end,
                ciphertext_start: admission.ciphertext_start,
                ciphertext_end: admission.ciphertext_end,
                kdf: admission.kdf,
                aead: admission.aead,
                key_id: admission.key_id.0,
            },
            Err(refusal) => AdmitResult {
                outcome: refusal.into(),
                ..AdmitResult::default()
            },
        }
    }
}

// Only admit's refusals send a status, and have a problem type.
impl From<AdmitRefusal> for Outcome {
    ghost from_gives = { λ refusal outcome. outcome ≡ refused_admit refusal };

    fn from(refusal: AdmitRefusal) -> Outcome {
        Outcome {
            number: refusal.number,
            status: refusal.status,
            problem: problem(refusal.key_problem),
            ..Outcome::default()
        }
    }
}

fn problem(key_problem: bool) -> u8
    ensures { result ≡ problem_type key_problem }
{
    if key_problem {
        Outcome::OHTTP_KEY
    } else {
        Outcome::NO_PROBLEM
    }
}

// What goes out for an answer to a call on a ticket, and its number.
impl From<StepAnswer> for NumberResult {
    ghost from_gives = { λ answer result. result ≡ accepted_step answer };

    fn from(answer: StepAnswer) -> NumberResult {
        match answer {
            StepAnswer::Opened => NumberResult::sent(0, 1),
            StepAnswer::Failed(status) => NumberResult::sent(status, 0),
            StepAnswer::Sealed(sealed) => NumberResult::sent(sealed.status, sealed.length),
            StepAnswer::Abandoned => NumberResult::sent(0, 0),
        }
    }
}

impl From<Result<(), Refusal>> for Outcome {
    ghost from_gives = { λ answer outcome. outcome ≡ outcome_of (of_retire answer) };

    fn from(answer: Result<(), Refusal>) -> Outcome {
        match answer {
            Ok(()) => Outcome::sends(0),
            Err(refusal) => refusal.into(),
        }
    }
}

impl From<Report> for ReportResult {
    ghost from_gives = { λ report result. result ≡ report_result (of_report report) };

    fn from(report: Report) -> ReportResult {
        let keys = report.keys;
        ReportResult {
            outcome: Outcome::sends(0),
            last_ticket: report.last_ticket.0,
            pending: report.pending,
            key_count: report.key_count,
            keys,
        }
    }
}
