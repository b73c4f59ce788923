//! What answers a message.

ghost use Rattle.std.specs.Prelude.{◌≡◌, option_map};
ghost use Rattle.http_api.specs.AnswerText.{fault_status, parts_of, parts_of_reply, refusal_status};

use crate::judgement::Judgement;
use desk_types::{Fault, Refusal, Reply};
use http::StatusCode;

/// What answers a message: the judgement that holds, or the result of the call that it asks for.
#[derive(Debug, Drop)]
pub enum Answer {
    Judged(Judgement),
    Served(Result<Reply, Fault>),
}

/// The form of an answer.
#[derive(Clone, Copy, Debug, PartialEq, Eq)]
pub struct AnswerForm {
    /// Whether its head alone is written.
    pub bodiless: bool,
    /// Whether it says that the session closes.
    pub closes: bool,
}

impl Answer {
    /// The status.
    pub fn status(&self) -> StatusCode
        ensures { result ≡ (parts_of self.now).status }
    {
        match self {
            Answer::Judged(judgement) => judgement.status(),
            Answer::Served(Ok(reply)) => status_of_reply(reply),
            Answer::Served(Err(fault)) => status_of_fault(fault),
        }
    }

    /// The type of the content, where there is one.
    pub fn content(&self) -> Option<&'static str>
        ensures { option_map (λ text. text.now) result ≡ (parts_of self.now).content }
    {
        match self {
            Answer::Judged(_) => Some("application/json"),
            Answer::Served(Ok(reply)) => content_of_reply(reply),
            Answer::Served(Err(_)) => Some("application/json"),
        }
    }

    /// The link that a click goes to.
    pub fn location(&self) -> Option<&str>
        ensures { option_map (λ text. text.now) result ≡ (parts_of self.now).location }
    {
        match self {
            Answer::Judged(_) => None,
            Answer::Served(Ok(reply)) => link_of_reply(reply),
            Answer::Served(Err(_)) => None,
        }
    }

    /// The method that the route takes, where another was used.
    pub fn allow(&self) -> Option<&str>
        ensures { option_map (λ text. text.now) result ≡ (parts_of self.now).allow }
    {
        match self {
            Answer::Judged(judgement) => judgement.allowed(),
            Answer::Served(_) => None,
        }
    }
}

/// The status of a reply.
fn status_of_reply(reply: &Reply) -> StatusCode
    ensures { result ≡ (parts_of_reply reply.now).status }
{
    match reply {
        Reply::Made(_)
        | Reply::Done
        | Reply::Credited(_)
        | Reply::HostDay(_)
        | Reply::Imported { .. }
        | Reply::Day(_)
        | Reply::ShownRows(_)
        | Reply::Page(_) => StatusCode::OK,
        Reply::Went(_) => StatusCode::FOUND,
        Reply::Refused(refusal) => status_of_refusal(refusal),
    }
}

/// The type of the content of a reply, where there is one.
fn content_of_reply(reply: &Reply) -> Option<&'static str>
    ensures { option_map (λ text. text.now) result ≡ (parts_of_reply reply.now).content }
{
    match reply {
        Reply::Day(_) => Some("text/plain; charset=utf-8"),
        Reply::ShownRows(_) => Some("text/csv; charset=utf-8"),
        Reply::Went(_) => None,
        _ => Some("application/json"),
    }
}

/// The link that a reply goes to.
fn link_of_reply(reply: &Reply) -> Option<&str>
    ensures { option_map (λ text. text.now) result ≡ (parts_of_reply reply.now).location }
{
    match reply {
        Reply::Went(link) => Some(link.as_str()),
        _ => None,
    }
}

/// The status of a refusal.
fn status_of_refusal(refusal: &Refusal) -> StatusCode
    ensures { result ≡ refusal_status refusal.now }
{
    match refusal {
        Refusal::BadKey => StatusCode::FORBIDDEN,
        Refusal::NoAccount
        | Refusal::NoCampaign
        | Refusal::NoLine
        | Refusal::NoNegative
        | Refusal::NoPlacement => StatusCode::NOT_FOUND,
        Refusal::LineThere(_)
        | Refusal::NegativeThere(_)
        | Refusal::BudgetBelowUsed(_)
        | Refusal::NotSettled
        | Refusal::AccountsFull
        | Refusal::CampaignsFull
        | Refusal::LinesFull
        | Refusal::NegativesFull
        | Refusal::PlacementsFull => StatusCode::CONFLICT,
        Refusal::BadField(_)
        | Refusal::BadPattern(_)
        | Refusal::QueryTooLong(_)
        | Refusal::QueryTooMany(_)
        | Refusal::BadRow(_, _) => StatusCode::UNPROCESSABLE_ENTITY,
    }
}

/// The status of a fault.
fn status_of_fault(fault: &Fault) -> StatusCode
    ensures { result ≡ fault_status fault.now }
{
    match fault {
        Fault::Keeper { .. } => StatusCode::INTERNAL_SERVER_ERROR,
        Fault::JournalFull { .. } => StatusCode::INSUFFICIENT_STORAGE,
        Fault::NoMemory => StatusCode::SERVICE_UNAVAILABLE,
    }
}
