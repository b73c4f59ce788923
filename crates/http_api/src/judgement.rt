//! What is judged of a message, but the call that it asks for.

ghost use Rattle.std.specs.Prelude.{◌≡◌, option_map};
ghost use Rattle.http_api.specs.AnswerText.{judgement_status, judgement_name, judgement_detail, allowed_by};

use desk_types::Detail;
use http::{Method, StatusCode};

/// What holds of a message that asks for no call. The first that holds is answered.
#[derive(Debug, Drop)]
pub enum Judgement {
    /// The message is none that can be read, or asks for more than is served. It ends the session.
    NotBuilt,
    /// HTTP/1.1 without Host, or more than one Host.
    BadHost,
    /// A body with a Content-Encoding.
    BadEncoding,
    /// The target does not begin with a slash.
    BadTarget,
    /// The path has no route, or a number of it is none.
    NoRoute,
    /// The route takes this method alone.
    BadMethod(Method),
    /// The route is the host's, and the key is not.
    HostKey,
    /// A number of the query is none.
    BadQuery,
    /// The body is not the route's.
    BadBody,
    /// The body is no file of an import: the record of this number behind the heading, from 1, is bad, or, where no number
    /// is told, the heading is, or there are too many records.
    BadCsv(Option<u64>),
}

impl Judgement {
    /// The status of its answer.
    pub fn status(&self) -> StatusCode
        ensures { result ≡ judgement_status self.now }
    {
        match self {
            Judgement::NotBuilt
            | Judgement::BadHost
            | Judgement::BadTarget
            | Judgement::BadQuery
            | Judgement::BadBody
            | Judgement::BadCsv(_) => StatusCode::BAD_REQUEST,
            Judgement::BadEncoding => StatusCode::UNSUPPORTED_MEDIA_TYPE,
            Judgement::NoRoute => StatusCode::NOT_FOUND,
            Judgement::BadMethod(_) => StatusCode::METHOD_NOT_ALLOWED,
            Judgement::HostKey => StatusCode::FORBIDDEN,
        }
    }

    /// Its name.
    pub fn name(&self) -> &'static str
        ensures { result.now ≡ judgement_name self.now }
    {
        match self {
            Judgement::NotBuilt => "NotBuilt",
            Judgement::BadHost => "BadHost",
            Judgement::BadEncoding => "BadEncoding",
            Judgement::BadTarget => "BadTarget",
            Judgement::NoRoute => "NoRoute",
            Judgement::BadMethod(_) => "BadMethod",
            Judgement::HostKey => "HostKey",
            Judgement::BadQuery => "BadQuery",
            Judgement::BadBody => "BadBody",
            Judgement::BadCsv(_) => "BadCsv",
        }
    }

    /// What its answer tells beside the name.
    pub fn detail(&self) -> Detail
        ensures { result ≡ judgement_detail self.now }
    {
        match self {
            Judgement::BadCsv(Some(row)) => Detail::Number(*row),
            _ => Detail::Nothing,
        }
    }

    /// The method that the route takes, where another was used.
    pub fn allowed(&self) -> Option<&str>
        ensures { option_map (λ method. method.now) result ≡ allowed_by self.now }
    {
        match self {
            Judgement::BadMethod(method) => Some(method.as_str()),
            _ => None,
        }
    }
}
