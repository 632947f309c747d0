//! Why a request is refused.
ghost use Rattle.std.specs.Prelude.{◌≡◌};
ghost use Rattle.notifier_model.specs.Refusals.{status_of};

use sip_write::Status;

/// Why a request is refused, in the order in which the causes are looked for.
#[derive(Clone, Copy, Debug, PartialEq, Eq)]
pub enum Refusal {
    /// 405: neither SUBSCRIBE nor REFER.
    OtherMethod,
    /// 416: not a `sip` URI.
    OtherScheme,
    /// 420: it requires an extension that isn't understood.
    UnmetRequire,
    /// 400: a header is missing or can't be read, or the CSeq names another method.
    Malformed,
    /// 481: no subscription has its dialog.
    NoDialog,
    /// 500: its CSeq is not above the last one of its dialog.
    OldCseq,
    /// 403: a REFER in a dialog.
    ReferInDialog,
    /// 481: its dialog is for another event.
    OtherEvent,
    /// 489: no such package.
    NoPackage,
    /// 403: a SUBSCRIBE to `refer`, for which one has to send a REFER.
    OnlyByRefer,
    /// 406: it accepts no body that the package has.
    NotAcceptable,
    /// 404: the package doesn't hold the resource.
    NoResource,
    /// 423: it asks for too brief a time, but not for none.
    TooBrief,
    /// 503: no serial is left, or no place in the table.
    Full,
}

impl Refusal {
    /// The status of the answer.
    pub fn status(self) -> Status
        ensures { result ≡ status_of self }
    {
        match self {
            Refusal::OtherMethod => Status::MethodNotAllowed,
            Refusal::OtherScheme => Status::UnsupportedUriScheme,
            Refusal::UnmetRequire => Status::BadExtension,
            Refusal::Malformed => Status::BadRequest,
            Refusal::NoDialog => Status::CallDoesNotExist,
            Refusal::OldCseq => Status::ServerInternalError,
            Refusal::ReferInDialog => Status::Forbidden,
            Refusal::OtherEvent => Status::CallDoesNotExist,
            Refusal::NoPackage => Status::BadEvent,
            Refusal::OnlyByRefer => Status::Forbidden,
            Refusal::NotAcceptable => Status::NotAcceptable,
            Refusal::NoResource => Status::NotFound,
            Refusal::TooBrief => Status::IntervalTooBrief,
            Refusal::Full => Status::ServiceUnavailable,
        }
    }
}
