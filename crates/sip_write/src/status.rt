//! The statuses of answers.
ghost use Rattle.std.specs.Prelude.{◌≡◌};
ghost use Rattle.sip_write.specs.Status.{code as code_of, phrase as phrase_of};

/// What an answer says of its request: the status codes that this server sends (RFC 3261 section 21, RFC 6665 section 8.3).
#[derive(Clone, Copy, Debug, PartialEq, Eq)]
pub enum Status {
    /// 200
    Ok,
    /// 202
    Accepted,
    /// 400
    BadRequest,
    /// 403
    Forbidden,
    /// 404
    NotFound,
    /// 405
    MethodNotAllowed,
    /// 406
    NotAcceptable,
    /// 416
    UnsupportedUriScheme,
    /// 420
    BadExtension,
    /// 423
    IntervalTooBrief,
    /// 481
    CallDoesNotExist,
    /// 489
    BadEvent,
    /// 500
    ServerInternalError,
    /// 503
    ServiceUnavailable,
}

impl Status {
    /// The number of three digits.
    pub fn code(self) -> u16
        ensures { result ≡ code_of self }
    {
        match self {
            Status::Ok => 200,
            Status::Accepted => 202,
            Status::BadRequest => 400,
            Status::Forbidden => 403,
            Status::NotFound => 404,
            Status::MethodNotAllowed => 405,
            Status::NotAcceptable => 406,
            Status::UnsupportedUriScheme => 416,
            Status::BadExtension => 420,
            Status::IntervalTooBrief => 423,
            Status::CallDoesNotExist => 481,
            Status::BadEvent => 489,
            Status::ServerInternalError => 500,
            Status::ServiceUnavailable => 503,
        }
    }

    /// The words behind the number.
    pub fn phrase(self) -> &'static str
        ensures { result.now ≡ phrase_of self }
    {
        match self {
            Status::Ok => "OK",
            Status::Accepted => "Accepted",
            Status::BadRequest => "Bad Request",
            Status::Forbidden => "Forbidden",
            Status::NotFound => "Not Found",
            Status::MethodNotAllowed => "Method Not Allowed",
            Status::NotAcceptable => "Not Acceptable",
            Status::UnsupportedUriScheme => "Unsupported URI Scheme",
            Status::BadExtension => "Bad Extension",
            Status::IntervalTooBrief => "Interval Too Brief",
            Status::CallDoesNotExist => "Call/Transaction Does Not Exist",
            Status::BadEvent => "Bad Event",
            Status::ServerInternalError => "Server Internal Error",
            Status::ServiceUnavailable => "Service Unavailable",
        }
    }
}
