//! Refusals of requests.
ghost use Rattle.std.specs.Prelude.{◌≡◌};
ghost use Rattle.bm_http.specs.Refusals.{status_of, text_of};

/// Why a request is refused as it stands.
#[derive(Clone, Copy)]
pub enum RequestRefusal {
    /// The path names no page.
    NoSuchPage,
    /// The method isn't GET.
    MethodNotAllowed,
    /// The id in the path is no number.
    NoSuchLog,
    /// A parameter of the query is no number.
    BadNumber,
}

impl RequestRefusal {
    /// The status code of HTTP: 404, 405 or 400.
    pub fn status(self) -> u16
        ensures { result ≡ status_of self }
    {
        match self {
            RequestRefusal::NoSuchPage | RequestRefusal::NoSuchLog => 404,
            RequestRefusal::MethodNotAllowed => 405,
            RequestRefusal::BadNumber => 400,
        }
    }

    /// The text that the body tells.
    pub fn text(self) -> &'static str
        ensures { result.now ≡ text_of self }
    {
        match self {
            RequestRefusal::NoSuchPage => "no such page",
            RequestRefusal::MethodNotAllowed => "method not allowed",
            RequestRefusal::NoSuchLog => "no such log",
            RequestRefusal::BadNumber => "bad number",
        }
    }
}
