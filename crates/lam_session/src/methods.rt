//! The supported methods, by name.
ghost use Rattle.std.specs.Prelude.{◌≡◌, map};
ghost use Rattle.lam_session.specs.Methods.{method_named, request_method, notice_method};

use crate::questions::Question;

/// What a request asks for, by its method.
#[derive(Clone, Copy)]
pub enum RequestMethod {
    Initialize,
    Shutdown,
    /// A question about a position in a document.
    Ask(Question),
    Unknown,
}

/// What a notification is about, by its method.
#[derive(Clone, Copy)]
pub enum NoticeMethod {
    Exit,
    DidOpen,
    DidChange,
    DidClose,
    Unknown,
}

/// The requests by name.
static REQUESTS: [(&str, RequestMethod); 8] = [
    ("initialize", RequestMethod::Initialize),
    ("shutdown", RequestMethod::Shutdown),
    ("textDocument/hover", RequestMethod::Ask(Question::Hover)),
    (
        "fullsub/derivation",
        RequestMethod::Ask(Question::Derivation),
    ),
    (
        "textDocument/completion",
        RequestMethod::Ask(Question::Completion),
    ),
    (
        "textDocument/definition",
        RequestMethod::Ask(Question::Definition),
    ),
    (
        "textDocument/references",
        RequestMethod::Ask(Question::References),
    ),
    ("textDocument/rename", RequestMethod::Ask(Question::Rename)),
];

/// The notifications by name.
static NOTICES: [(&str, NoticeMethod); 4] = [
    ("exit", NoticeMethod::Exit),
    ("textDocument/didOpen", NoticeMethod::DidOpen),
    ("textDocument/didChange", NoticeMethod::DidChange),
    ("textDocument/didClose", NoticeMethod::DidClose),
];

/// Returns the request with this name.
pub fn request_method(name: &str) -> RequestMethod
    ensures { result ≡ request_method name.now }
{
    method_named(RequestMethod::Unknown, name, REQUESTS.as_slice())
}

/// Returns the notification with this name.
pub fn notice_method(name: &str) -> NoticeMethod
    ensures { result ≡ notice_method name.now }
{
    method_named(NoticeMethod::Unknown, name, NOTICES.as_slice())
}

/// The method of the first pair with this name, or `unknown` if there is none.
fn method_named<M: Copy>(unknown: M, name: &str, methods: &[(&str, M)]) -> M
    ensures { result ≡ method_named unknown name.now (map (λ m. (m.0.now, m.1)) methods.now) }
{
    for (known, method) in methods {
        if name == *known {
            return *method;
        }
    }
    unknown
}
