//! The routes of the desk, one table: the path, the method, whose key it takes, and what is asked
//! for. It has the same rows as the table of the definitions.

ghost use Rattle.std.specs.Prelude.{◌≡◌};
ghost use Rattle.hq_requests.specs.Routes.{changes, role_of, route_of};

use Methods::{Get, GetOrDelete, Post};
use Role::{Customer, Relay, RelayForAll, RelayFrom};
use Route::{
    Admit, Check, Delete, DeleteAll, DeleteMatching, DropLine, Due, Find, FindHistory, History,
    HistoryBefore, HistoryByBody, Hold, HoldAll, HoldMatching, Import, Limits, Lines, LinesAfter,
    Messages, MessagesAfter, MessagesByBody, Notice, NoticeByBody, Notices, NoticesAfter,
    NoticesByBody, Outcome, PutLine, Release, ReleaseAll, ReleaseMatching, Report, Requeue, Show,
    ShowByBody, Submit, Sweep, Usage,
};

/// The methods of a path, whose key they take, and what each asks for.
#[derive(Clone, Copy, Debug, PartialEq, Eq)]
pub enum Methods {
    /// `GET` alone.
    Get(Role, Route),
    /// `POST` alone.
    Post(Role, Route),
    /// `GET` asks for the first, and `DELETE` for the second.
    GetOrDelete(Role, Route, Route),
}

impl Methods {
    /// Whose key the path takes.
    pub fn role(self) -> Role
        ensures { result ≡ role_of self }
    {
        match self {
            Methods::Get(role, _) | Methods::Post(role, _) | Methods::GetOrDelete(role, _, _) => {
                role
            }
        }
    }

    /// Whose key this method takes, and what it asks for, if the path has it.
    #[tactic(auto, unfolding(crate::specs::Routes::route_of))]
    pub fn route(self, method: &str) -> Option<(Role, Route)>
        ensures { result ≡ route_of self method.now }
    {
        match self {
            Methods::Get(role, route) if method == "GET" => Some((role, route)),
            Methods::Post(role, route) if method == "POST" => Some((role, route)),
            Methods::GetOrDelete(role, first, _) if method == "GET" => Some((role, first)),
            Methods::GetOrDelete(role, _, second) if method == "DELETE" => Some((role, second)),
            _ => None,
        }
    }
}

/// Whose key a route takes, and whom it serves.
#[derive(Clone, Copy, Debug, PartialEq, Eq)]
pub enum Role {
    /// A key of a customer, for that customer.
    Customer,
    /// The relay's, for the customer that the path names.
    Relay,
    /// The relay's, for all customers together. The body is not looked at.
    RelayForAll,
    /// The relay's, for at most 100 customers from the one that the body names.
    RelayFrom,
}

/// What a route asks for.
#[derive(Clone, Copy, Debug, PartialEq, Eq)]
pub enum Route {
    /// The messages from the start.
    Messages,
    /// The messages after the one whose queue ID is the parameter.
    MessagesAfter,
    /// The message whose queue ID is the parameter, whole.
    Show,
    /// That message on hold.
    Hold,
    /// That message released.
    Release,
    /// That message queued anew.
    Requeue,
    /// That message gone.
    Delete,
    /// Every message on hold.
    HoldAll,
    /// Every message released.
    ReleaseAll,
    /// Every message gone.
    DeleteAll,
    /// The messages that the pattern of the body is for, after the queue ID of the body, or from
    /// the start.
    Find,
    /// Every message that the pattern of the body is for on hold.
    HoldMatching,
    /// Every such message released.
    ReleaseMatching,
    /// Every such message gone.
    DeleteMatching,
    /// The lines from the start.
    Lines,
    /// The lines after the pattern of the body.
    LinesAfter,
    /// The line of the body, set.
    PutLine,
    /// The line of the pattern of the body, gone.
    DropLine,
    /// What is found for the address of the body.
    Check,
    /// The lines of the file of the body, taken into the access tables.
    Import,
    /// The notices from the start.
    Notices,
    /// The notices after the number that is the parameter.
    NoticesAfter,
    /// The notice whose number is the parameter.
    Notice,
    /// The newest ends of the history.
    History,
    /// Those before the number that is the parameter.
    HistoryBefore,
    /// Those that the pattern of the body is for.
    FindHistory,
    /// What the customer has on the desk.
    Usage,
    /// How much the customer may keep.
    Limits,
    /// The queue report.
    Report,
    /// A message for the queue.
    Submit,
    /// What a message would be answered, by its envelope.
    Admit,
    /// The report of an attempt.
    Outcome,
    /// The messages that may be tried now.
    Due,
    /// What is too old given up, and senders warned.
    Sweep,
    /// The messages after the queue ID of the body, or from the start.
    MessagesByBody,
    /// The message whose queue ID is in the body, whole.
    ShowByBody,
    /// The notices after the number of the body, or from the start.
    NoticesByBody,
    /// The notice whose number is in the body.
    NoticeByBody,
    /// The ends of the history before the number of the body, or the newest.
    HistoryByBody,
}

impl Route {
    /// Whether what it asks for may change what is kept.
    pub fn changes(self) -> bool
        ensures { result ≡ changes self }
    {
        !matches!(
            self,
            Admit
                | Messages
                | MessagesAfter
                | MessagesByBody
                | Show
                | ShowByBody
                | Find
                | Lines
                | LinesAfter
                | Check
                | Notices
                | NoticesAfter
                | NoticesByBody
                | Notice
                | NoticeByBody
                | History
                | HistoryBefore
                | HistoryByBody
                | FindHistory
                | Usage
                | Limits
                | Report
                | Due
        )
    }
}

/// Every path of the desk, as the router spells it, with its methods.
pub(crate) const TABLE: [(&str, Methods); 49] = [
    ("/v1/messages", Get(Customer, Messages)),
    ("/v1/messages-after/{id}", Get(Customer, MessagesAfter)),
    ("/v1/message/{id}", GetOrDelete(Customer, Show, Delete)),
    ("/v1/hold/{id}", Post(Customer, Hold)),
    ("/v1/release/{id}", Post(Customer, Release)),
    ("/v1/requeue/{id}", Post(Customer, Requeue)),
    ("/v1/hold-all", Post(Customer, HoldAll)),
    ("/v1/release-all", Post(Customer, ReleaseAll)),
    ("/v1/delete-all", Post(Customer, DeleteAll)),
    ("/v1/find", Post(Customer, Find)),
    ("/v1/hold-matching", Post(Customer, HoldMatching)),
    ("/v1/release-matching", Post(Customer, ReleaseMatching)),
    ("/v1/delete-matching", Post(Customer, DeleteMatching)),
    ("/v1/import", Post(Customer, Import)),
    ("/v1/lines", Get(Customer, Lines)),
    ("/v1/lines-after", Post(Customer, LinesAfter)),
    ("/v1/line-put", Post(Customer, PutLine)),
    ("/v1/line-drop", Post(Customer, DropLine)),
    ("/v1/check", Post(Customer, Check)),
    ("/v1/notices", Get(Customer, Notices)),
    ("/v1/notices-after/{n}", Get(Customer, NoticesAfter)),
    ("/v1/notice/{n}", Get(Customer, Notice)),
    ("/v1/history", Get(Customer, History)),
    ("/v1/history-before/{n}", Get(Customer, HistoryBefore)),
    ("/v1/history-find", Post(Customer, FindHistory)),
    ("/v1/usage", Get(Customer, Usage)),
    ("/v1/limits", Get(Customer, Limits)),
    ("/v1/report", Get(Customer, Report)),
    ("/relay/submit/{customer}", Post(Relay, Submit)),
    ("/relay/admit/{customer}", Post(Relay, Admit)),
    ("/relay/outcome/{customer}", Post(Relay, Outcome)),
    ("/relay/due/{customer}", Post(Relay, Due)),
    ("/relay/sweep/{customer}", Post(Relay, Sweep)),
    ("/relay/messages/{customer}", Post(Relay, MessagesByBody)),
    ("/relay/message/{customer}", Post(Relay, ShowByBody)),
    ("/relay/notices/{customer}", Post(Relay, NoticesByBody)),
    ("/relay/notice/{customer}", Post(Relay, NoticeByBody)),
    ("/relay/history/{customer}", Post(Relay, HistoryByBody)),
    ("/relay/history-find/{customer}", Post(Relay, FindHistory)),
    ("/relay/find/{customer}", Post(Relay, Find)),
    ("/relay/hold-matching/{customer}", Post(Relay, HoldMatching)),
    (
        "/relay/release-matching/{customer}",
        Post(Relay, ReleaseMatching),
    ),
    (
        "/relay/delete-matching/{customer}",
        Post(Relay, DeleteMatching),
    ),
    ("/relay/sweep", Post(RelayForAll, Sweep)),
    ("/relay/usage", Post(RelayForAll, Usage)),
    ("/relay/due", Post(RelayForAll, Due)),
    ("/relay/sweep-from", Post(RelayFrom, Sweep)),
    ("/relay/usage-from", Post(RelayFrom, Usage)),
    ("/relay/due-from", Post(RelayFrom, Due)),
];
