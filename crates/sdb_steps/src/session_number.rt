//! The numbers of sessions.
ghost use Rattle.std.specs.Prelude.{◌≡◌, ◌<◌, ◌≤◌, IfSome, IfNone};

/// Number of sessions: 64.
pub const SESSION_LIMIT: u64 = 64;

/// The number of a session, from 0 to 63.
#[derive(Clone, Copy, PartialEq, Eq, Debug, Drop)]
pub struct SessionNumber {
    pub number: u64,
    ghost small: { number < 64 },
}

impl SessionNumber {
    /// Creates a session number, or returns `None` if it is 64 or more.
    pub fn new(number: u64) -> Option<SessionNumber>
        ensures some { IfSome result (λ n. n.number ≡ number) }
        ensures none { IfNone result (64 ≤ number) }
    {
        if number < SESSION_LIMIT {
            Some(SessionNumber { number })
        } else {
            None
        }
    }
}
