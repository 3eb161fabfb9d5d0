//! What a node keeps of the ends of its parts: the first failure, or of the legs of a mirror whether one ended well.
ghost use Rattle.std.specs.Prelude.{◌≡◌};
ghost use Rattle.bio_books.specs.Books.{any_well, by_mark, closing, first_failing, kept_with};

use crate::node::Role;
use stack_base::Status;

// Of two ends, the first that failed.
fn first_failing(old: Status, new: Status) -> Status
    ensures { result ≡ first_failing old new }
{
    match old {
        Status::Ok => new,
        _ => old,
    }
}

// Of two ends, one that was well, if one was.
fn any_well(old: Status, new: Status) -> Status
    ensures { result ≡ any_well old new }
{
    if matches!(new, Status::Ok) { new } else { old }
}

// Well where the mark of a master is set.
fn by_mark(mark: Status) -> Status
    ensures { result ≡ by_mark mark }
{
    if matches!(mark, Status::Ok) {
        mark
    } else {
        Status::Io
    }
}

/// The status that a node of a role keeps, with one more end: of a master one that was well, if one was, and of any other the first that failed.
pub fn kept_with(role: Role, old: Status, new: Status) -> Status
    ensures { result ≡ kept_with role old new }
{
    match role {
        Role::Top | Role::Chain { .. } | Role::Leg { .. } => first_failing(old, new),
        Role::Master { .. } => any_well(old, new),
    }
}

/// How a node of a role ends as it closes, with the status that it kept: a master that is not well ends with `Status::Io`.
pub fn closing(role: Role, status: Status) -> Status
    ensures { result ≡ closing role status }
{
    match role {
        Role::Top | Role::Chain { .. } | Role::Leg { .. } => status,
        Role::Master { .. } => by_mark(status),
    }
}
