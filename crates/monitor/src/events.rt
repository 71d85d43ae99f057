// Questions about one event.
ghost use Rattle.std.specs.Prelude.{◌≡◌};
ghost use Rattle.history.specs.Moments.{is};

use reels::{Event, EventKind};

// Whether the event has the kind.
pub(crate) fn is_kind(event: Event, kind: EventKind) -> bool
    ensures value { result ≡ is kind event }
{
    event.kind == kind
}
