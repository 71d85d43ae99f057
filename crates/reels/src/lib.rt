// Events, and which lists of them are well nested.
#![tactic(auto)]

ghost use Rattle.std.specs.Prelude.{◌≡◌};
ghost use Rattle.reels.specs.Reels.{fit, DepthIsMost};
ghost use Rattle.reels.specs.Nesting.{TakenBegins, RefusedExactly, TooDeepExactly};

#[derive(Clone, Copy, PartialEq, Eq, Debug)]
pub enum EventKind {
    Step,
    Call,
    Begin,
    End,
    Return,
}

// Something that happened: a step, or a routine's call, begin, end or return.
#[derive(Clone, Copy, PartialEq, Eq, Debug)]
pub struct Event {
    pub kind: EventKind,
    // Which routine; 0 for a step. Beside the kind and not within it: an event whose number does not fit is refused, so it can be given.
    pub routine: u16,
}

// Whether the routine number fits the kind: 0 for a step, 1 or more otherwise.
pub fn is_fit(event: Event) -> bool
    ensures value { result ≡ fit event }
{
    match event.kind {
        EventKind::Step => event.routine == 0,
        _ => event.routine >= 1,
    }
}

// A theorem about reels and their depth.
pub fn depth_stands()
    ensures depth { DepthIsMost }
{}

// Theorems about the nesting that is kept while events come in: which events it takes, and which it refuses.
pub fn nesting_stands()
    ensures taken { TakenBegins }
    ensures refused { RefusedExactly }
    ensures too_deep { TooDeepExactly }
{}
