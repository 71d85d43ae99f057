// What the promise of a watcher shuts out, and worked cases of its definitions. Definitions and theorems, no code.
#![tactic(auto)]

ghost use Rattle.promise.specs.ShutOut.{KeptBySome, FirstEventOnly, LaterEventsToo, OneVerdict, NoCells, SourceNotAsked, MadeUpNumbers, RefusedNumbered, RefusedWithoutCause, TooDeepEarly, MakingRefusedWithoutCause, MakingRefusesAll};
ghost use Rattle.promise.specs.Cases.{Worked};

// Theorems about the promise alone: something keeps it, and nothing that keeps it is wrong in one of these ways.
pub fn promise_stands()
    ensures kept_by_some { KeptBySome }
    ensures first_event_only { FirstEventOnly }
    ensures later_events_too { LaterEventsToo }
    ensures one_verdict { OneVerdict }
    ensures no_cells { NoCells }
    ensures source_not_asked { SourceNotAsked }
    ensures made_up_numbers { MadeUpNumbers }
    ensures refused_numbered { RefusedNumbered }
    ensures refused_without_cause { RefusedWithoutCause }
    ensures too_deep_early { TooDeepEarly }
    ensures making_refused_without_cause { MakingRefusedWithoutCause }
    ensures making_refuses_all { MakingRefusesAll }
{}

// Worked cases of the definitions: texts, values along a reel, refusals and a margin.
pub fn cases_stand()
    ensures worked { Worked }
{}
