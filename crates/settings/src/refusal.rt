// Why no labels are given: a case for each cause, in the order of the rules' numbers. 11 has none: an empty trace is refused no more.
ghost use Rattle.std.specs.Prelude.{◌≡◌};
ghost use Rattle.settings.specs.Refusals.{number_of, trace_of};

// Those about one trace carry its number.
#[derive(Clone, Copy, Debug, PartialEq, Eq)]
pub enum Refusal {
    R1,
    R2,
    MinStayingTime,
    MaxTimeBetween,
    TimeBounds,
    MinSize,
    NoTrace,
    Lengths,
    Counts,
    Work,
    Coordinate(usize),
    Timestamp(usize),
    PartlyTimed(usize),
    TimeOrder(usize),
    CoordinateSize(usize),
    TimeMark,
    NoStop,
    TooManyPlaces,
    NotFitted,
    Output,
    Text,
    MinSpatialResolution,
    ResolutionBounds,
}

// The rules' number of a refusal.
// Kept as it is: `as u32` is for enums whose cases carry nothing. A `From<Refusal> for u32` would be this match under a name that does not say which of a
// refusal's two numbers it gives, this one or that of the trace.
pub fn number(e: Refusal) -> u32
    ensures { result ≡ number_of e }
{
    match e {
        Refusal::R1 => 1,
        Refusal::R2 => 2,
        Refusal::MinStayingTime => 3,
        Refusal::MaxTimeBetween => 4,
        Refusal::TimeBounds => 5,
        Refusal::MinSize => 6,
        Refusal::NoTrace => 7,
        Refusal::Lengths => 8,
        Refusal::Counts => 9,
        Refusal::Work => 10,
        Refusal::Coordinate(_) => 12,
        Refusal::Timestamp(_) => 13,
        Refusal::PartlyTimed(_) => 14,
        Refusal::TimeOrder(_) => 15,
        Refusal::CoordinateSize(_) => 16,
        Refusal::TimeMark => 17,
        Refusal::NoStop => 18,
        Refusal::TooManyPlaces => 19,
        Refusal::NotFitted => 20,
        Refusal::Output => 21,
        Refusal::Text => 22,
        Refusal::MinSpatialResolution => 23,
        Refusal::ResolutionBounds => 24,
    }
}

// The trace that it is about, 0 where it is about none.
// Kept as it is: no derive hands out what the cases of an enum carry; and 0 and no Option, as the definition `trace_of` has it and lists print it.
pub fn trace(e: Refusal) -> usize
    ensures { result ≡ trace_of e }
{
    match e {
        Refusal::Coordinate(k)
        | Refusal::Timestamp(k)
        | Refusal::PartlyTimed(k)
        | Refusal::TimeOrder(k)
        | Refusal::CoordinateSize(k) => k,
        _ => 0,
    }
}
