// The refusals of the selection unit: a closed list, with a number and a one-line cause for each.
#![tactic(auto)]

ghost use Rattle.std.specs.Prelude.{◌≡◌, Some, Decides, nat_eq};
ghost use Rattle.answer.specs.Numbers.{number as number_of, cause as cause_of, line, Distinct};

use std::fmt;

// Why a call was refused. CAUSES says what each one means.
#[derive(Clone, Copy, PartialEq, Eq, Debug)]
pub enum Refusal {
    // Making a pool and a unit.
    Channels = 10,
    Uplink = 11,
    Offsets = 12,
    Bitmap = 13,
    Intervals = 14,
    Levels = 15,
    Start = 16,
    Lent = 17,
    Unfit = 18,

    // Time, records and readings.
    Back = 20,
    Future = 21,
    Unset = 22,
    Outside = 23,
    Resource = 24,
    Code = 25,
    Riv = 26,
    Padding = 27,
    Rsrp = 28,
    Sent = 29,
    OtherRecord = 30,
    Full = 31,
    Readings = 32,
    OtherReadings = 33,

    // The question of a selection.
    Length = 34,
    Interval = 35,
    Turns = 36,
    Priority = 37,
    Times = 38,

    // The selection, and the turns of a grant.
    NoCandidate = 40,
    TooFew = 41,
    NoReport = 42,
    NoPlace = 43,
    Limit = 44,
    NotOut = 45,
    Spent = 46,
    NotNow = 47,
    Occupied = 48,

    // A script.
    Unknown = 50,
    Short = 51,
    Order = 52,
    TooWide = 53,
}

// The causes from number 10 on, with an empty text at each number that no refusal has.
// A table, since a match with an arm for each refusal would be a function of more than 40 lines.
static CAUSES: [&str; 44] = [
    "the number of sub-channels is not from 1 to 20",
    "the uplink code is above 7",
    "there are more than three sync offsets, or one is repeated, 160 or more, not on an uplink position, or unused and not zero",
    "the bitmap's length is not 10, 16, 20, 30, 40, 50, 60 or 100, no bit is one, or a bit past the length is",
    "the interval mask is zero or above 4095",
    "a threshold level is above 66",
    "the start is not from 20480 to 2^40",
    "the lent memory is too small for the pool",
    "the memory is not empty, made for another pool, or past the start",
    "",
    "the time goes back, or past 2^40",
    "the subframe is still to come",
    "the subframe is not in the set that a pool is made from",
    "the index is outside the memory",
    "the resource is not below the number of sub-channels",
    "the reservation code is above 12",
    "the RIV names no length and start, or the record leaves the pool",
    "the bits behind the record are not zero",
    "the RSRP is not from -160.0 to 0.0 dBm",
    "the unit sent in that subframe",
    "another record is held there",
    "no place for a record is free",
    "the readings are not one for each sub-channel, or one is above 4,000,000,000",
    "other readings are held there",
    "the length is not from 1 to the number of sub-channels",
    "the interval code is not from 1 to 12, or the pool does not allow it",
    "the number of turns is not from 1 to 750",
    "the priority is above 7",
    "T1 is not from 1 to 4, or T2 is not from 20 to 100",
    "",
    "the selection window has no candidate",
    "no raise leaves a fifth of the candidates",
    "no report was made at this subframe",
    "no such place is still marked",
    "the turns ever granted would pass 2^40",
    "the unit has fewer turns out than the grant",
    "the grant has no turn left",
    "now is not the subframe of the turn",
    "the subframe is not blank, or holds a record",
    "",
    "the command byte is unknown",
    "the operands are cut short",
    "no pool is accepted yet, or one is already",
    "the bench takes at most 8 sub-channels",
];

impl Refusal {
    // The number that stands in the list above, which no other refusal has.
    pub fn number(self) -> u8
        ensures value { result ≡ number_of self }
        ensures distinct { Distinct }
    {
        self as u8
    }

    // The cause in plain words, on one line.
    pub fn cause(self) -> &'static str
        ensures { result.now ≡ cause_of self }
    {
        CAUSES[usize::from(self.number()) - 10]
    }

    // Is it the other one? The derived `==` answers that, and equal numbers say the same.
    pub fn is(self, other: Refusal) -> bool
        ensures gives { result ≡ nat_eq (number_of self) (number_of other) }
        ensures decides { Decides result (self ≡ other) }
    {
        self == other
    }
}

// The number of a refusal, as a conversion.
impl From<Refusal> for u8 {
    fn from(refusal: Refusal) -> u8
        ensures { result ≡ number_of refusal }
    {
        refusal.number()
    }
}

// The number, a colon, a blank and the cause.
impl fmt::Display for Refusal {
    ghost output = { λ e. Some (line e) };

    fn fmt<W: fmt::Write>(&self, f: &mut fmt::Formatter<W>) -> fmt::Result {
        let number = self.number();
        let cause = self.cause();
        write!(f, "{number}: {cause}")
    }
}

// Holds the fact that no two refusals have one number.
pub fn numbers_are_distinct() -> u8
    ensures { Distinct }
{
    0
}

#[cfg(test)]
mod tests {
    use super::*;
    use std::test::Fail;

    #[test]
    fn first_and_last_of_each_group(rt: HostRuntime) {
        assert_eq!(rt; Refusal::Channels.number(), 10);
        assert_eq!(rt; Refusal::Unfit.number(), 18);
        assert_eq!(rt; Refusal::Back.number(), 20);
        assert_eq!(rt; Refusal::Times.number(), 38);
        assert_eq!(rt; Refusal::NoCandidate.number(), 40);
        assert_eq!(rt; Refusal::Occupied.number(), 48);
        assert_eq!(rt; Refusal::Unknown.number(), 50);
        assert_eq!(rt; Refusal::TooWide.number(), 53);
    }

    #[test]
    fn causes_beside_a_free_number(rt: HostRuntime) {
        assert_eq!(rt; Refusal::Back.cause(), "the time goes back, or past 2^40");
        assert_eq!(rt; Refusal::Unknown.cause(), "the command byte is unknown");
    }

    #[test]
    fn line_of_a_refusal(rt: HostRuntime) -> Result<(), Fail> {
        let text = Refusal::Riv.to_string(rt.alloc())?;
        assert_eq!(rt;
            text.as_str(),
            "26: the RIV names no length and start, or the record leaves the pool"
        );
        Ok(())
    }
}
