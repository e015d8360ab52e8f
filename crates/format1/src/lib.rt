// The reader of control records, format 1.
#![tactic(auto)]

ghost use Rattle.std.specs.Prelude.{◌≡◌, ℕ, ◌+◌, ◌-◌, ◌*◌, ◌^◌, ◌<◌, ◌≤◌, ◌&&◌, Decides, MatchOption, MatchResult, nat_le, nat_lt};
ghost use Rattle.rules.specs.Counting.{first_no};
ghost use Rattle.rules.specs.Format.{Names, Reads, Uses, pairs, pair, width, bits, questions, reading, uses as uses_test, Numbered, Fitting, LaidOut, Exact, Tested};
ghost use Rattle.rules.specs.Choose.{partner_of};
ghost use Rattle.answer.specs.Numbers.{answered};
ghost use Rattle.format1.specs.Records.{meant_of, fitting, valued, Meant};

use answer::Refusal;

// The fields of a control record.
#[derive(Clone, Copy, PartialEq, Eq, Debug)]
pub struct Record {
    pub priority: u8,
    // the reservation code
    pub code: u8,
    // the first sub-channel of the partner
    pub start: u8,
    // how many sub-channels it uses
    pub length: u8,
    // how far away the partner is, and 0 where there is none
    pub gap: u8,
    pub mcs: u8,
    // the retransmission index: 0 says that the partner is after, 1 that it is before, and a number above 1 names none;
    // a public field that callers fill in: an enum would take fewer numbers than this promises
    pub again: u8,
}

// How many pairs of a length and a first sub-channel fit n sub-channels.
fn pair_count(n: u8) -> u16
    ensures { result ≡ pairs n }
{
    let n = u16::from(n);
    n * (n + 1) / 2
}

// The length and the first sub-channel, which are read together, that an RIV of n sub-channels names. A pool has n from 1
// to 20; the rule is the same for every n, and with n 0 no RIV names a pair.
pub fn length_and_start(n: u8, riv: u16) -> Option<(u8, u8)>
    ensures value { result ≡ pair n riv }
    ensures names { MatchOption result ((l f : ℕ) → Names n riv l f → ⊥) (λ p. Names n riv p.0 p.1) }
{
    if riv >= pair_count(n) {
        return None;
    }
    let n = u16::from(n);
    let row = riv / n;
    let column = riv % n;
    if row + column < n {
        Some((row as u8 + 1, column as u8))
    } else {
        Some(((n + 1 - row) as u8, (n - 1 - column) as u8))
    }
}

// How many bits the RIV takes.
fn width_of(n: u8) -> u32
    ensures value { result ≡ width n }
    ensures few { result ≤ 15 }
{
    16 - pair_count(n).saturating_sub(1).leading_zeros()
}

// The bits of a word that are still to be read: the highest comes first, and `at` of them are read.
#[derive(Drop)]
struct Bits {
    word: u32,
    at: u32,
}

impl Bits {
    // Reads the next field, by its size.
    fn take(&mut self, size: u32) -> u32
        requires { (1 ≤ self.old.at + size) × (self.old.at + size ≤ 32) × (size ≤ 15) }
        ensures value { result ≡ bits self.old.word self.old.at size }
        ensures small { result < 2 ^ size }
        ensures word { self.new.word ≡ self.old.word }
        ensures at { self.new.at ≡ self.old.at + size }
    {
        self.at += size;
        (self.word >> (32 - self.at)) & ((1 << size) - 1)
    }
}

// Reads the four bytes of a record that was heard at a resource of n sub-channels, or refuses with the first question
// that is answered no: code at most 12, RIV names a pair that fits from the resource on, zeros past the fields.
pub fn read(n: u8, resource: u8, bytes: [u8; 4]) -> Result<Record, Refusal>
    ensures answer { answered result ≡ first_no (questions n resource bytes) }
    ensures value { valued result ≡ reading n resource bytes }
    ensures exact { MatchResult result (λ x. Reads n resource bytes (meant_of x)) (λ _. (q : Meant) → Reads n resource bytes q → ⊥) }
{
    let mut bits = Bits {
        word: u32::from_be_bytes(bytes),
        at: 0,
    };
    let priority = bits.take(3);
    let code = bits.take(4);
    if code > 12 {
        return Err(Refusal::Code);
    }
    let width = width_of(n);
    let riv = bits.take(width);
    let Some((length, start)) = length_and_start(n, riv as u16) else {
        return Err(Refusal::Riv);
    };
    if u16::from(resource) + u16::from(length) > u16::from(n) {
        return Err(Refusal::Riv);
    }
    let gap = bits.take(4);
    let mcs = bits.take(5);
    let again = bits.take(1);
    if bits.take(15 - width) != 0 {
        return Err(Refusal::Padding);
    }
    Ok(Record {
        priority: priority as u8,
        code: code as u8,
        start,
        length,
        gap: gap as u8,
        mcs: mcs as u8,
        again: again as u8,
    })
}

// Is the sub-channel one of `length` many from the first one on?
fn covers(first: u8, length: u8, channel: u8) -> bool
    ensures { result ≡ (nat_le first channel && nat_lt channel (first + length)) }
{
    channel >= first && channel - first < length
}

impl Record {
    // The index of the partner of a record that is based at `base`, if it has one.
    pub fn partner(&self, base: u64) -> Option<u64>
        ensures value { result ≡ fitting (partner_of (meant_of self.now) base) }
        ensures early { base < 2 ^ 64 - 2 ^ 8 → result ≡ partner_of (meant_of self.now) base }
    {
        let gap = u64::from(self.gap);
        if gap == 0 {
            return None;
        }
        match self.again {
            0 => base.checked_add(gap),
            1 => base.checked_sub(gap),
            _ => None,
        }
    }

    // Does the record, heard at a resource and based at an index, use the sub-channel at the index that is asked for?
    pub fn uses(&self, resource: u8, base: u64, channel: u8, index: u64) -> bool
        ensures value { result ≡ uses_test (meant_of self.now) resource base channel index }
        ensures means { Decides result (Uses (meant_of self.now) resource base channel index) }
    {
        let own = covers(resource, self.length, channel);
        let at_partner = self.partner(base) == Some(index);
        let of_partner = covers(self.start, self.length, channel);
        (index == base && own) || (at_partner && of_partner)
    }
}

// Holds the facts of the format: the RIVs of all pairs are the numbers below the number of pairs, each of one pair; the
// width is the smallest that holds them; a record can be read back from its bytes; the reader is exact; and the test of
// what a record uses says what the rule says.
pub fn format_holds() -> u8
    ensures numbered { Numbered }
    ensures fitting { Fitting }
    ensures laid { LaidOut }
    ensures exact { Exact }
    ensures tested { Tested }
{
    0
}

#[cfg(test)]
mod tests {
    use super::*;
    use std::test::Fail;

    // The worked RIVs of five sub-channels, and the ends at one, two, nineteen and twenty.
    const PAIRS: [(u8, u16, u8, u8); 8] = [
        (5, 12, 3, 2),
        (5, 13, 4, 1),
        (5, 9, 5, 0),
        (1, 0, 1, 0),
        (2, 2, 2, 0),
        (19, 189, 11, 0),
        (20, 209, 11, 9),
        (20, 191, 12, 8),
    ];

    #[test]
    fn names_a_pair(rt: HostRuntime) {
        for (n, riv, length, start) in PAIRS {
            assert_eq!(rt; length_and_start(n, riv), Some((length, start)));
        }
    }

    #[test]
    fn names_no_pair(rt: HostRuntime) {
        for (n, riv) in [(0, 0), (1, 1), (2, 3), (5, 15), (19, 190), (20, 210)] {
            assert_eq!(rt; length_and_start(n, riv), None);
        }
    }

    // All fields at their highest, for 20 sub-channels.
    const FULL: [u8; 4] = [0xf9, 0xa3, 0xff, 0x80];

    #[test]
    fn reads_every_field(rt: HostRuntime) {
        let full = Record {
            priority: 7,
            code: 12,
            start: 9,
            length: 11,
            gap: 15,
            mcs: 31,
            again: 1,
        };
        assert_eq!(rt; read(20, 9, FULL), Ok(full));
        let least = Record {
            priority: 0,
            code: 1,
            start: 0,
            length: 1,
            gap: 0,
            mcs: 0,
            again: 0,
        };
        assert_eq!(rt; read(1, 0, [2, 0, 0, 0]), Ok(least));
    }

    const REFUSED: [(u8, u8, [u8; 4], Refusal); 5] = [
        (20, 10, [0xfb, 0xa3, 0xff, 0x81], Refusal::Code),
        (20, 10, [0xf9, 0xa3, 0xff, 0x81], Refusal::Riv),
        (20, 9, [0xf9, 0xa3, 0xff, 0x81], Refusal::Padding),
        (5, 0, [0x03, 0xe0, 0, 0], Refusal::Riv),
        (0, 0, [2, 0, 0, 0], Refusal::Riv),
    ];

    #[test]
    fn refuses_in_order(rt: HostRuntime) {
        for (n, resource, bytes, refusal) in REFUSED {
            assert_eq!(rt; read(n, resource, bytes), Err(refusal));
        }
    }

    #[test]
    fn uses_its_place_and_its_partner(rt: HostRuntime) -> Result<(), Fail> {
        let Ok(full) = read(20, 0, FULL) else {
            return Err(Fail::new("not read"));
        };
        assert!(rt; full.uses(0, 100, 10, 100));
        assert!(rt; !full.uses(0, 100, 11, 100));
        assert!(rt; full.uses(0, 100, 9, 85));
        assert!(rt; !full.uses(0, 100, 8, 85));
        assert!(rt; !full.uses(0, 100, 9, 115), "the partner is before");
        Ok(())
    }
}
