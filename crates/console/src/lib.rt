// What the programs share: bytes, bits and interval codes that are read from text, and the number of an answer.
#![tactic(auto)]

ghost use Rattle.std.specs.Prelude.{◌≡◌, ◌≤◌, ◌<◌, ◌+◌, ◌-◌, ◌^◌, ◌↔◌, ◌==◌, ◌||◌, ℕ, min, length, IsSome, IfSome, slice_set, slice_index};
ghost use Rattle.std.specs.Option.{SomeIff};
ghost use Rattle.std.specs.List.{AllPass};
ghost use Rattle.hex.specs.Hex.{decode_of, is_hex_digit};
ghost use Rattle.answer.specs.Numbers.{answered};
ghost use Rattle.rules.specs.Configure.{byte_bit};

use answer::Refusal;
use hex::FromHex;

// The number of an answer: 0 where the call was accepted, else the number of the refusal.
pub fn number<T: Drop>(answer: Result<T, Refusal>) -> u8
    ensures { result ≡ answered answer }
{
    answer.err().map_or(0, Refusal::number)
}

// The four bytes of a record, from eight hexadecimal digits in either case.
pub fn four_bytes(text: &str) -> Option<[u8; 4]>
    ensures value { IfSome result (λ bytes. decode_of text.now ≡ Ok bytes) }
    ensures found { IsSome result ↔ ((length text.now ≡ 8) × AllPass is_hex_digit text.now) }
{
    <[u8; 4] as FromHex>::from_hex(text).ok()
}

// The bit of an interval code in a mask: bit c - 1 for code c, from 1 to 16.
pub fn code_bit(code: u8) -> Option<u16>
    ensures { SomeIff result ((1 ≤ code) × (code ≤ 16)) (2 ^ (code - 1)) }
{
    u32::from(code)
        .checked_sub(1)
        .and_then(|bit| 1u16.checked_shl(bit))
}

// Sync offsets, as a pool is asked for: how many there are, and the first three.
// The count stands beside the values, since a pool may be asked for with more than three, and refuses it.
#[derive(Clone, Copy, Default, PartialEq, Eq, Debug)]
pub struct Offsets {
    pub used: u8,
    pub values: [u8; 3],
}

impl Offsets {
    // Takes one more. Past the third it is only counted, for the reason given at the type, and past 255 not even that.
    pub fn push(&mut self, offset: u8)
        ensures used { self.new.used ≡ min (self.old.used + 1) 255 }
        ensures values { self.new.values ≡ slice_set self.old.values self.old.used offset }
    {
        if self.used < 3 {
            self.values[usize::from(self.used)] = offset;
        }
        self.used = self.used.saturating_add(1);
    }
}

// A bitmap, as a pool is asked for: how many bits there are, and the bytes of the first 104, bit 0 the highest of byte 0.
// The size stands beside the bytes, since a pool may be asked for with more bits than they hold, and refuses it.
#[derive(Clone, Copy, PartialEq, Eq, Debug)]
pub struct Bitmap {
    pub size: u8,
    pub bytes: [u8; 13],
}

// The bytes of digits: a 1 sets its bit, and what is past 104 digits is left out.
fn packed(digits: &[u8]) -> [u8; 13]
    ensures { (i : ℕ) → i < 104 → byte_bit result i ≡ (slice_index digits.now i == 49) }
{
    let mut bytes = [0u8; 13];
    // By place, since eight digits go to a byte: two loops, one in the other, would be no plainer.
    for (i, digit) in digits[..digits.len().min(104)].iter().enumerate() {
        if *digit == b'1' {
            bytes[i / 8] |= 1 << (7 - i % 8);
        }
    }
    bytes
}

impl Bitmap {
    // The bitmap that digits 0 and 1 write, and none where something else stands among them. Bits past 255 are not
    // counted.
    pub fn read(text: &str) -> Option<Bitmap>
        ensures digits { IsSome result ↔ AllPass (λ d. (d == 48) || (d == 49)) text.now }
        ensures size { IfSome result (λ b. b.size ≡ min (length text.now) 255) }
        ensures bits { IfSome result (λ b. (i : ℕ) → i < 104 → byte_bit b.bytes i ≡ (slice_index text.now i == 49)) }
    {
        let digits = text.as_bytes();
        if !digits.iter().all(|d| *d == b'0' || *d == b'1') {
            return None;
        }
        Some(Bitmap {
            size: u8::try_from(digits.len()).unwrap_or(u8::MAX),
            bytes: packed(digits),
        })
    }
}

#[cfg(test)]
mod tests {
    use super::*;
    use std::test::Fail;

    #[test]
    fn numbers(rt: HostRuntime) {
        assert_eq!(rt; number::<u8>(Ok(5)), 0);
        assert_eq!(rt; number::<u8>(Err(Refusal::Full)), 31);
    }

    #[test]
    fn bytes_of_eight_digits(rt: HostRuntime) {
        assert_eq!(rt; four_bytes("03e0Ff00"), Some([3, 0xe0, 0xff, 0]));
        assert_eq!(rt; four_bytes("03e0ff0"), None);
        assert_eq!(rt; four_bytes("03e0ff000"), None);
        assert_eq!(rt; four_bytes("+3e0ff00"), None);
        assert_eq!(rt; four_bytes("03e0fg00"), None);
    }

    #[test]
    fn bits_of_codes(rt: HostRuntime) {
        assert_eq!(rt; code_bit(0), None);
        assert_eq!(rt; code_bit(1), Some(1));
        assert_eq!(rt; code_bit(16), Some(0x8000));
        assert_eq!(rt; code_bit(17), None);
        assert_eq!(rt; code_bit(255), None);
    }

    #[test]
    fn keeps_three_offsets(rt: HostRuntime) {
        let mut offsets = Offsets::default();
        assert_eq!(rt;
            offsets,
            Offsets {
                used: 0,
                values: [0; 3]
            }
        );
        for offset in 7..10 {
            offsets.push(offset);
        }
        assert_eq!(rt;
            offsets,
            Offsets {
                used: 3,
                values: [7, 8, 9]
            }
        );
        for _ in 0..300 {
            offsets.push(1);
        }
        assert_eq!(rt;
            offsets,
            Offsets {
                used: 255,
                values: [7, 8, 9]
            }
        );
    }

    #[test]
    fn bits_of_digits(rt: HostRuntime) {
        let mut bytes = [0; 13];
        assert_eq!(rt; Bitmap::read(""), Some(Bitmap { size: 0, bytes }));
        bytes[0] = 0xa0;
        bytes[1] = 0x40;
        assert_eq!(rt;
            Bitmap::read("1010000001"),
            Some(Bitmap { size: 10, bytes })
        );
        assert_eq!(rt; Bitmap::read("10 1"), None);
        assert_eq!(rt; Bitmap::read("12"), None);
    }

    #[test]
    fn counts_past_the_bytes(rt: HostRuntime) -> Result<(), Fail> {
        let bytes = [0xff; 13];
        let more = "1".repeat(rt.alloc(), 105)?;
        assert_eq!(rt;
            Bitmap::read(more.as_str()),
            Some(Bitmap { size: 105, bytes })
        );
        let many = "1".repeat(rt.alloc(), 300)?;
        assert_eq!(rt;
            Bitmap::read(many.as_str()),
            Some(Bitmap { size: 255, bytes })
        );
        Ok(())
    }
}
