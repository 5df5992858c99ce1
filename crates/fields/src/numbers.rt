// Numbers of a few bytes, "high byte first".
ghost use Rattle.fields.specs.Numbers.{IsNumberRead};

// A number has at most this many bytes, so that it fits 32 bits.
const MOST_NUMBER_BYTES: usize = 4;

// The number in the `count` bytes from byte offset `at`; 0 if `count` is above 4, or if these bytes reach past the end.
// Offset and count can have any value, so nothing is added to them. (0 and no `None`: `IsNumberRead` promises a number on
// every input.)
pub fn number_at(bytes: &[u8], at: usize, count: usize) -> u32
    ensures { IsNumberRead bytes.now at count result }
{
    if MOST_NUMBER_BYTES < count {
        return 0;
    }
    let Some(rest) = bytes.get(at..) else {
        return 0;
    };
    let Some(digits) = rest.get(..count) else {
        return 0;
    };
    let mut number: u32 = 0;
    for byte in digits {
        number = number * 256 + u32::from(*byte);
    }
    number
}
