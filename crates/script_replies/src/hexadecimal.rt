ghost use Rattle.std.specs.Prelude.{◌≡◌, ◌<◌, ◌≤◌, ◌-◌, ◌++◌, drop, false, length, replicate, take};
ghost use Rattle.std.specs.Fmt.{digit_glyph};
ghost use Rattle.script_replies.specs.Replies.{hexadecimal};

/// How many hexadecimal digits a number of 32 bits has at most.
pub const MAX_DIGITS: usize = 8;

/// The eight hexadecimal digits of a number, zeros before them.
pub fn eight_digits(number: u32) -> [u8; MAX_DIGITS]
    ensures { result ≡ replicate (8 - length (hexadecimal number)) 48 ++ hexadecimal number }
{
    let mut room = [b'0'; MAX_DIGITS];
    let _ = write_hexadecimal(number, &mut room);
    room
}

/// Writes the hexadecimal digits of a number, without zeros before them, so that they end where the room does, and returns where they
/// begin.
pub fn write_hexadecimal(number: u32, room: &mut [u8; MAX_DIGITS]) -> usize
    ensures within { result ≤ 8 }
    ensures written { drop result room.new ≡ hexadecimal number }
    ensures before { take result room.new ≡ take result room.old }
{
    let mut left = number;
    let mut at = MAX_DIGITS;
    while at > 0 {
        at -= 1;
        room[at] = digit(left % 16);
        left /= 16;
        if left == 0 {
            break;
        }
    }
    at
}

// A hexadecimal digit, in lower case.
fn digit(value: u32) -> u8
    requires { value < 16 }
    ensures { result ≡ digit_glyph false value }
{
    if value < 10 {
        b'0' + value as u8
    } else {
        b'a' - 10 + value as u8
    }
}
