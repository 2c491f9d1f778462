//! How wide a text is. There is no font at hand, so this is the width in Helvetica with some room, which other fonts
//! without serifs keep within.
use crate::lengths::Tenths;
use itoa::Buffer;

/// The widths of the characters from the blank on, in thousandths of the size.
static WIDTHS: [u16; 95] = [
    278, 278, 355, 556, 556, 889, 667, 191, 333, 333, 389, 584, 278, 333, 278, 278, 556, 556, 556,
    556, 556, 556, 556, 556, 556, 556, 278, 278, 584, 584, 584, 556, 1015, 667, 667, 722, 722, 667,
    611, 778, 722, 278, 500, 667, 556, 833, 722, 778, 667, 778, 722, 667, 611, 722, 667, 944, 667,
    667, 611, 278, 278, 278, 469, 556, 333, 556, 556, 500, 556, 556, 278, 556, 556, 222, 222, 500,
    222, 833, 556, 556, 556, 556, 333, 500, 278, 556, 500, 722, 500, 500, 500, 334, 260, 334, 584,
];

/// The width of a character beyond ASCII.
const OTHER: u16 = 560;

/// The width of the character that begins with this byte, 0 for a byte that goes on with one.
fn width_of(byte: u8) -> u16 {
    match byte {
        0x80..=0xBF => 0,
        0xC0..=0xFF => OTHER,
        _ => WIDTHS
            .get(usize::from(byte.saturating_sub(32)))
            .copied()
            .unwrap_or(OTHER),
    }
}

/// The width of a text in this size.
pub fn width(text: &[u8], size: Tenths) -> Tenths {
    let mut sum: i32 = 0;
    for byte in text {
        sum = sum.saturating_add(i32::from(width_of(*byte)));
    }
    let wide = i64::from(sum).saturating_mul(i64::from(size.0));
    let tenths = wide.saturating_mul(108).checked_div(100_000).unwrap_or(0);
    Tenths(i32::try_from(tenths).unwrap_or(i32::MAX))
}

/// The width of a number's decimal digits in this size.
pub fn number_width(number: u32, size: Tenths) -> Tenths {
    width(Buffer::new().format(number).as_bytes(), size)
}
