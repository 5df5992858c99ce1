// The text of the rows, cut into parts: sections, each begun by an equals sign; the rows of a section, each ended by a
// newline; the fields of a row, with bars between them; the numbers of a field, with spaces between them. The text is
// bytes, since not every input is UTF-8.

// The part with this index of a text that has this mark between its parts; past the last, an empty one.
fn part(text: &[u8], mark: u8, index: usize) -> &[u8] {
    text.split(|byte| *byte == mark).nth(index).unwrap_or(&[])
}

// The section with this number; the text before the first has number 0.
pub fn section(text: &[u8], number: usize) -> &[u8] {
    part(text, b'=', number)
}

// The number whose decimal digits are in a text; the largest usize if it would be larger. A comma between digits is
// ignored, as is all else that is no digit, so this is no `parse`.
fn decimal(text: &[u8]) -> usize {
    text.iter()
        .filter_map(|byte| char::from(*byte).to_digit(10))
        .fold(0usize, |value, digit| {
            value.saturating_mul(10).saturating_add(digit as usize)
        })
}

// A line of a section.
#[derive(Clone, Copy)]
pub struct Row<'a>(pub &'a [u8]);

impl<'a> Row<'a> {
    // The field with this index; past the last, an empty one.
    pub fn field(self, index: usize) -> &'a [u8] {
        part(self.0, b'|', index)
    }

    // The number in a field, if the field is not empty.
    pub fn number(self, index: usize) -> Option<usize> {
        let text = self.field(index);
        if text.is_empty() {
            None
        } else {
            Some(decimal(text))
        }
    }
}

// What the numbers of a row are taken as. One that does not fit is cut to the lowest bits that do, so this is no
// `TryFrom`.
pub trait Number: Copy {
    // The number that a text gives; 0 if the text has no digit.
    fn of(text: &[u8]) -> Self;
}

impl Number for usize {
    fn of(text: &[u8]) -> usize {
        decimal(text)
    }
}

// The number mod 256.
impl Number for u8 {
    fn of(text: &[u8]) -> u8 {
        (decimal(text) % 256) as u8
    }
}

// The number mod 2^16.
impl Number for u16 {
    fn of(text: &[u8]) -> u16 {
        (decimal(text) % 65536) as u16
    }
}

// The number mod 2^32.
impl Number for u32 {
    fn of(text: &[u8]) -> u32 {
        (decimal(text) % 4294967296) as u32
    }
}

// The number mod 2^31.
fn cut_to_positive(number: usize) -> i32 {
    (number % 2147483648) as i32
}

// A text that begins with a minus sign gives a negative number. The size of the smallest i32 is no i32, so one is taken
// off before the sign turns.
impl Number for i32 {
    fn of(text: &[u8]) -> i32 {
        let size = decimal(text);
        match size.checked_sub(1) {
            Some(below) if text.starts_with(b"-") => -1 - cut_to_positive(below),
            _ => cut_to_positive(size),
        }
    }
}

// The number of a list with this index; past the last, 0.
pub fn nth_number<T: Number>(list: &[u8], index: usize) -> T {
    T::of(part(list, b' ', index))
}

// Fills the numbers of a list into the front of the places.
pub fn fill_numbers<T: Number>(list: &[u8], places: &mut [T]) {
    for (place, text) in places.iter_mut().zip(list.split(|byte| *byte == b' ')) {
        *place = T::of(text);
    }
}

// How many numbers a list gives; an empty one gives none. (No list of a row consists of spaces alone. Such a list would
// give as many numbers as it has spaces.)
pub fn count_numbers(list: &[u8]) -> usize {
    list.split(|byte| *byte == b' ').count().min(list.len())
}
